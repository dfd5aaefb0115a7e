// The torn sheet of all that a later call is given (01, "Torn unless all hold"). `survey` makes the tests of each row and its region in one
// pass over the rows, other functions those of all rows together, of the counters and of the rest. `audit` is true exactly where every
// sentence holds: on any rows, numbers and bytes whatever, reading nothing outside the loans. Boot asks four of them of the rows that it
// keeps.
#![tactic(auto)]

ghost use Rattle.std.specs.Prelude.{true, false, not, ◌&&◌, ◌≡◌, ◌+◌, ◌≤◌, ◌<◌, length, drop};
ghost use Rattle.definition.specs.Board.{Fit};
ghost use Rattle.definition.specs.Basics.{all, any};
ghost use Rattle.definition.specs.Allocator.{total};
ghost use Rattle.definition.specs.Boot.{
  managed_pages,
  overlap,
  shares as shares_def,
};
ghost use Rattle.definition.specs.World.{record_at, bare_region, used_rows};
ghost use Rattle.definition.specs.Torn.{
  bare_regions,
  regions_of,
  row_as_boot,
  rows_as_boot,
  loans_long,
  none_waiting,
  queue_within,
  pass_within,
};
ghost use Rattle.record.specs.Records.{pages_in};
ghost use Rattle.words.specs.Words.{board_in, Long, rows_in, queued_in, pass_in, used_in};
ghost use Rattle.audit.specs.Sheet.{row_at, Few, Visited, Surveys, counts_as, Exact};

use definition::{Board, Counters, Pass, Row};

// ---- "the rows' starts and pages are such as boot makes"

// 01: no usable memory ends past it.
const HIGHEST_ADDRESS: usize = 1099511627776;

// A page edge, more than one page, an end by 2^40, which is looked at in pages, and more pages than the tables take.
fn row_as_boot(board: Board, row: Row) -> bool
    requires { Fit board }
    ensures { result ≡ row_as_boot board row }
{
    let start = row.start;
    let pages = row.pages;
    let most = HIGHEST_ADDRESS / board.page;
    start.is_aligned_to(board.page as u64)
        && 1 < pages
        && pages <= most
        && start.page_number(board.page) <= most - pages
        && region::table_pages(board, pages) < pages
}

// Two rows share a page. They are any rows: an end that would pass 64 bits stops at the largest number, past every page.
fn shares(board: Board, r: Row, t: Row) -> bool
    requires { Fit board }
    ensures { result ≡ shares_def board (bare_region board r) (bare_region board t) }
{
    let r_start = r.start;
    let t_start = t.start;
    let r_first = r_start.page_number(board.page);
    let t_first = t_start.page_number(board.page);
    r_first < t_first.saturating_add(t.pages) && t_first < r_first.saturating_add(r.pages)
}

// The row shares a page with one of the others.
fn shares_any(board: Board, row: Row, others: &[Row]) -> bool
    requires { Fit board }
    ensures { result ≡ any (shares_def board (bare_region board row)) (bare_regions board others.now) }
{
    others.iter().any(|other| shares(board, row, *other))
}

// Two of the rows share a page.
pub fn overlaps(board: Board, rows: &[Row]) -> bool
    requires { Fit board }
    ensures { result ≡ overlap board (bare_regions board rows.now) }
{
    for (i, row) in rows.iter().enumerate() {
        if shares_any(board, *row, &rows[i + 1..]) {
            return true;
        }
    }
    false
}

// The pages of rows in use, tables included.
pub fn total_pages(board: Board, rows: &[Row]) -> usize
    requires fit { Fit board }
    requires booted { all (row_as_boot board) rows.now ≡ true }
    requires few { length rows.now ≤ 8 }
    ensures { result ≡ total (bare_regions board rows.now) }
{
    rows.iter().map(|row| row.pages).sum()
}

// ---- "and the loans long enough"

// The managed pages of rows in use.
pub fn managed_pages(board: Board, rows: &[Row]) -> usize
    requires fit { Fit board }
    requires booted { all (row_as_boot board) rows.now ≡ true }
    requires few { total (bare_regions board rows.now) ≤ 1048576 }
    ensures { (result ≡ managed_pages board (bare_regions board rows.now)) × (result ≤ 1048576) }
{
    rows.iter()
        .map(|row| row.pages - region::table_pages(board, row.pages))
        .sum()
}

pub fn loans_long(board: Board, rows: &[Row], records: usize, memory: usize) -> bool
    requires fit { Fit board }
    requires booted { all (row_as_boot board) rows.now ≡ true }
    requires few { total (bare_regions board rows.now) ≤ 1048576 }
    ensures { result ≡ loans_long board rows.now records memory }
{
    let pages = managed_pages(board, rows);
    16 * pages <= records && board.page * pages <= memory
}

// ---- the rows and their regions

// What is lent of a state to be looked at: its words, which are enough for one, and its records.
#[derive(Clone, Copy)]
struct Lent<'a> {
    words: &'a [u64],
    records: &'a [u8],
    ghost long: { Long words.now },
}

// What the rows up to one are found to be: how many are in use, their pages with the tables and without, and the pages that their regions
// hold.
#[derive(Clone, Copy)]
struct Surveyed {
    used: usize,
    total: usize,
    managed: usize,
    page: usize,
    kernel: usize,
}

impl<'a> Lent<'a> {
    // The row in use behind those that were seen: that it is as boot makes it, that the loan has its records, and that its region is whole.
    fn visit(&self, seen: Surveyed) -> Option<Surveyed>
        requires few { Few seen }
        requires in_use { (seen.used < 8) × (seen.used < used_in self.now.words.now) }
        ensures { Visited (board_in self.now.words.now) (record_at self.now.records.now) (pages_in self.now.records.now)
            (row_at (rows_in self.now.words.now) seen.used) seen result }
    {
        let board = words::board_in(self.words);
        let row = words::row_at(self.words, seen.used);
        if !row_as_boot(board, row) {
            return None;
        }
        let start = row.start;
        let tables = region::table_pages(board, row.pages);
        let past = seen.managed + (row.pages - tables);
        if self.records.len() / 16 < past {
            return None;
        }
        let held = scan::region_whole(
            self.records,
            start.page_number(board.page) + tables,
            seen.managed,
            past,
            row,
            self.words,
            seen.used,
        )?;
        Some(Surveyed {
            used: seen.used + 1,
            total: seen.total + row.pages,
            managed: past,
            page: seen.page + held.page,
            kernel: seen.kernel + held.kernel,
        })
    }

    // The rows in use, each looked at once, and behind them the unused ones, all zeros.
    fn survey(&self) -> Option<Surveyed>
        ensures { Surveys (board_in self.now.words.now) (record_at self.now.records.now) (pages_in self.now.records.now)
            (rows_in self.now.words.now) result }
    {
        let mut seen = Surveyed {
            used: 0,
            total: 0,
            managed: 0,
            page: 0,
            kernel: 0,
        };
        // `seen` counts the rows itself, up to the first that has no pages: a `for` would count them once more.
        while seen.used < 8 && words::pages_at(self.words, seen.used) != 0 {
            seen = self.visit(seen)?;
        }
        words::is_no_rows(self.words, seen.used).then_some(seen)
    }

    // Two of the rows in use share a page. It is a function of its own, as the place for its eight rows is cleared wherever it stands.
    fn used_overlap(&self, used: usize) -> bool
        requires { used ≡ length (used_rows (rows_in self.now.words.now)) }
        ensures { result ≡ overlap (board_in self.now.words.now)
            (regions_of (board_in self.now.words.now) (rows_in self.now.words.now)) }
    {
        let rows = words::rows_in(self.words);
        overlaps(words::board_in(self.words), &rows[..used])
    }
}

// ---- "idle, total, kernel and page counts equal those of the rows and records"

// Whether the counters are those of what was found. Idle are the pages that nobody holds, tables among them.
fn counted(counters: Counters, seen: Surveyed) -> bool
    requires { seen.page + seen.kernel ≤ seen.total }
    ensures { result ≡ counts_as counters seen }
{
    counters.idle == seen.total - seen.page - seen.kernel
        && counters.total == seen.total
        && counters.kernel_used == seen.kernel
        && counters.page_data == seen.page
}

// ---- "`waiting` is 0; the queue's count is within its loan; pass rounds are at most 1,001 and freed at most 100 × rounds"

fn pass_within(board: Board, pass: Pass) -> bool
    requires { Fit board }
    ensures { result ≡ pass_within board pass }
{
    pass.rounds <= board.max_rounds + 1 && pass.freed <= board.per_round * pass.rounds
}

fn within(board: Board, counters: Counters, queued: usize, room: usize, pass: Pass) -> bool
    requires { Fit board }
    ensures { result ≡ none_waiting counters && (queue_within queued room && pass_within board pass) }
{
    counters.waiting == 0 && queued <= room && pass_within(board, pass)
}

// ---- the sheet

// Whether all that a later call is given is as the sheet says. The memory's bytes and the queue's places are not read: any loans of
// `memory_len` bytes and `queue_len` places do.
pub fn audit(
    counters: Counters,
    words: &[u64],
    records: &[u8],
    memory_len: usize,
    queue_len: usize,
) -> bool
    requires { Long words.now }
    ensures { Exact (board_in words.now) (rows_in words.now) counters (queued_in words.now)
        (pass_in words.now) records.now memory_len queue_len result }
{
    let board = words::board_in(words);
    let lent = Lent { words, records };
    let Some(seen) = lent.survey() else {
        return false;
    };
    // A single row shares no page with another, and then the rows are not read.
    seen.total <= 1048576
        && (seen.used < 2 || !lent.used_overlap(seen.used))
        && board.page * seen.managed <= memory_len
        && counted(counters, seen)
        && within(
            board,
            counters,
            words::queued_in(words),
            queue_len,
            words::pass_in(words),
        )
}
