// The boot (frame.rs's init): the refusals of a map, 1 to 5, and the layout of the regions that it keeps. A refused boot leaves everything
// as it was. Numbers of a map are any of 64 bits, so an entry is rounded to pages only once no usable one ends past 2^40.
#![tactic(auto)]

ghost use Rattle.std.specs.Prelude.{true, false, ◌≡◌, ◌≤◌, length};
ghost use Rattle.definition.specs.Board.{Fit};
ghost use Rattle.definition.specs.Allocator.{is_usable};
ghost use Rattle.definition.specs.Basics.{all, any};
ghost use Rattle.definition.specs.Boot.{counters_at_boot, ends_far};
ghost use Rattle.definition.specs.Torn.{row_as_boot};
ghost use Rattle.definition.specs.World.{record_at};
ghost use Rattle.record.specs.Records.{pages_in};
ghost use Rattle.words.specs.Words.{Long};
ghost use Rattle.exam.specs.Promise.{state_with, world_of};
ghost use Rattle.boot.specs.Booting.{
  Keeps,
  Admits,
  Ready,
  Lays,
  BootsAll,
  BootsOver,
  row_of,
  rows_admitted,
};

use address::PhysAddr;
use definition::{Board, Counters, MemoryRegion, MemoryRegionKind, Pass, Refusal, Row};
use exam::{Answer, Reply};

// ---- the entries of a map

// The first eight entries of a map, and how many it has, which may be more.
#[derive(Clone, Copy)]
pub struct Gathered {
    pub map: [MemoryRegion; 8],
    pub count: usize,
}

fn is_usable(kind: MemoryRegionKind) -> bool
    ensures { result ≡ is_usable kind }
{
    matches!(kind, MemoryRegionKind::UsableRam)
}

// A usable entry ends past 2^40. Neither its start nor its length need be small, so that their sum stops at the largest number.
fn ends_far(entry: MemoryRegion) -> bool
    ensures { result ≡ ends_far entry }
{
    let start = entry.start;
    is_usable(entry.kind) && 1099511627776 < start.raw().saturating_add(entry.length as u64)
}

fn any_far(map: &[MemoryRegion]) -> bool
    ensures { result ≡ any ends_far map.now }
{
    map.iter().any(|entry| ends_far(*entry))
}

// AllocationRegion::new, frame.rs 277, up to its frames: the row of an entry that is kept. One page or less is not kept (281), and neither
// are pages of which their own tables leave none (286): with large records that is so of any number of pages.
fn keep(board: Board, entry: MemoryRegion) -> Option<Row>
    requires fit { Fit board }
    requires value { ends_far entry ≡ false }
    ensures { result ≡ row_of board entry }
{
    if !is_usable(entry.kind) {
        return None;
    }
    let page = board.page as u64;
    let begin = entry.start;
    let start = begin.align_up(page);
    let gap = start.raw() - begin.raw();
    let pages = ((entry.length as u64).saturating_sub(gap) / page) as usize;
    if pages <= 1 || pages <= region::table_pages(board, pages) {
        return None;
    }
    Some(region::empty_row(start, pages))
}

// The rows of the entries that a map keeps, and how many they are.
#[derive(Clone, Copy)]
pub struct Kept {
    pub rows: [Row; 8],
    pub used: usize,
}

fn kept_rows(board: Board, map: &[MemoryRegion]) -> Kept
    requires fit { Fit board }
    requires few { length map.now ≤ 8 }
    requires near { any ends_far map.now ≡ false }
    ensures keeps { Keeps board map.now result }
    ensures room { result.used ≤ 8 }
{
    let mut rows = [region::empty_row(PhysAddr::new(0), 0); 8];
    let mut used: usize = 0;
    for entry in map {
        if let Some(row) = keep(board, *entry) {
            rows[used] = row;
            used += 1;
        }
    }
    Kept { rows, used }
}

// ---- the refusals

// 3, 4 and 5, of the rows that are kept.
fn admit_rows(board: Board, rows: &[Row], records: usize, memory: usize) -> Result<(), Refusal>
    requires fit { Fit board }
    requires booted { all (row_as_boot board) rows.now ≡ true }
    requires few { length rows.now ≤ 8 }
    ensures { result ≡ rows_admitted board rows.now records memory }
{
    if audit::overlaps(board, rows) {
        return Err(Refusal::Overlap);
    }
    if 1048576 < audit::total_pages(board, rows) {
        return Err(Refusal::TooManyPages);
    }
    if !audit::loans_long(board, rows, records, memory) {
        return Err(Refusal::ShortLoan);
    }
    Ok(())
}

// 1 to 5: the rows that a map keeps; of one that is longer than eight entries none is read.
pub fn admit_map(
    board: Board,
    map: &Gathered,
    records: usize,
    memory: usize,
) -> Result<Kept, Refusal>
    requires { Fit board }
    ensures { Admits board map.now.map map.now.count records memory result }
{
    if 8 < map.count {
        return Err(Refusal::LongMap);
    }
    let entries = &map.map[..map.count];
    if any_far(entries) {
        return Err(Refusal::FarAddress);
    }
    let kept = kept_rows(board, entries);
    admit_rows(board, &kept.rows[..kept.used], records, memory)?;
    Ok(kept)
}

// ---- the layout

// The frames of each region, all free, the regions' records one behind another from page 0 on. The rows are those in use.
fn lay_out(board: Board, records: &mut [u8], rows: &mut [Row])
    requires fit { Fit board }
    requires ready { Ready board rows.old (pages_in records.old) }
    ensures { Lays board (record_at records.old) rows.old (record_at records.new) (pages_in records.new)
        rows.new }
{
    let mut base: usize = 0;
    for row in rows.iter_mut() {
        let pages = row.pages;
        *row = region::new(board, records, base, row.start, pages);
        base += pages - region::table_pages(board, pages);
    }
}

// tracker.rs 469, init: of so many pages all are idle.
pub fn started(pages: usize) -> Counters
    ensures { result ≡ counters_at_boot pages }
{
    Counters {
        kernel_used: 0,
        page_data: 0,
        idle: pages,
        total: pages,
        allocated: 0,
        freed: 0,
        reclaimed: 0,
        waiting: 0,
        pager_outstanding: 0,
    }
}

// init, frame.rs 707: the store that a map makes. The memory's bytes stay. Nothing of the words is read, so that the board is the caller's
// to give.
pub fn boot(
    board: Board,
    counters: &mut Counters,
    words: &mut [u64],
    map: &Gathered,
    records: &mut [u8],
    memory: &[u8],
    queue: &[u64],
) -> Answer
    requires fit { Fit board }
    requires long { Long words.old }
    ensures boots_all { BootsAll board map.now.map map.now.count
        (world_of (state_with counters.old words.old) records.old memory.now queue.now)
        (world_of (state_with counters.new words.new) records.new memory.now queue.now) result }
    ensures boots_over { BootsOver words.old words.new result }
{
    let Kept { mut rows, used } = admit_map(board, map, records.len(), memory.len())?;
    let in_use = &mut rows[..used];
    let pages = audit::total_pages(board, in_use);
    let managed = audit::managed_pages(board, in_use);
    lay_out(board, records, in_use);
    let pass = Pass {
        rounds: 0,
        freed: 0,
    };
    words::put_kept(words, used as u32, rows, 0, pass);
    *counters = started(pages);
    Ok(Reply {
        address: 0,
        bytes: (board.page * managed) as u64,
    })
}
