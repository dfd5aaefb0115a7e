// One region's allocator, after frame.rs's AllocationRegion: its frames stand in the lent records, its six lists of free frames in its row,
// the row `index` of the lent words. `first` is the page number of the region's first record. Where a function has a `requires`, that is
// what the audit establishes of every region of a store: `SoundRow` (the records and the row stand for frames and lists) and `WholeRow`
// (the frames tile the region, each free one is listed). A region is named by its board, `first` and its row: the board says how many of
// its pages are tables. Where a body reads no number of the board, the board only says of which region the contract speaks, and nothing of
// it is left in what runs. `do_allocate` and what it calls are given none: it calls itself, and would copy the board each time. They ask
// for some board, and promise the same of every one.
#![tactic(auto)]

ghost use Rattle.std.specs.Prelude.{[], ◌∷◌, ◌≡◌, ℕ, ◌+◌, ◌-◌, ◌*◌, ◌/◌, ◌%◌, ◌≤◌, ◌<◌, ◌^◌};
ghost use Rattle.definition.specs.Board.{Fit};
ghost use Rattle.definition.specs.Allocator.{table_pages};
ghost use Rattle.definition.specs.Basics.{everywhere, upd};
ghost use Rattle.definition.specs.World.{record_at, pages_of};
ghost use Rattle.definition.specs.Frame.{
  pop_from,
  do_allocate,
  allocate as allocate_def,
  free as free_def,
  organize as organize_def,
  level_allocate,
  slot as slot_def,
  split as split_def,
  then_split,
};
ghost use Rattle.record.specs.Records.{pages_in};
ghost use Rattle.level.specs.Level.{rank};
ghost use Rattle.list.specs.Linked.{Out, Pushed, Sound};
ghost use Rattle.region.specs.Rep.{
  Inside,
  managed,
  SoundRow,
  WholeRow,
  Held,
  Blank,
  from_of,
  Becomes,
  state_of,
  free_record,
  list_up,
  kept_levels,
  marked_levels,
  empty_row,
  new_state,
  page_of,
  lookup,
};
ghost use Rattle.region.specs.Lent.{
  Same,
  levels_in,
  SoundIn,
  WholeIn,
  HeldIn,
  FindsIn,
  LeavesIn,
  SoundSome,
  WholeSome,
  SplitsSome,
  FindsBy,
  SeeksBy,
  SplitsBy,
};

use address::PhysAddr;
use definition::{Board, Links, Record, Row};
use level::Level;

// The number of a level's list, dirty or zeroed. From here to `larger` a level is its number, which stands in the records: as a `Level` it
// is converted on the way, and a grant of a listed frame takes a third longer.
fn slot(level: usize, zeroed: bool) -> usize
    requires { level < 3 }
    ensures { (result ≡ slot_def level zeroed) × (result < 6) }
{
    level * 2 + usize::from(zeroed)
}

// A free frame's record at the page, and the page on the back of a list. It takes the one list, and not the row, so that 512 in turn copy
// little.
fn admit(
    records: &mut [u8],
    list: Links,
    page: usize,
    level: usize,
    zeroed: bool,
    kernel: bool,
) -> Links
    requires sound { Sound (record_at records.old) (pages_in records.old) list }
    requires level_bound { (level < 3) × (page < pages_in records.old) }
    requires out { Out page (pages_of (record_at records.old) list) }
    requires page_bound { (page + 1 < 2 ^ 32) × (list.count + 1 < 2 ^ 32) }
    ensures { Pushed (upd (record_at records.old) page (free_record level zeroed kernel)) list (page ∷ [])
        (record_at records.new) (pages_in records.new) result }
{
    let marks = record::free_marks(zeroed, kernel);
    let word = record::level_word(level);
    record::store(
        records,
        page,
        Record {
            marks,
            level: word,
            earlier: 0,
            later: 0,
        },
    );
    list::push_back(records, list, page)
}

// AllocationRegionLevel::admit_one, frame.rs 127: a free frame at the page, on the back of its list, in a row that is still being laid out.
fn push(
    board: Board,
    records: &mut [u8],
    first: usize,
    row: Row,
    page: usize,
    level: usize,
    zeroed: bool,
    kernel: bool,
) -> Row
    requires sound_row { SoundRow board (record_at records.old) (pages_in records.old) first row }
    requires level_bound { (level < 3) × Inside board first row.pages page }
    requires by_index { (k : ℕ) → Out page ((state_of (record_at records.old) row).free k) }
    ensures { Becomes board (record_at records.old) first row (record_at records.new)
        (pages_in records.new) result (list_up (state_of (record_at records.old) row) page level zeroed kernel) }
{
    let k = slot(level, zeroed);
    let l = row.lists[k];
    let longer = admit(records, l, page, level, zeroed, kernel);
    let mut r = row;
    r.lists[k] = longer;
    r
}

// The region by its two loans. Its frames tie the records to the lists of its row only between two calls: one writes the records first and
// the row after, so that `SoundSome` is asked for and is no ghost field. A body that reads a loan and writes it takes it into a variable
// first: of a loan that a call reads through the field, a proof knows no more than its length afterwards.
#[derive(Drop)]
pub struct AllocationRegion<'a> {
    pub records: &'a mut [u8],
    pub first: usize,
    pub words: &'a mut [u64],
    pub index: usize,
}

impl AllocationRegion<'_> {
    // pop_back of the list `k`.
    fn pop(&mut self, k: usize) -> Option<usize>
        requires sound_some { SoundSome self.old }
        requires k_bound { k < 6 }
        ensures same { Same self.old self.new }
        ensures finds_by { FindsBy self.old self.new result (λ s. pop_from everywhere s k) }
    {
        let index = self.index;
        let words = &mut *self.words;
        let l = words::list_at(words, index, k);
        let (page, rest) = list::pop_back(self.records, l)?;
        words::put_list(words, index, k, rest);
        Some(page)
    }

    // AllocationRegionLevel::allocate, frame.rs 106.
    fn level_allocate(&mut self, level: usize, try_zero: bool, only_zero: bool) -> Option<usize>
        requires sound_some { SoundSome self.old }
        requires level_bound { level < 3 }
        ensures same { Same self.old self.new }
        ensures finds_by { FindsBy self.old self.new result (λ s. level_allocate everywhere s level try_zero only_zero) }
    {
        if only_zero {
            return self.pop(slot(level, true));
        }
        let dirty = self.pop(slot(level, false));
        if dirty.is_none() && try_zero {
            return self.pop(slot(level, true));
        }
        dirty
    }

    // AllocationRegion::split, frame.rs 244: the listed frame at the page becomes 512 of the level, child 0 pushed last.
    fn split(&mut self, page: usize, level: usize)
        requires { SplitsSome self.old page level }
        ensures same { Same self.old self.new }
        ensures splits_by { SplitsBy self.old self.new page level (split_def (levels_in self.old) page level) }
    {
        let index = self.index;
        let records = &mut *self.records;
        let words = &mut *self.words;
        let zeroed = record::is_zeroed(record::marks(records, page));
        let step = level::pages_at(level);
        let k = slot(level, zeroed);
        let mut l = words::list_at(words, index, k);
        for i in 1..512 {
            l = admit(records, l, page + i * step, level, zeroed, false);
        }
        let all = admit(records, l, page, level, zeroed, false);
        words::put_list(words, index, k, all);
    }

    // AllocationRegion::do_allocate, frame.rs 182: where the level has none, one of the next larger level is split.
    #[cycle(levels)]
    pub fn do_allocate(&mut self, level: usize, try_zero: bool, only_zero: bool) -> Option<usize>
        requires { WholeSome self.old }
        ensures same { Same self.old self.new }
        ensures seeks_by { SeeksBy self.old self.new result
            (λ s. do_allocate everywhere (3 - level) level s try_zero only_zero) }
    {
        if 3 <= level {
            return None;
        }
        let here = self.level_allocate(level, try_zero, only_zero);
        if here.is_some() {
            return here;
        }
        self.larger(level, try_zero, only_zero)
    }

    // The same where the level has none. It stays out of line, so that the search of one level, with which most grants end, goes into the
    // caller, and the region's numbers into registers: with a do_allocate that calls itself a grant of a listed frame takes twice as long.
    #[cycle(levels)]
    #[inline(never)]
    fn larger(&mut self, level: usize, try_zero: bool, only_zero: bool) -> Option<usize>
        requires level_bound { level < 3 }
        requires whole_some { WholeSome self.old }
        ensures same { Same self.old self.new }
        ensures seeks_by { SeeksBy self.old self.new result (λ s. then_split everywhere level try_zero only_zero
            (do_allocate everywhere (3 - (level + 1)) (level + 1) s try_zero only_zero)) }
    {
        let page = self.do_allocate(level + 1, try_zero, only_zero)?;
        self.split(page, level);
        self.level_allocate(level, try_zero, only_zero)
    }

    // AllocationRegion::allocate, frame.rs 195, at the level that find_level found.
    pub fn allocate(
        &mut self,
        board: Board,
        level: Level,
        try_zero: bool,
        only_zero: bool,
    ) -> Option<usize>
        requires sound_in { SoundIn board self.old }
        requires whole_in { WholeIn board self.old }
        ensures same { Same self.old self.new }
        ensures finds_in { FindsIn board self.old self.new result
            (allocate_def everywhere (rank level) (levels_in self.old) try_zero only_zero) }
        ensures whole_in_2 { WholeIn board self.new }
    {
        let page = self.do_allocate(level.index(), try_zero, only_zero)?;
        let records = &mut *self.records;
        let marks = record::marks(records, page);
        let held = record::set_allocated(marks);
        record::set_marks(records, page, held);
        Some(page)
    }

    // AllocationRegion::free and AllocationRegionLevel::free, frame.rs 166 and 97: clears ALLOCATED only, and puts the frame on the back of
    // its list.
    pub fn free(&mut self, board: Board, page: usize)
        requires sound_in { SoundIn board self.old }
        requires whole_in { WholeIn board self.old }
        requires held { HeldIn board self.old page }
        ensures same { Same self.old self.new }
        ensures leaves_in { LeavesIn board self.old self.new (free_def (levels_in self.old) page) }
        ensures whole_in_2 { WholeIn board self.new }
    {
        let index = self.index;
        let records = &mut *self.records;
        let words = &mut *self.words;
        let r = record::load(records, page);
        let level = record::level_of(r.level);
        let zeroed = record::is_zeroed(r.marks);
        let kernel = record::is_kernel(r.marks);
        let k = slot(level, zeroed);
        let l = words::list_at(words, index, k);
        let longer = admit(records, l, page, level, zeroed, kernel);
        words::put_list(words, index, k, longer);
    }
}

// Frame::set_not_zero, set_kernel, and zero but for the bytes (frame.rs 443, 470, 430): the marks of a held frame, which stays held.
pub fn set_marks(
    board: Board,
    records: &mut [u8],
    first: usize,
    row: Row,
    page: usize,
    zeroed: bool,
    kernel: bool,
)
    requires sound_row { SoundRow board (record_at records.old) (pages_in records.old) first row }
    requires whole_row { WholeRow board (record_at records.old) first row }
    requires held { Held board (state_of (record_at records.old) row) first row.pages page }
    ensures becomes { Becomes board (record_at records.old) first row (record_at records.new)
        (pages_in records.new) row (marked_levels (state_of (record_at records.old) row) page zeroed kernel) }
    ensures whole_row_2 { WholeRow board (record_at records.new) first row }
{
    let held = record::held_marks(zeroed, kernel);
    record::set_marks(records, page, held);
}

// AllocationRegion::split_and_keep, frame.rs 203: a held frame becomes 512 held ones, with its marks.
pub fn split_and_keep(board: Board, records: &mut [u8], first: usize, row: Row, page: usize)
    requires sound_row { SoundRow board (record_at records.old) (pages_in records.old) first row }
    requires whole_row { WholeRow board (record_at records.old) first row }
    requires held { Held board (state_of (record_at records.old) row) first row.pages page }
    ensures becomes { Becomes board (record_at records.old) first row (record_at records.new)
        (pages_in records.new) row (kept_levels (state_of (record_at records.old) row) page) }
    ensures whole_row_2 { WholeRow board (record_at records.new) first row }
{
    let r = record::load(records, page);
    let old = record::level_of(r.level);
    if old == 0 {
        return;
    }
    let level = old - 1;
    let step = level::pages_at(level);
    let word = record::level_word(level);
    let child = Record {
        marks: r.marks,
        level: word,
        earlier: 0,
        later: 0,
    };
    for i in 0..512 {
        record::store(records, page + i * step, child);
    }
}

// "Organize into levels", frame.rs 308: frames over `count` pages that have none, from the page frame number `from` on.
fn organize(
    board: Board,
    records: &mut [u8],
    first: usize,
    row: Row,
    from: usize,
    count: usize,
) -> Row
    requires sound_row { SoundRow board (record_at records.old) (pages_in records.old) first row }
    requires count_value { (count ≡ managed board row.pages) × (from ≡ from_of board row) × (from + count < 2 ^ 64) }
    requires blank { Blank board (state_of (record_at records.old) row) first row.pages }
    ensures becomes { Becomes board (record_at records.old) first row (record_at records.new)
        (pages_in records.new) result (organize_def count (state_of (record_at records.old) row) first from count) }
    ensures whole_row { WholeRow board (record_at records.new) first result }
{
    // Not a `for`: each frame goes on by its own pages.
    let mut r = row;
    let mut at: usize = 0;
    while at < count {
        let level = level::level_at(from + at, count - at);
        r = push(board, records, first, r, first + at, level, false, false);
        at += level::pages_at(level);
    }
    r
}

// array_pages, frame.rs 285: what the tables of so many pages take.
pub fn table_pages(board: Board, pages: usize) -> usize
    requires fit { Fit board }
    requires pages_bound { pages ≤ 2 ^ 32 }
    ensures { result ≡ table_pages board pages }
{
    // Not `div_ceil`: it tests the remainder, and a look at an address takes a third longer.
    (board.record_bytes * pages + (board.page - 1)) / board.page
}

// A row with no frames.
pub fn empty_row(start: PhysAddr, pages: usize) -> Row
    ensures { result ≡ empty_row start pages }
{
    Row {
        start,
        pages,
        lists: [list::EMPTY; 6],
    }
}

// AllocationRegion::new, frame.rs 277, of a map entry that is kept: whatever stood in its records, they become its frames, all free.
pub fn new(board: Board, records: &mut [u8], first: usize, start: PhysAddr, pages: usize) -> Row
    requires fit { Fit board }
    requires pages_bound { (pages ≤ 2 ^ 32) × (table_pages board pages ≤ pages) }
    requires pages_bound_2 { (first + managed board pages < 2 ^ 32) × (first + managed board pages ≤ pages_in records.old) }
    ensures becomes { Becomes board (record_at records.old) first (empty_row start pages) (record_at records.new)
        (pages_in records.new) result (new_state board (record_at records.old) first start pages) }
    ensures whole_row { WholeRow board (record_at records.new) first result }
{
    let tables = table_pages(board, pages);
    let count = pages - tables;
    record::clear(records, first, count);
    let row = empty_row(start, pages);
    organize(
        board,
        records,
        first,
        row,
        start.page_number(board.page) + tables,
        count,
    )
}

// FrameIndexer::get_frame, frame.rs 669: the page of an address, where the region manages it.
pub fn get_frame(board: Board, row: Row, first: usize, pa: PhysAddr) -> Option<usize>
    requires fit { Fit board }
    requires pages_bound { (row.pages ≤ 2 ^ 32) × (first + managed board row.pages < 2 ^ 64) }
    ensures { page_of result ≡ lookup board row first (pa.0 / board.page) }
{
    let number = pa.page_number(board.page);
    let start = row.start.page_number(board.page);
    let from = start + table_pages(board, row.pages);
    if !(from..start + row.pages).contains(&number) {
        return None;
    }
    Some(first + (number - from))
}

// Frame::start_address, frame.rs 414: the first address of a page of the region.
pub fn start_address(board: Board, row: Row, first: usize, page: usize) -> PhysAddr
    requires fit { Fit board }
    requires inside { Inside board first row.pages page }
    requires pages_bound { board.page * (row.start.0 / board.page + row.pages) ≤ 2 ^ 40 }
    ensures { result.0 ≡ board.page * (from_of board row + (page - first)) }
{
    let start = row.start.page_number(board.page);
    let from = start + table_pages(board, row.pages);
    PhysAddr::from_page_number(from + (page - first), board.page)
}
