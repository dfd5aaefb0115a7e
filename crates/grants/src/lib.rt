// Grants: try_alloc_frame and try_alloc_split_frames. Each is lent what it reads and writes and promises definition's `step`
// (exam/specs/Making.antt).
#![tactic(auto)]

ghost use Rattle.std.specs.Prelude.{false, ◌≡◌, ◌+◌, ◌*◌, ◌<◌, ◌≤◌, length, IfSome};
ghost use Rattle.definition.specs.Board.{Fit};
ghost use Rattle.definition.specs.Frame.{size as pages_of};
ghost use Rattle.definition.specs.Tracker.{count_alloc, try_alloc_frame, try_alloc_split_frames};
ghost use Rattle.definition.specs.Calls.{Alloc, Take};
ghost use Rattle.definition.specs.World.{record_at};
ghost use Rattle.level.specs.Level.{rank};
ghost use Rattle.record.specs.Records.{pages_in};
ghost use Rattle.words.specs.Words.{board_in, Long, rows_in, Beside};
ghost use Rattle.allocator.specs.Spots.{HeldIn, TurnsIn, mark_at, number_in};
ghost use Rattle.exam.specs.Making.{TableIn, RoomIn, Few, Grants};
ghost use Rattle.exam.specs.Props.{table_in_prop};
ghost use Rattle.grants.specs.Granting.{WantsIn, asking, zeroed_bytes, Near, handed as handed_def};

use allocator::{Spot, Table};
use definition::{Board, Counters, FrameAllocFlags, Refusal};
use exam::{Answer, Reply};
use level::Level;

// ---- which refusal a layout meets

// 7 to 10: the level that the layout gets, where something is listed at it or above.
fn wanted(table: Table, size: u64, align: u64, flags: FrameAllocFlags) -> Result<Level, Refusal>
    ensures { WantsIn table.entry.words.now table.entry.records.now (record { size = size; align = align; flags = flags }) result }
{
    let board = words::board_in(table.words);
    let level = level::find_level(board, size, align)?;
    if table.is_listed(level) {
        return Ok(level);
    }
    Err(if flags.wait_ok {
        Refusal::MustWait
    } else {
        Refusal::NoFrame
    })
}

// ---- the parts of a grant

// frame.rs 586, alloc: a ZEROED grant trusts a frame marked ZEROED and zeroes any other.
fn zero_if_asked(board: Board, records: &[u8], memory: &mut [u8], page: usize, zeroed: bool)
    requires page_bound { (page < pages_in records.now) × ((record_at records.now page).level < 3) }
    requires page_in_bounds { board.page * page + board.page * pages_of (record_at records.now page).level ≤ length memory.old }
    ensures { memory.new ≡ zeroed_bytes board zeroed (record_at records.now page) page memory.old }
{
    if zeroed && !record::is_zeroed(record::marks(records, page)) {
        let pages = level::pages_at(record::level_of(record::level(records, page)));
        contents::fill(memory, board.page * page, board.page * pages, 0);
    }
}

// The first address of a page of a row.
fn address_of(words: &[u64], spot: Spot) -> u64
    requires { Long words.now × Near (board_in words.now) (rows_in words.now) spot }
    ensures { result ≡ (board_in words.now).page * number_in words.now spot }
{
    let board = words::board_in(words);
    let row = words::row_at(words, spot.index);
    region::start_address(board, row, spot.base, spot.page).raw()
}

// ---- what a grant works on

// The loans of a call that grants: a sane table, and a memory in which every managed page has its bytes.
#[derive(Drop)]
struct Lent<'a> {
    counters: &'a mut Counters,
    words: &'a mut [u64],
    records: &'a mut [u8],
    memory: &'a mut [u8],
    ghost table: { TableIn words.now records.now } by { table_in_prop words.now records.now },
    ghost room: { RoomIn words.now memory.now },
}

// The frame that a grant found, and its address.
#[derive(Clone, Copy)]
pub struct Granted {
    pub spot: Spot,
    pub address: u64,
}

// The answer to a grant: the frame's address and bytes, or two zeros where none was found.
fn handed(board: Board, granted: Option<Granted>, level: Level) -> Reply
    requires { Fit board }
    ensures { result ≡ handed_def board granted (rank level) }
{
    let Some(granted) = granted else {
        return Reply {
            address: 0,
            bytes: 0,
        };
    };
    Reply {
        address: granted.address,
        bytes: level.size(board),
    }
}

// ---- a grant

// A field that is passed as `&` is not known to stay as it is. So each method first names the words and records that it passes so.
impl Lent<'_> {
    ghost use Rattle.grants.specs.Loans.{Same, FindsIn, GivesIn, GrantsIn};

    // frame.rs 715 clears the ZEROED mark; tracker.rs 73 to 80 set KERNEL as asked, and count the pages of the level that was asked for.
    fn hand_over(&mut self, spot: Spot, level: Level, flags: FrameAllocFlags)
        requires few { Few self.old.counters.now }
        requires held_in { HeldIn self.old.records.now self.old.words.now spot }
        ensures same { Same self.old self.new }
        ensures words { self.new.words.now ≡ self.old.words.now }
        ensures value { self.new.counters.now ≡ count_alloc (pages_of (rank level)) flags.kernel self.old.counters.now }
        ensures memory_after { self.new.memory.now ≡ zeroed_bytes (board_in self.old.words.now)
            flags.zeroed (record_at self.old.records.now spot.page) spot.page self.old.memory.now }
        ensures turns_in { TurnsIn (mark_at false flags.kernel (number_in self.old.words.now spot))
            self.old.records.now self.old.words.now self.new.records.now self.new.words.now }
    {
        let words = &mut *self.words;
        let records = &mut *self.records;
        let board = words::board_in(words);
        zero_if_asked(board, records, self.memory, spot.page, flags.zeroed);
        allocator::set_marks(words, records, spot, false, flags.kernel);
        *self.counters = tracker::count_alloc(*self.counters, level.pages(), flags.kernel);
    }

    // A frame of the level, its contents and marks as asked, and its pages counted.
    fn grant(&mut self, level: Level, flags: FrameAllocFlags) -> Option<Granted>
        requires { Few self.old.counters.now }
        ensures same { Same self.old self.new }
        ensures finds { FindsIn self.old self.new result }
        ensures held { IfSome result (λ t. HeldIn self.new.records.now self.new.words.now t.spot) }
        ensures gives_by { GivesIn try_alloc_frame level flags self.old self.new result }
        ensures beside { Beside self.old.words.now self.new.words.now }
    {
        let words = &mut *self.words;
        let spot = allocator::do_alloc(words, self.records, level, flags.zeroed)?;
        let address = address_of(words, spot);
        self.hand_over(spot, level, flags);
        Some(Granted { spot, address })
    }

    // The same, and a frame above the first level becomes 512 held ones.
    fn grant_split(&mut self, level: Level, flags: FrameAllocFlags) -> Option<Granted>
        requires { Few self.old.counters.now }
        ensures same { Same self.old self.new }
        ensures finds { FindsIn self.old self.new result }
        ensures gives_by { GivesIn try_alloc_split_frames level flags self.old self.new result }
        ensures beside { Beside self.old.words.now self.new.words.now }
    {
        let granted = self.grant(level, flags)?;
        let words = &mut *self.words;
        allocator::split_frame(words, self.records, granted.spot);
        Some(granted)
    }

    // A grant to the layout, its frame split where that is asked.
    fn given<const SPLIT: bool>(&mut self, size: u64, align: u64, flags: FrameAllocFlags) -> Answer
        requires { Few self.old.counters.now }
        ensures same { Same self.old self.new }
        ensures grants { GrantsIn (asking SPLIT (record { size = size; align = align; flags = flags })) self.old self.new result }
        ensures beside { Beside self.old.words.now self.new.words.now }
    {
        let words = &mut *self.words;
        let records = &mut *self.records;
        let level = wanted(Table { words, records }, size, align, flags)?;
        let board = words::board_in(words);
        if SPLIT {
            let split = self.grant_split(level, flags);
            return Ok(handed(board, split, level));
        }
        let whole = self.grant(level, flags);
        Ok(handed(board, whole, level))
    }
}

// ---- the calls

// try_alloc_frame, tracker.rs 55.
pub fn alloc(
    counters: &mut Counters,
    words: &mut [u64],
    records: &mut [u8],
    memory: &mut [u8],
    size: u64,
    align: u64,
    flags: FrameAllocFlags,
) -> Answer
    requires table_in { TableIn words.old records.old }
    requires room_in { RoomIn words.old memory.old }
    requires few { Few counters.old }
    ensures grants { Grants (Alloc (record { size = size; align = align; flags = flags }))
        counters.old words.old records.old memory.old
        counters.new words.new records.new memory.new result }
    ensures beside { Beside words.old words.new }
{
    let mut lent = Lent {
        counters,
        words,
        records,
        memory,
    };
    lent.given::<false>(size, align, flags)
}

// try_alloc_split_frames, tracker.rs 98.
pub fn take(
    counters: &mut Counters,
    words: &mut [u64],
    records: &mut [u8],
    memory: &mut [u8],
    size: u64,
    align: u64,
    flags: FrameAllocFlags,
) -> Answer
    requires table_in { TableIn words.old records.old }
    requires room_in { RoomIn words.old memory.old }
    requires few { Few counters.old }
    ensures grants { Grants (Take (record { size = size; align = align; flags = flags }))
        counters.old words.old records.old memory.old
        counters.new words.new records.new memory.new result }
    ensures beside { Beside words.old words.new }
{
    let mut lent = Lent {
        counters,
        words,
        records,
        memory,
    };
    lent.given::<true>(size, align, flags)
}
