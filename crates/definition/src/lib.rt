// The plain types that the definitions in specs/ and the code share: the numbers of a board, the boot map, the refusals, the records, the
// rows and the counters. What they mean stands in specs/; what computes here are
// `standard`, a refusal's number and rank, and the kinds and flags that are read off numbers.
#![tactic(auto)]

ghost use Rattle.std.specs.Prelude.{◌≡◌};
ghost use Rattle.definition.specs.Board.{standard as standard_def};
ghost use Rattle.definition.specs.Refusal.{earlier_of, number_of, rank};
ghost use Rattle.definition.specs.Script.{flags_of, kind_of};

use address::PhysAddr;

// The numbers that a board fixes. They are kept in no other place of the code: what reads one is given a board.
#[derive(Clone, Copy)]
pub struct Board {
    // arch/aarch64/memory/frame.rs 5, FRAME_SIZE: the bytes of a page
    pub page: usize,
    // frame.rs 284, size_of::<Frame>(): the table bytes that a page costs
    pub record_bytes: usize,
    // tracker.rs 169: memory is low where the idle pages are fewer than this many times the kernel's
    pub kernel_multiple: usize,
    // tracker.rs 176: or where the page data reach the idle pages divided by this
    pub idle_divisor: usize,
    // tracker.rs 415, MAX_PER_ROUND
    pub per_round: usize,
    // tracker.rs 414, MAX_RECLAIM_ROUNDS
    pub max_rounds: usize,
}

// The numbers of the Rust.
pub fn standard() -> Board
    ensures { result ≡ standard_def }
{
    Board {
        page: 4096,
        record_bytes: 32,
        kernel_multiple: 2,
        idle_divisor: 2,
        per_round: 100,
        max_rounds: 1000,
    }
}

// memory/mod.rs 21: what an entry of the boot map is for.
#[derive(Clone, Copy)]
pub enum MemoryRegionKind {
    UsableRam,
    Reserved,
    BootloaderReserved,
}

// 01: "0 UsableRam, 1 Reserved, 2 BootloaderReserved"; a kind over 2 is no usable memory either.
impl From<u64> for MemoryRegionKind {
    ghost from_gives = { λ n kind. kind ≡ kind_of n };

    fn from(n: u64) -> MemoryRegionKind {
        match n {
            0 => MemoryRegionKind::UsableRam,
            1 => MemoryRegionKind::Reserved,
            _ => MemoryRegionKind::BootloaderReserved,
        }
    }
}

// memory/mod.rs 28: an entry of the boot map.
#[derive(Clone, Copy)]
pub struct MemoryRegion {
    pub start: PhysAddr,
    pub length: usize,
    pub kind: MemoryRegionKind,
}

// 01, "The refusal sheet": its words, in the order in which they are tried (specs/Refusal.antt, `order`).
#[derive(Clone, Copy, Debug, PartialEq, Eq)]
pub enum Refusal {
    LongMap,
    FarAddress,
    Overlap,
    TooManyPages,
    ShortLoan,
    Torn,
    BadLayout,
    NoLevel,
    NoFrame,
    MustWait,
    Outside,
    NoFrameStart,
    NotHeld,
    PastTheEnd,
    PagerLow,
    QueueFull,
    BadLine,
}

impl Refusal {
    // Its number on the sheet, as an answer gives it; 0 is no refusal.
    pub fn number(self) -> u32
        ensures { result ≡ number_of self }
    {
        match self {
            Refusal::LongMap => 1,
            Refusal::FarAddress => 2,
            Refusal::Overlap => 3,
            Refusal::TooManyPages => 4,
            Refusal::ShortLoan => 5,
            Refusal::Torn => 6,
            Refusal::BadLayout => 7,
            Refusal::NoLevel => 8,
            Refusal::NoFrame => 9,
            Refusal::MustWait => 10,
            Refusal::Outside => 11,
            Refusal::NoFrameStart => 12,
            Refusal::NotHeld => 13,
            Refusal::PastTheEnd => 14,
            Refusal::PagerLow => 15,
            Refusal::QueueFull => 16,
            Refusal::BadLine => 17,
        }
    }

    // Its place in the order in which the refusals are tried.
    pub fn rank(self) -> u32
        ensures { result ≡ rank self }
    {
        self as u32
    }

    // Of two refusals that which is tried first.
    pub fn earlier(self, other: Refusal) -> Refusal
        ensures { result ≡ earlier_of self other }
    {
        if self.rank() < other.rank() {
            self
        } else {
            other
        }
    }
}

// tracker.rs 376: what a grant asks for.
#[derive(Clone, Copy)]
pub struct FrameAllocFlags {
    pub zeroed: bool,
    pub kernel: bool,
    pub wait_ok: bool,
}

// 01: "1 ZEROED + 2 KERNEL + 4 WAIT_OK".
impl From<u64> for FrameAllocFlags {
    ghost from_gives = { λ n flags. flags ≡ flags_of n };

    fn from(n: u64) -> FrameAllocFlags {
        FrameAllocFlags {
            zeroed: n % 2 == 1,
            kernel: n / 2 % 2 == 1,
            wait_ok: n / 4 % 2 == 1,
        }
    }
}

// 01, "What changes shape": the record of a managed page, four 32-bit numbers. A neighbour is 0 for none, else its page number plus 1.
#[derive(Clone, Copy)]
pub struct Record {
    pub marks: u32,
    pub level: u32,
    pub earlier: u32,
    pub later: u32,
}

// One list of free frames, numbered as neighbours are.
#[derive(Clone, Copy, PartialEq, Eq)]
pub struct Links {
    pub front: u32,
    pub back: u32,
    pub count: u32,
}

// A kept region: its start rounded up, its pages with its tables, and its six lists, dirty and zeroed at each level.
#[derive(Clone, Copy)]
pub struct Row {
    pub start: PhysAddr,
    pub pages: usize,
    pub lists: [Links; 6],
}

// tracker.rs 25: the nine counters of MemoryTracker, in its order. A kernel may lend them as they stand.
#[repr(C)]
#[derive(Clone, Copy)]
pub struct Counters {
    pub kernel_used: usize,
    pub page_data: usize,
    pub idle: usize,
    pub total: usize,
    pub allocated: usize,
    pub freed: usize,
    pub reclaimed: usize,
    pub waiting: usize,
    pub pager_outstanding: usize,
}

// tracker.rs 417: the reclaim pass under way, its worked rounds and the frames that it freed so far.
#[derive(Clone, Copy)]
pub struct Pass {
    pub rounds: usize,
    pub freed: usize,
}
