// The three levels of frames, after frame.rs: of 1, 512 and 262,144 pages (4 KiB, 2 MiB and 1 GiB of the Rust's), with the constants that
// belong to each, and which level a layout or a place takes. Bytes are counted in u64, pages and levels in usize.
#![tactic(auto)]

ghost use Rattle.std.specs.Prelude.{not, ◌||◌, ◌≡◌, ◌-◌, ◌*◌, ◌/◌, ◌^◌, ◌<◌, ◌≤◌, ltb};
ghost use Rattle.definition.specs.declared.FrameAllocFlags.{FrameAllocFlags};
ghost use Rattle.definition.specs.Board.{Fit};
ghost use Rattle.definition.specs.Frame.{size as pages_of, levels, highest};
ghost use Rattle.definition.specs.Calls.{bytes_of_level, is_power_of_two, round_up};
ghost use Rattle.level.specs.Level.{rank, level_at, serves, takes, found_level};

use definition::{Board, Refusal};

#[derive(Clone, Copy, PartialEq, Eq, Debug)]
pub enum Level {
    Small,
    Large,
    Huge,
}

impl Level {
    // frame.rs 67, NR_LEVELS
    pub const COUNT: usize = 3;

    pub const ALL: [Level; Level::COUNT] = [Level::Small, Level::Large, Level::Huge];

    // frame.rs 69, PHYS_LEVEL_LAYOUTS: the size of a frame of each level, in pages. Its bytes are as many times the page of the board.
    pub const SMALL_PAGES: usize = 1;

    pub const LARGE_PAGES: usize = 512;

    pub const HUGE_PAGES: usize = 262144;

    // Its alignment is its size: in pages that of its page frame number, in bytes that of its address.
    pub const SMALL_ALIGN: usize = Level::SMALL_PAGES;

    pub const LARGE_ALIGN: usize = Level::LARGE_PAGES;

    pub const HUGE_ALIGN: usize = Level::HUGE_PAGES;

    // A level's number, which stands in a record.
    pub fn index(self) -> usize
        ensures { result ≡ rank self }
    {
        self as usize
    }

    // The level of a number; any above 2 is taken for 2.
    pub fn at(index: usize) -> Level
        ensures { result ≡ level_at index }
    {
        match index {
            0 => Level::Small,
            1 => Level::Large,
            _ => Level::Huge,
        }
    }

    // The pages of a frame.
    pub fn pages(self) -> usize
        ensures { result ≡ pages_of (rank self) }
    {
        match self {
            Level::Small => Level::SMALL_PAGES,
            Level::Large => Level::LARGE_PAGES,
            Level::Huge => Level::HUGE_PAGES,
        }
    }

    // The alignment of its page frame number.
    pub fn align(self) -> usize
        ensures { result ≡ pages_of (rank self) }
    {
        match self {
            Level::Small => Level::SMALL_ALIGN,
            Level::Large => Level::LARGE_ALIGN,
            Level::Huge => Level::HUGE_ALIGN,
        }
    }

    // The bytes of a frame.
    pub fn size(self, board: Board) -> u64
        requires { Fit board }
        ensures { result ≡ bytes_of_level board (rank self) }
    {
        bytes(board, self.pages())
    }

    // frame.rs 213 and 253, child_count: the frames of the next smaller level that one holds. A small one is not split, and counts as 1.
    pub fn child_count(self) -> usize
        ensures { result ≡ pages_of (rank self) / pages_of (rank self - 1) }
    {
        match self {
            Level::Small => 1,
            Level::Large => Level::LARGE_PAGES / Level::SMALL_PAGES,
            Level::Huge => Level::HUGE_PAGES / Level::LARGE_PAGES,
        }
    }

    // frame.rs 179: a frame of this level serves a layout.
    fn suffices(self, board: Board, size: u64, align: u64) -> bool
        requires { Fit board }
        ensures { result ≡ serves (bytes_of_level board (rank self)) size align }
    {
        size <= self.size(board) && align <= bytes(board, self.align())
    }

    // frame.rs 320: a frame of this level can start at a page frame number where so many pages are left.
    fn fits(self, number: usize, left: usize) -> bool
        ensures { result ≡ takes (pages_of (rank self)) number left }
    {
        number % self.align() == 0 && self.pages() <= left
    }
}

// The bytes of so many pages, as many as a frame has at most.
fn bytes(board: Board, pages: usize) -> u64
    requires { Fit board × (pages ≤ pages_of (levels - 1)) }
    ensures { result ≡ board.page * pages }
{
    (board.page * pages) as u64
}

// The pages of a frame by its level's number.
pub fn pages_at(level: usize) -> usize
    requires { level < levels }
    ensures { result ≡ pages_of level }
{
    Level::at(level).pages()
}

// frame.rs 313, "select level based on alignment and space": the highest that fits.
pub fn level_at(number: usize, left: usize) -> usize
    ensures { result ≡ highest (levels - 1) number left }
{
    if Level::Huge.fits(number, left) {
        2
    } else if Level::Large.fits(number, left) {
        1
    } else {
        0
    }
}

// 01's refusal 7, which Rust's Layout keeps out: an alignment that is no power of two, or a size that is over 2^63 - 1 once rounded up to
// it. 2^63 is a multiple of each power of two up to it, so that no size need be rounded, and no sum can wrap.
fn is_bad_layout(size: u64, align: u64) -> bool
    ensures { result ≡ not (is_power_of_two align) || ltb (2 ^ 63 - 1) (round_up size align) }
{
    !align.is_power_of_two() || size > (1 << 63) - align
}

// frame.rs 176, find_level: the first level that suffices, after 01's refusals 7 and 8. It looks at no flag, so the definition's answer is
// given for any.
pub fn find_level(board: Board, size: u64, align: u64) -> Result<Level, Refusal>
    requires { Fit board }
    ensures { (flags : FrameAllocFlags) → result ≡ found_level board (record { size = size; align = align; flags = flags }) }
{
    if is_bad_layout(size, align) {
        return Err(Refusal::BadLayout);
    }
    for level in Level::ALL {
        if level.suffices(board, size, align) {
            return Ok(level);
        }
    }
    Err(Refusal::NoLevel)
}
