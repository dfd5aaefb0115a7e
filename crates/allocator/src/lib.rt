// The allocator over all regions, after frame.rs's PhysicalFrameAllocator: which region manages an address, and the free, the split and the
// grant that change one of them. The regions' rows stand in the lent words; a function reads the one that it wants there. The board is the
// one that the words are of. Where a function has a `requires`, that is what the audit establishes (`SaneIn`), or what an earlier look at
// an address did.
#![tactic(auto)]

ghost use Rattle.definition.specs.Basics.{everywhere};
ghost use Rattle.std.specs.Prelude.{◌≡◌, ◌/◌, ◌<◌};
ghost use Rattle.definition.specs.Allocator.{do_alloc};
ghost use Rattle.level.specs.Level.{rank};
ghost use Rattle.words.specs.Words.{board_in, Long, RowsBeside};
ghost use Rattle.allocator.specs.Spots.{
  SaneIn,
  number_in,
  HeldIn,
  SeesIn,
  lists_some,
  ListedIn,
  TurnsIn,
  free_at,
  split_at,
  mark_at,
  PicksIn,
  pass_by,
};

use address::PhysAddr;
use definition::Row;
use level::Level;
use region::AllocationRegion;

// A page of a region: the region's row, the page number of its first managed page, and the page's own.
#[derive(Clone, Copy)]
pub struct Spot {
    pub index: usize,
    pub base: usize,
    pub page: usize,
}

// What stands at an address that a region manages: where it is, with the marks and the level of its page's record.
#[derive(Clone, Copy)]
pub struct Seen {
    pub spot: Spot,
    pub marks: u32,
    pub level: u32,
}

// The table of frames, to read, with what the torn test establishes of it. The bars keep of that only that it holds: a ghost field's fact
// may have one proof at most.
#[derive(Clone, Copy)]
pub struct Table<'a> {
    pub words: &'a [u64],
    pub records: &'a [u8],
    pub ghost long: { Long words.now },
    pub ghost sane: { ∥ SaneIn records.now words.now ∥₁ },
}

impl Table<'_> {
    // get_frame, frame.rs 742: none where no region manages the address.
    pub fn see(&self, pa: PhysAddr) -> Option<Seen>
        ensures { SeesIn self.now.records.now self.now.words.now (pa.0 / (board_in self.now.words.now).page) result }
    {
        let words = self.words;
        let board = words::board_in(words);
        let mut base: usize = 0;
        for i in 0..8 {
            let row = words::row_at(words, i);
            if row.pages == 0 {
                return None;
            }
            if let Some(page) = region::get_frame(board, row, base, pa) {
                return Some(Seen {
                    spot: Spot {
                        index: i,
                        base,
                        page,
                    },
                    marks: record::marks(self.records, page),
                    level: record::level(self.records, page),
                });
            }
            base += row.pages - region::table_pages(board, row.pages);
        }
        None
    }

    // Whether some list holds a frame of the level or above.
    pub fn is_listed(&self, level: Level) -> bool
        ensures { ListedIn self.now.records.now self.now.words.now (rank level) result }
    {
        for i in 0..8 {
            let row = words::row_at(self.words, i);
            if row.pages == 0 {
                return false;
            }
            if lists_some(row, level) {
                return true;
            }
        }
        false
    }
}

// Whether a row lists a frame of the level or above.
fn lists_some(row: Row, level: Level) -> bool
    ensures { result ≡ lists_some row (rank level) }
{
    // Not `row.lists[level * 2..].iter().any(..)`: the row is then copied whole, and the test takes 1.7 times as long.
    for k in level.index() * 2..6 {
        if row.lists[k].count != 0 {
            return true;
        }
    }
    false
}

// free, frame.rs 611, of a held frame.
pub fn free(words: &mut [u64], records: &mut [u8], spot: Spot)
    requires long { Long words.old × SaneIn records.old words.old }
    requires held_in { HeldIn records.old words.old spot }
    ensures turns_in { TurnsIn (free_at (board_in words.old) (number_in words.old spot)) records.old
        words.old records.new words.new }
    ensures rows_beside { RowsBeside words.old words.new }
{
    let board = words::board_in(words);
    let mut region = AllocationRegion {
        records,
        first: spot.base,
        words,
        index: spot.index,
    };
    region.free(board, spot.page);
}

// split_frame, frame.rs 753, of a held frame.
pub fn split_frame(words: &[u64], records: &mut [u8], spot: Spot)
    requires long { Long words.now × SaneIn records.old words.now }
    requires held_in { HeldIn records.old words.now spot }
    ensures { TurnsIn (split_at (number_in words.now spot)) records.old words.now
        records.new words.now }
{
    let board = words::board_in(words);
    let row = words::row_at(words, spot.index);
    region::split_and_keep(board, records, spot.base, row, spot.page);
}

// set_not_zero, zero but for the bytes, and set_kernel (frame.rs 443, 430, 470): the marks of a held frame.
pub fn set_marks(words: &[u64], records: &mut [u8], spot: Spot, zeroed: bool, kernel: bool)
    requires long { Long words.now × SaneIn records.old words.now }
    requires held_in { HeldIn records.old words.now spot }
    ensures { TurnsIn (mark_at zeroed kernel (number_in words.now spot)) records.old words.now
        records.new words.now }
{
    let board = words::board_in(words);
    let row = words::row_at(words, spot.index);
    region::set_marks(board, records, spot.base, row, spot.page, zeroed, kernel);
}

// frame.rs 596 and 602: the first region, in order, that has a frame.
fn pass(
    words: &mut [u64],
    records: &mut [u8],
    level: Level,
    try_zero: bool,
    only_zero: bool,
) -> Option<Spot>
    requires { Long words.old × SaneIn records.old words.old }
    ensures picks_in { PicksIn (pass_by (rank level) try_zero only_zero) records.old words.old records.new
        words.new result }
    ensures rows_beside { RowsBeside words.old words.new }
{
    let board = words::board_in(words);
    let mut base: usize = 0;
    for i in 0..8 {
        let pages = words::pages_at(words, i);
        if pages == 0 {
            return None;
        }
        let mut region = AllocationRegion {
            records,
            first: base,
            words,
            index: i,
        };
        let got = region.allocate(board, level, try_zero, only_zero);
        if let Some(page) = got {
            return Some(Spot {
                index: i,
                base,
                page,
            });
        }
        base += pages - region::table_pages(board, pages);
    }
    None
}

// __do_alloc, frame.rs 594: zeroed only where that was asked, else dirty only; then either kind.
pub fn do_alloc(
    words: &mut [u64],
    records: &mut [u8],
    level: Level,
    needs_zero: bool,
) -> Option<Spot>
    requires { Long words.old × SaneIn records.old words.old }
    ensures picks_in { PicksIn (do_alloc everywhere (rank level) needs_zero) records.old words.old records.new
        words.new result }
    ensures rows_beside { RowsBeside words.old words.new }
{
    let picked = pass(words, records, level, false, needs_zero);
    if picked.is_some() {
        return picked;
    }
    pass(words, records, level, true, false)
}
