// The boot over a lent list of region structs (frame.rs's init): any length, of which no more than eight are read. They are gathered by
// value, by a function that `store` calls too, for the forms in which a kernel lends a map; the whole boot promises what `boot` does, over
// the list of entries.
#![tactic(auto)]

ghost use Rattle.std.specs.Prelude.{ℕ, ◌<◌, ◌≡◌, List, length, slice_index_or};
ghost use Rattle.definition.specs.Board.{Fit};
ghost use Rattle.words.specs.Words.{Long};
ghost use Rattle.exam.specs.Promise.{state_with, world_of};
ghost use Rattle.boot.specs.Booting.{Boots, BootsOver};
ghost use Rattle.map.specs.Lending.{no_region, gathered};

use address::PhysAddr;
pub use boot::Gathered;
use definition::{Board, Counters, MemoryRegion, MemoryRegionKind};
use exam::Answer;

// Of `count` entries `entry` reads the one at a place, wherever it stands. Past the eighth and past the last nothing is read.
pub fn gather<F: Fn(usize) -> MemoryRegion>(count: usize, entry: F) -> Gathered
    requires { (i : ℕ) → i < 8 → i < count → F.pre entry i }
    ensures { (ms : List MemoryRegion) → length ms ≡ count
        → ((i : ℕ) (m : _) → i < 8 → i < count → F.post entry i m → m ≡ slice_index_or ms i no_region)
        → result ≡ gathered ms }
{
    let unused = MemoryRegion {
        start: PhysAddr(0),
        length: 0,
        kind: MemoryRegionKind::Reserved,
    };
    let mut map = [unused; 8];
    for i in 0..count.min(8) {
        map[i] = entry(i);
    }
    Gathered { map, count }
}

// init, frame.rs 707, over a lent list of region entries of any length. The memory's bytes stay. Nothing of the words is read.
pub fn boot_map(
    board: Board,
    counters: &mut Counters,
    words: &mut [u64],
    map: &[MemoryRegion],
    records: &mut [u8],
    memory: &[u8],
    queue: &[u64],
) -> Answer
    requires { Fit board × Long words.old }
    ensures { Boots board map.now
        (world_of (state_with counters.old words.old) records.old memory.now queue.now)
        (world_of (state_with counters.new words.new) records.new memory.now queue.now) result
        × BootsOver words.old words.new result }
{
    let g = gather(map.len(), |i| map[i]);
    boot::boot(board, counters, words, &g, records, memory, queue)
}
