// Calls on one frame: lookup, split and free. Each is lent what it reads and writes, asks for a sane table, and promises definition's
// `step` of the store that the words and the records hold (exam/specs/Making.antt); the torn test comes before it.
#![tactic(auto)]

ghost use Rattle.definition.specs.Calls.{Find, Split, Free};
ghost use Rattle.definition.specs.World.{record_at};
ghost use Rattle.record.specs.Records.{pages_in};
ghost use Rattle.words.specs.Words.{board_in, rows_in, Beside};
ghost use Rattle.exam.specs.Promise.{state_with, HeldSeen};
ghost use Rattle.exam.specs.Making.{TableIn, Few, Reads, Marks, Turns};
ghost use Rattle.std.specs.Prelude.{◌<◌, ◌^◌};
ghost use Rattle.frames.specs.Freeing.{Released};

use address::PhysAddr;
use allocator::{Seen, Table};
use definition::{Counters, Refusal};
use exam::{Answer, Reply};

// ---- lookup

// get_frame: the page of an address, and the bytes of the frame that starts there.
pub fn find(table: Table, pa: PhysAddr) -> Answer
    ensures { Reads (Find pa.0) table.entry.words.now table.entry.records.now result }
{
    let seen = table.see(pa).ok_or(Refusal::Outside)?;
    let board = words::board_in(table.words);
    let page = board.page as u64;
    Ok(Reply {
        address: page * (pa.raw() / page),
        bytes: exam::frame_bytes(board, seen),
    })
}

// ---- split

// split_frame: a held frame becomes 512 held ones.
#[tactic(auto, using(exam::proofs::Making::looked_held))]
pub fn split(words: &[u64], records: &mut [u8], pa: PhysAddr) -> Answer
    requires { TableIn words.now records.old }
    ensures { Marks (Split pa.0) words.now records.old records.new result }
{
    let held = exam::look(Table { words, records }, pa, 0, 0)?;
    allocator::split_frame(words, records, held.spot);
    Ok(Reply {
        address: pa.raw(),
        bytes: exam::frame_bytes(words::board_in(words), held),
    })
}

// ---- free

// free_frame, but for its tests: the held frame that was seen goes back on its list, and its pages are idle.
#[tactic(auto, using(level::proofs::Sizes::size_most))]
pub fn release(counters: &mut Counters, words: &mut [u64], records: &mut [u8], seen: Seen)
    requires table_in { TableIn words.old records.old }
    requires held_seen { HeldSeen (board_in words.old) (record_at records.old) (rows_in words.old) seen × (counters.old.idle < 2 ^ 63) }
    ensures released { Released (board_in words.old)
        (record_at records.old) (state_with counters.old words.old) seen
        (record_at records.new) (pages_in records.new) (state_with counters.new words.new) }
    ensures beside { Beside words.old words.new }
{
    let pages = level::pages_at(record::level_of(seen.level));
    let kernel = record::is_kernel(seen.marks);
    allocator::free(words, records, seen.spot);
    *counters = tracker::count_free(*counters, pages, kernel);
}

// free_frame, tracker.rs 41.
#[tactic(auto, using(exam::proofs::Making::looked_held))]
pub fn free(counters: &mut Counters, words: &mut [u64], records: &mut [u8], pa: PhysAddr) -> Answer
    requires table_in { TableIn words.old records.old }
    requires few { Few counters.old }
    ensures turns { Turns (Free pa.0)
        counters.old words.old records.old
        counters.new words.new records.new result }
    ensures beside { Beside words.old words.new }
{
    let seen = exam::look(Table { words, records }, pa, 0, 0)?;
    let bytes = exam::frame_bytes(words::board_in(words), seen);
    release(counters, words, records, seen);
    Ok(Reply {
        address: pa.raw(),
        bytes,
    })
}
