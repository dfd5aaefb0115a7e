// Every call that answers by numbers, by its op and at most five numbers: one dispatch for all that read a call from elsewhere, a line of a
// script or words that a kernel lends. It asks for what the torn test gives and promises what the call promises.
#![tactic(auto)]

ghost use Rattle.std.specs.Prelude.{get_or};
ghost use Rattle.words.specs.Words.{board_in, Beside};
ghost use Rattle.exam.specs.Making.{Makes, Ready, world};
ghost use Rattle.lines.specs.Reading.{call_of};

use address::PhysAddr;
use allocator::Table;
use definition::{Counters, FrameAllocFlags};
use exam::{Answer, Contents};
use lines::Ask;

// A call on contents is lent these of `make`'s loans: an arm of the dispatch stays a line.
macro_rules! lend {
    ($words:ident, $records:ident, $memory:ident) => {
        &mut Contents {
            words: $words,
            records: $records,
            memory: $memory,
        }
    };
}

// The calls that answer by numbers, on loans that were tested, or that a call left. A fill takes its byte modulo 256.
#[tactic(auto, using(words::proofs::Words::beside_same))]
pub fn make(
    counters: &mut Counters,
    words: &mut [u64],
    records: &mut [u8],
    memory: &mut [u8],
    queue: &mut [u64],
    op: Ask,
    n: [u64; 5],
) -> Answer
    requires { Ready counters.old words.old records.old memory.old queue.old }
    ensures makes { Makes (board_in words.old) (call_of op (λ i. get_or n i 0))
        (world counters.old words.old records.old memory.old queue.old)
        (world counters.new words.new records.new memory.new queue.new) result }
    ensures beside { Beside words.old words.new }
{
    let pa = PhysAddr(n[0]);
    let from = PhysAddr(n[2]);
    match op {
        Ask::Alloc => {
            let flags = FrameAllocFlags::from(n[2]);
            grants::alloc(counters, words, records, memory, n[0], n[1], flags)
        }
        Ask::Take => {
            let flags = FrameAllocFlags::from(n[2]);
            grants::take(counters, words, records, memory, n[0], n[1], flags)
        }
        Ask::Split => frames::split(words, records, pa),
        Ask::Free => frames::free(counters, words, records, pa),
        Ask::Zero => ranges::zero(lend!(words, records, memory), pa),
        Ask::Dirty => ranges::dirty(words, records, pa),
        Ask::Find => frames::find(Table { words, records }, pa),
        Ask::Queue => reclaim::queue(words, records, queue, pa),
        Ask::Fill => {
            let byte = (n[3] % 256) as u8;
            ranges::fill(lend!(words, records, memory), pa, n[1], n[2], byte)
        }
        Ask::Copy => copies::copy(lend!(words, records, memory), pa, n[1], from, n[3], n[4]),
        Ask::Pcopy => copies::pcopy(lend!(words, records, memory), pa, n[1], from, n[3]),
        Ask::Round => Ok(reclaim::round(counters, words, records, queue)),
        Ask::Lend => Ok(counts::lend(counters, n[0] as usize)),
        Ask::Back => counts::back(counters, n[0] as usize),
        Ask::Low => Ok(counts::low(*counters, words)),
    }
}
