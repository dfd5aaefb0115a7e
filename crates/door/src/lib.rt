// The door to the calls: the torn test of all that is lent (refusal 6), made once, and then the call. What passes it is definition's `call`
// of the loans, on any words, records, memory and queue whatever. `ask` makes any call that answers by numbers; the calls that a kernel
// makes most, and those that take or give bytes, go straight.
#![tactic(auto)]

ghost use Rattle.std.specs.Prelude.{get_or};
ghost use Rattle.definition.specs.Calls.{Alloc, Free, Find, Write, Read};
ghost use Rattle.words.specs.Words.{board_in, Long, Beside};
ghost use Rattle.exam.specs.Promise.{Leaves};
ghost use Rattle.exam.specs.Making.{world};
ghost use Rattle.exam.specs.Lent.{world_lent};
ghost use Rattle.lines.specs.Reading.{call_of};
ghost use Rattle.door.specs.Tested.{Finds, Lends, LendsIf, Reports, lent};

use address::PhysAddr;
use allocator::Table;
use counts::Report;
use definition::{Counters, FrameAllocFlags, Refusal};
use exam::{Answer, Contents, Loans};
use lines::Ask;

// ---- any call that answers by numbers

#[tactic(auto, using(crate::proofs::Testing::leaves_torn))]
pub fn ask(
    counters: &mut Counters,
    words: &mut [u64],
    records: &mut [u8],
    memory: &mut [u8],
    queue: &mut [u64],
    op: Ask,
    n: [u64; 5],
) -> Answer
    requires { Long words.old }
    ensures leaves { Leaves (board_in words.old)
        (world counters.old words.old records.old memory.old queue.old)
        (call_of op (λ i. get_or n i 0))
        (world counters.new words.new records.new memory.new queue.new) result }
    ensures beside { Beside words.old words.new }
{
    let loans = Loans {
        counters: *counters,
        words,
        records,
        memory,
        queue,
    };
    loans.torn_test()?;
    calls::make(counters, words, records, memory, queue, op, n)
}

// ---- the three calls that a kernel makes most

#[tactic(auto, using(crate::proofs::Testing::leaves_torn))]
pub fn find(loans: &Loans, pa: PhysAddr) -> Answer
    ensures { Leaves (board_in loans.now.words.now) (world_lent loans.now) (Find pa.0) (world_lent loans.now) result }
{
    loans.torn_test()?;
    let table = Table {
        words: loans.words,
        records: loans.records,
    };
    frames::find(table, pa)
}

#[tactic(auto, using(crate::proofs::Testing::leaves_torn))]
pub fn free(
    counters: &mut Counters,
    words: &mut [u64],
    records: &mut [u8],
    memory: &[u8],
    queue: &[u64],
    pa: PhysAddr,
) -> Answer
    requires { Long words.old }
    ensures leaves { Leaves (board_in words.old)
        (world counters.old words.old records.old memory.now queue.now) (Free pa.0)
        (world counters.new words.new records.new memory.now queue.now) result }
    ensures beside { Beside words.old words.new }
{
    let loans = Loans {
        counters: *counters,
        words,
        records,
        memory,
        queue,
    };
    loans.torn_test()?;
    frames::free(counters, words, records, pa)
}

#[tactic(auto, using(crate::proofs::Testing::leaves_torn))]
pub fn alloc(
    counters: &mut Counters,
    words: &mut [u64],
    records: &mut [u8],
    memory: &mut [u8],
    queue: &[u64],
    size: u64,
    align: u64,
    flags: FrameAllocFlags,
) -> Answer
    requires { Long words.old }
    ensures leaves { Leaves (board_in words.old)
        (world counters.old words.old records.old memory.old queue.now)
        (Alloc (record { size = size; align = align; flags = flags }))
        (world counters.new words.new records.new memory.new queue.now) result }
    ensures beside { Beside words.old words.new }
{
    let loans = Loans {
        counters: *counters,
        words,
        records,
        memory,
        queue,
    };
    loans.torn_test()?;
    grants::alloc(counters, words, records, memory, size, align, flags)
}

// ---- the calls that take or give bytes

#[tactic(auto, using(crate::proofs::Testing::leaves_torn))]
pub fn write(
    counters: Counters,
    words: &[u64],
    records: &mut [u8],
    memory: &mut [u8],
    queue: &[u64],
    pa: PhysAddr,
    offset: u64,
    bytes: &[u8],
) -> Answer
    requires { Long words.now }
    ensures { Leaves (board_in words.now)
        (world counters words.now records.old memory.old queue.now)
        (Write pa.0 offset bytes.now)
        (world counters words.now records.new memory.new queue.now) result }
{
    let loans = Loans {
        counters,
        words,
        records,
        memory,
        queue,
    };
    loans.torn_test()?;
    ranges::write(
        &mut Contents {
            words,
            records,
            memory,
        },
        pa,
        offset,
        bytes,
    )
}

// Where the bytes that are read stand in the memory.
#[tactic(auto, using(crate::proofs::Reporting::finds_torn))]
pub fn read_place(loans: &Loans, pa: PhysAddr, offset: u64, len: u64) -> Result<usize, Refusal>
    ensures { Finds (board_in loans.now.words.now) (world_lent loans.now) (Read pa.0 offset len) len result }
{
    loans.torn_test()?;
    let table = Table {
        words: loans.words,
        records: loans.records,
    };
    copies::read_place(table, pa, offset, len)
}

// 01, "Added `read`": the part of the lent memory that starts at the frame's offset.
#[tactic(auto, using(crate::proofs::Reporting::lends_part))]
pub fn try_read<'m>(
    loans: &Loans<'_, 'm>,
    pa: PhysAddr,
    offset: u64,
    len: u64,
) -> Result<&'m [u8], Refusal>
    ensures { LendsIf (board_in loans.now.words.now) (world_lent loans.now) (Read pa.0 offset len) (lent result) }
{
    let at = read_place(loans, pa, offset, len)?;
    Ok(contents::part(loans.memory, at, len as usize))
}

// The same for callers that need not know the refusal: the empty part where there is one.
#[tactic(auto, using(crate::proofs::Reporting::lends_all, crate::proofs::Reporting::lends_none))]
pub fn read<'m>(loans: &Loans<'_, 'm>, pa: PhysAddr, offset: u64, len: u64) -> &'m [u8]
    ensures { Lends (board_in loans.now.words.now) (world_lent loans.now) (Read pa.0 offset len) result.now }
{
    match try_read(loans, pa, offset, len) {
        Ok(part) => part,
        Err(_) => contents::part(loans.memory, 0, 0),
    }
}

// The statistics.
pub fn stats(loans: &Loans) -> Result<Report, Refusal>
    ensures { Reports (board_in loans.now.words.now) (world_lent loans.now) result }
{
    loans.torn_test()?;
    Ok(counts::stats(loans.counters))
}
