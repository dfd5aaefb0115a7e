// What bench/ times of the calls: loops over a store of one region, exported on slices and numbers. Nothing else calls them. Each boots the
// store first, and stops at the first call that is refused, so that its answer says how many were accepted. What it leaves in the loans is
// what those calls leave (`Drives`).
#![tactic(auto)]

ghost use Rattle.std.specs.Prelude.{◌≡◌, length, replicate};
ghost use Rattle.definition.specs.Calls.{Alloc, Find, Zero, Fill, Copy};
ghost use Rattle.words.specs.Words.{board_in, Long, state_words};
ghost use Rattle.exam.specs.Promise.{state_with, world_of, Leaves};
ghost use Rattle.exam.specs.Lent.{world_lent};
ghost use Rattle.exam.specs.Making.{world};
ghost use Rattle.drivers.specs.Driving.{Drives, address_in, booted_world, grant_and_free, held, on_frame, plain, to_second, turn, turns};

use address::PhysAddr;
use boot::Gathered;
use definition::{Counters, FrameAllocFlags, MemoryRegion, MemoryRegionKind};
use exam::{Answer, Contents, Loans};

// The store of a map with one usable entry. Where the map is refused it has no region, and refuses all that follows.
fn booted(
    words: &mut [u64],
    records: &mut [u8],
    memory: &[u8],
    queue: &[u64],
    start: u64,
    bytes: usize,
) -> Counters
    requires { Long words.old }
    ensures { booted_world words.old records.old memory.now queue.now start bytes ≡ world
        result words.new records.new memory.now queue.now }
{
    let unused = MemoryRegion {
        start: PhysAddr::new(0),
        length: 0,
        kind: MemoryRegionKind::Reserved,
    };
    let mut map = Gathered {
        map: [unused; 8],
        count: 1,
    };
    map.map[0] = MemoryRegion {
        start: PhysAddr::new(start),
        length: bytes,
        kind: MemoryRegionKind::UsableRam,
    };
    let board = definition::standard();
    let mut counters = boot::started(0);
    let _ = boot::boot(board, &mut counters, words, &map, records, memory, queue);
    counters
}

// A frame of `size` bytes, with no flags.
fn granted(
    counters: &mut Counters,
    words: &mut [u64],
    records: &mut [u8],
    memory: &mut [u8],
    queue: &[u64],
    size: u64,
) -> Answer
    requires { Long words.old }
    ensures { turn (Alloc (plain size))
        (world counters.old words.old records.old memory.old queue.now)
        ≡ (record {
          world = world counters.new words.new records.new memory.new queue.now;
          answer = result;
        }) }
{
    let flags = FrameAllocFlags {
        zeroed: false,
        kernel: false,
        wait_ok: false,
    };
    door::alloc(counters, words, records, memory, queue, size, size, flags)
}

// A grant of 4 KiB, and the free of its frame; the answer is that of the first that is refused, else the free's.
fn granted_and_freed(
    counters: &mut Counters,
    words: &mut [u64],
    records: &mut [u8],
    memory: &mut [u8],
    queue: &[u64],
) -> Answer
    requires { Long words.old }
    ensures { grant_and_free (world counters.old words.old records.old memory.old queue.now)
        ≡ (record {
          world = world counters.new words.new records.new memory.new queue.now;
          answer = result;
        }) }
{
    let frame = granted(counters, words, records, memory, queue, 4096)?;
    let pa = PhysAddr::new(frame.address);
    door::free(counters, words, records, memory, queue, pa)
}

// The address of an answer, 0 of a refusal.
fn address_in(answer: Answer) -> u64
    ensures { result ≡ address_in answer }
{
    match answer {
        Ok(reply) => reply.address,
        Err(_) => 0,
    }
}

// Grants a frame of 4 KiB and frees it again, up to `times` times.
#[unsafe(no_mangle)]
pub extern "C" fn drivers_grants(
    records: &mut [u8],
    memory: &mut [u8],
    queue: &[u64],
    start: u64,
    bytes: usize,
    times: usize,
) -> usize
    ensures { Drives
        (turns grant_and_free times 0
        (booted_world (replicate state_words 0) records.old memory.old queue.now start bytes))
        records.new memory.new result }
{
    let mut words = [0u64; words::STATE_WORDS];
    let mut counters = booted(&mut words, records, memory, queue, start, bytes);
    for i in 0..times {
        if granted_and_freed(&mut counters, &mut words, records, memory, queue).is_err() {
            return i;
        }
    }
    times
}

// The finds of `drivers_finds`, on loans that are made once and not at each turn.
fn find_all(loans: &Loans, address: u64, times: usize) -> usize
    ensures { let l = loans.now in
        Drives (turns (turn (Find address)) times 0 (world_lent l)) l.records.now l.memory.now result }
{
    let pa = PhysAddr::new(address);
    for i in 0..times {
        if door::find(loans, pa).is_err() {
            return i;
        }
    }
    times
}

// Finds the page of an address, up to `times` times.
#[unsafe(no_mangle)]
pub extern "C" fn drivers_finds(
    records: &mut [u8],
    memory: &mut [u8],
    queue: &[u64],
    start: u64,
    bytes: usize,
    address: u64,
    times: usize,
) -> usize
    ensures { Drives
        (turns (turn (Find address)) times 0
        (booted_world (replicate state_words 0) records.old memory.old queue.now start bytes))
        records.new memory.new result }
{
    let mut words = [0u64; words::STATE_WORDS];
    let counters = booted(&mut words, records, memory, queue, start, bytes);
    let loans = Loans {
        counters,
        words: &words,
        records,
        memory,
        queue,
    };
    find_all(&loans, address, times)
}

// ---- calls on contents, each with the torn test before it, as the library makes them

#[tactic(auto, using(door::proofs::Testing::leaves_torn))]
fn zero(
    counters: Counters,
    words: &[u64],
    records: &mut [u8],
    memory: &mut [u8],
    queue: &[u64],
    pa: PhysAddr,
) -> Answer
    requires { Long words.now }
    ensures { Leaves (board_in words.now)
        (world counters words.now records.old memory.old queue.now)
        (Zero pa.0)
        (world counters words.now records.new memory.new queue.now) result }
{
    let loans = Loans {
        counters,
        words,
        records,
        memory,
        queue,
    };
    loans.torn_test()?;
    ranges::zero(
        &mut Contents {
            words,
            records,
            memory,
        },
        pa,
    )
}

#[tactic(auto, using(door::proofs::Testing::leaves_torn))]
fn fill(
    counters: Counters,
    words: &[u64],
    records: &mut [u8],
    memory: &mut [u8],
    queue: &[u64],
    pa: PhysAddr,
    offset: u64,
    len: u64,
    byte: u8,
) -> Answer
    requires { Long words.now }
    ensures { Leaves (board_in words.now)
        (world counters words.now records.old memory.old queue.now)
        (Fill pa.0 offset len byte)
        (world counters words.now records.new memory.new queue.now) result }
{
    let loans = Loans {
        counters,
        words,
        records,
        memory,
        queue,
    };
    loans.torn_test()?;
    let lent = &mut Contents {
        words,
        records,
        memory,
    };
    ranges::fill(lent, pa, offset, len, byte)
}

fn copy(
    counters: Counters,
    words: &[u64],
    records: &mut [u8],
    memory: &mut [u8],
    queue: &[u64],
    target: PhysAddr,
    target_offset: u64,
    source: PhysAddr,
    source_offset: u64,
    len: u64,
) -> Answer
    requires { Long words.now }
    ensures { Leaves (board_in words.now)
        (world counters words.now records.old memory.old queue.now)
        (Copy target.0 target_offset source.0 source_offset len)
        (world counters words.now records.new memory.new queue.now) result }
{
    let loans = Loans {
        counters,
        words,
        records,
        memory,
        queue,
    };
    loans.torn_test()?;
    let lent = &mut Contents {
        words,
        records,
        memory,
    };
    copies::copy(lent, target, target_offset, source, source_offset, len)
}

// ---- contents, turn after turn

// Zeroes a held frame of `size` bytes, up to `times` times.
#[unsafe(no_mangle)]
pub extern "C" fn drivers_zero(
    records: &mut [u8],
    memory: &mut [u8],
    queue: &[u64],
    start: u64,
    bytes: usize,
    size: u64,
    times: usize,
) -> usize
    ensures { Drives
        (on_frame Zero times
        (held (replicate state_words 0) records.old memory.old queue.now start bytes size))
        records.new memory.new result }
{
    let mut words = [0u64; words::STATE_WORDS];
    let mut counters = booted(&mut words, records, memory, queue, start, bytes);
    let frame = granted(&mut counters, &mut words, records, memory, queue, size);
    let pa = PhysAddr::new(address_in(frame));
    for i in 0..times {
        if zero(counters, &words, records, memory, queue, pa).is_err() {
            return i;
        }
    }
    times
}

// Fills all of a held frame of `size` bytes, up to `times` times.
#[unsafe(no_mangle)]
pub extern "C" fn drivers_fill(
    records: &mut [u8],
    memory: &mut [u8],
    queue: &[u64],
    start: u64,
    bytes: usize,
    size: u64,
    times: usize,
) -> usize
    ensures { Drives
        (on_frame (λ a. Fill a 0 size 85) times
        (held (replicate state_words 0) records.old memory.old queue.now start bytes size))
        records.new memory.new result }
{
    let mut words = [0u64; words::STATE_WORDS];
    let mut counters = booted(&mut words, records, memory, queue, start, bytes);
    let frame = granted(&mut counters, &mut words, records, memory, queue, size);
    let pa = PhysAddr::new(address_in(frame));
    for i in 0..times {
        if fill(counters, &words, records, memory, queue, pa, 0, size, 85).is_err() {
            return i;
        }
    }
    times
}

fn copy_all(
    counters: Counters,
    words: &[u64],
    records: &mut [u8],
    memory: &mut [u8],
    queue: &[u64],
    target: u64,
    source: u64,
    size: u64,
    times: usize,
) -> usize
    requires { Long words.now }
    ensures { Drives
        (turns (turn (Copy target 0 source 0 size)) times 0
        (world counters words.now records.old memory.old queue.now))
        records.new memory.new result }
{
    let to = PhysAddr::new(target);
    let from = PhysAddr::new(source);
    for i in 0..times {
        if copy(
            counters, words, records, memory, queue, to, 0, from, 0, size,
        )
        .is_err()
        {
            return i;
        }
    }
    times
}

// Copies all of one held frame of `size` bytes to another, up to `times` times.
#[unsafe(no_mangle)]
pub extern "C" fn drivers_copy(
    records: &mut [u8],
    memory: &mut [u8],
    queue: &[u64],
    start: u64,
    bytes: usize,
    size: u64,
    times: usize,
) -> usize
    ensures { Drives
        (to_second size times
        (held (replicate state_words 0) records.old memory.old queue.now start bytes size))
        records.new memory.new result }
{
    let mut words = [0u64; words::STATE_WORDS];
    let mut counters = booted(&mut words, records, memory, queue, start, bytes);
    let from = granted(&mut counters, &mut words, records, memory, queue, size);
    let to = granted(&mut counters, &mut words, records, memory, queue, size);
    copy_all(
        counters,
        &words,
        records,
        memory,
        queue,
        address_in(to),
        address_in(from),
        size,
        times,
    )
}
