// The library that a kernel links: one exported function for each call, on numbers and lent slices. The state is lent as words
// (words/specs/Words.antt); the answer's two numbers go to a lent slice, and the refusal's number, 0 where the call was accepted, is
// returned. Every promise is `served` or `booted` of service/specs/Serving.antt: what stands in the loans afterwards, to the last word and
// byte, and the number.
#![tactic(auto)]

ghost use Rattle.std.specs.Prelude.{◌≡◌, ◌%◌, ◌≤◌, ◌<◌};
ghost use Rattle.definition.specs.Script.{flags_of};
ghost use Rattle.definition.specs.Calls.{
  Alloc,
  Take,
  Split,
  Free,
  Zero,
  Dirty,
  Find,
  Queue,
  Fill,
  Write,
  Copy,
  Pcopy,
  Round,
  Lend,
  Back,
  Low,
};
ghost use Rattle.lines.specs.Reading.{call_of};
ghost use Rattle.service.specs.Serving.{code as code_def, loans_of, Serves, ServesWith, Places, PlacesWith, Reports, ReportsWith};
ghost use Rattle.store.specs.Exported.{Audits};
ghost use Rattle.store.specs.Lending.{
  region_of,
  Boots,
  ask_of,
  numbers_of,
  five_in,
  entry_in,
  entries_of,
  BootsFrom,
  CallsWith,
};

use address::PhysAddr;
use definition::{Counters, MemoryRegion, MemoryRegionKind, Refusal};
use lines::Ask;
use service::Told;

// The number that an exported function returns: 0, or the refusal's on 01's sheet.
fn code(told: Told) -> u32
    ensures { result ≡ code_def told }
{
    match told {
        Ok(()) => 0,
        Err(refusal) => refusal.number(),
    }
}

// ---- the audit

// 0 where the state and the loans are as the torn sheet says, else 6.
#[unsafe(no_mangle)]
pub extern "C" fn jilakkor_audit(
    words: &[u64],
    records: &[u8],
    memory_len: usize,
    queue_len: usize,
) -> u32
    ensures { Audits words.now records.now memory_len queue_len result }
{
    let is_sound = words::is_kept(words)
        && audit::audit(
            words::counters_in(words),
            words,
            records,
            memory_len,
            queue_len,
        );
    if is_sound { 0 } else { Refusal::Torn.number() }
}

// ---- the calls that answer by numbers

// try_alloc_frame, tracker.rs 55: a frame for a layout. `flags` adds 1 for ZEROED, 2 for KERNEL, 4 for WAIT_OK.
#[unsafe(no_mangle)]
pub extern "C" fn jilakkor_alloc(
    words: &mut [u64],
    records: &mut [u8],
    memory: &mut [u8],
    queue: &mut [u64],
    answer: &mut [u64],
    size: u64,
    align: u64,
    flags: u64,
) -> u32
    ensures { Serves (Alloc (record { size = size; align = align; flags = flags_of flags }))
        (loans_of words.old records.old memory.old queue.old answer.old)
        (loans_of words.new records.new memory.new queue.new answer.new) result }
{
    code(service::serve_alloc(words, records, memory, queue, answer, size, align, flags))
}

// try_alloc_split_frames, tracker.rs 98: the same, and a frame above the first level becomes 512 held ones.
#[unsafe(no_mangle)]
pub extern "C" fn jilakkor_take(
    words: &mut [u64],
    records: &mut [u8],
    memory: &mut [u8],
    queue: &mut [u64],
    answer: &mut [u64],
    size: u64,
    align: u64,
    flags: u64,
) -> u32
    ensures { Serves (Take (record { size = size; align = align; flags = flags_of flags }))
        (loans_of words.old records.old memory.old queue.old answer.old)
        (loans_of words.new records.new memory.new queue.new answer.new) result }
{
    code(service::serve(
        words,
        records,
        memory,
        queue,
        answer,
        Ask::Take,
        [size, align, flags, 0, 0],
    ))
}

// split_frame: a held frame becomes 512 held ones.
#[unsafe(no_mangle)]
pub extern "C" fn jilakkor_split(
    words: &mut [u64],
    records: &mut [u8],
    memory: &mut [u8],
    queue: &mut [u64],
    answer: &mut [u64],
    address: u64,
) -> u32
    ensures { Serves (Split address)
        (loans_of words.old records.old memory.old queue.old answer.old)
        (loans_of words.new records.new memory.new queue.new answer.new) result }
{
    code(service::serve(
        words,
        records,
        memory,
        queue,
        answer,
        Ask::Split,
        [address, 0, 0, 0, 0],
    ))
}

// free_frame, tracker.rs 41.
#[unsafe(no_mangle)]
pub extern "C" fn jilakkor_free(
    words: &mut [u64],
    records: &mut [u8],
    memory: &mut [u8],
    queue: &mut [u64],
    answer: &mut [u64],
    address: u64,
) -> u32
    ensures { Serves (Free address)
        (loans_of words.old records.old memory.old queue.old answer.old)
        (loans_of words.new records.new memory.new queue.new answer.new) result }
{
    code(service::serve_free(words, records, memory, queue, answer, PhysAddr(address)))
}

// Frame::zero, frame.rs 430.
#[unsafe(no_mangle)]
pub extern "C" fn jilakkor_zero(
    words: &mut [u64],
    records: &mut [u8],
    memory: &mut [u8],
    queue: &mut [u64],
    answer: &mut [u64],
    address: u64,
) -> u32
    ensures { Serves (Zero address)
        (loans_of words.old records.old memory.old queue.old answer.old)
        (loans_of words.new records.new memory.new queue.new answer.new) result }
{
    code(service::serve(
        words,
        records,
        memory,
        queue,
        answer,
        Ask::Zero,
        [address, 0, 0, 0, 0],
    ))
}

// Frame::set_not_zero, frame.rs 443.
#[unsafe(no_mangle)]
pub extern "C" fn jilakkor_dirty(
    words: &mut [u64],
    records: &mut [u8],
    memory: &mut [u8],
    queue: &mut [u64],
    answer: &mut [u64],
    address: u64,
) -> u32
    ensures { Serves (Dirty address)
        (loans_of words.old records.old memory.old queue.old answer.old)
        (loans_of words.new records.new memory.new queue.new answer.new) result }
{
    code(service::serve(
        words,
        records,
        memory,
        queue,
        answer,
        Ask::Dirty,
        [address, 0, 0, 0, 0],
    ))
}

// get_frame, frame.rs 743: the page of an address, and the bytes of the frame that starts there.
#[unsafe(no_mangle)]
pub extern "C" fn jilakkor_find(
    words: &mut [u64],
    records: &mut [u8],
    memory: &mut [u8],
    queue: &mut [u64],
    answer: &mut [u64],
    address: u64,
) -> u32
    ensures { Serves (Find address)
        (loans_of words.old records.old memory.old queue.old answer.old)
        (loans_of words.new records.new memory.new queue.new answer.new) result }
{
    code(service::serve_find(words, records, memory, queue, answer, PhysAddr(address)))
}

// A held frame that the next reclaim rounds may free.
#[unsafe(no_mangle)]
pub extern "C" fn jilakkor_queue(
    words: &mut [u64],
    records: &mut [u8],
    memory: &mut [u8],
    queue: &mut [u64],
    answer: &mut [u64],
    address: u64,
) -> u32
    ensures { Serves (Queue address)
        (loans_of words.old records.old memory.old queue.old answer.old)
        (loans_of words.new records.new memory.new queue.new answer.new) result }
{
    code(service::serve(
        words,
        records,
        memory,
        queue,
        answer,
        Ask::Queue,
        [address, 0, 0, 0, 0],
    ))
}

// `len` bytes of a frame, from `offset` on, become `byte` modulo 256.
#[unsafe(no_mangle)]
pub extern "C" fn jilakkor_fill(
    words: &mut [u64],
    records: &mut [u8],
    memory: &mut [u8],
    queue: &mut [u64],
    answer: &mut [u64],
    address: u64,
    offset: u64,
    len: u64,
    byte: u64,
) -> u32
    ensures { Serves (Fill address offset len (byte % 256))
        (loans_of words.old records.old memory.old queue.old answer.old)
        (loans_of words.new records.new memory.new queue.new answer.new) result }
{
    code(service::serve(
        words,
        records,
        memory,
        queue,
        answer,
        Ask::Fill,
        [address, offset, len, byte, 0],
    ))
}

// Frame::copy_contents_from, frame.rs 491.
#[unsafe(no_mangle)]
pub extern "C" fn jilakkor_copy(
    words: &mut [u64],
    records: &mut [u8],
    memory: &mut [u8],
    queue: &mut [u64],
    answer: &mut [u64],
    target: u64,
    target_offset: u64,
    source: u64,
    source_offset: u64,
    len: u64,
) -> u32
    ensures { Serves (Copy target target_offset source source_offset len)
        (loans_of words.old records.old memory.old queue.old answer.old)
        (loans_of words.new records.new memory.new queue.new answer.new) result }
{
    code(service::serve(
        words,
        records,
        memory,
        queue,
        answer,
        Ask::Copy,
        [target, target_offset, source, source_offset, len],
    ))
}

// Frame::copy_contents_from_physaddr, frame.rs 527.
#[unsafe(no_mangle)]
pub extern "C" fn jilakkor_pcopy(
    words: &mut [u64],
    records: &mut [u8],
    memory: &mut [u8],
    queue: &mut [u64],
    answer: &mut [u64],
    target: u64,
    target_offset: u64,
    source: u64,
    len: u64,
) -> u32
    ensures { Serves (Pcopy target target_offset source len)
        (loans_of words.old records.old memory.old queue.old answer.old)
        (loans_of words.new records.new memory.new queue.new answer.new) result }
{
    code(service::serve(
        words,
        records,
        memory,
        queue,
        answer,
        Ask::Pcopy,
        [target, target_offset, source, len, 0],
    ))
}

// reclaim_main, tracker.rs 419 to 457: one turn of its loop.
#[unsafe(no_mangle)]
pub extern "C" fn jilakkor_round(
    words: &mut [u64],
    records: &mut [u8],
    memory: &mut [u8],
    queue: &mut [u64],
    answer: &mut [u64],
) -> u32
    ensures { Serves (Round)
        (loans_of words.old records.old memory.old queue.old answer.old)
        (loans_of words.new records.new memory.new queue.new answer.new) result }
{
    code(service::serve(
        words,
        records,
        memory,
        queue,
        answer,
        Ask::Round,
        [0, 0, 0, 0, 0],
    ))
}

// track_frame_pager, tracker.rs 216.
#[unsafe(no_mangle)]
pub extern "C" fn jilakkor_lend(
    words: &mut [u64],
    records: &mut [u8],
    memory: &mut [u8],
    queue: &mut [u64],
    answer: &mut [u64],
    count: u64,
) -> u32
    ensures { Serves (Lend count)
        (loans_of words.old records.old memory.old queue.old answer.old)
        (loans_of words.new records.new memory.new queue.new answer.new) result }
{
    code(service::serve(
        words,
        records,
        memory,
        queue,
        answer,
        Ask::Lend,
        [count, 0, 0, 0, 0],
    ))
}

// untrack_frame_pager, tracker.rs 222.
#[unsafe(no_mangle)]
pub extern "C" fn jilakkor_back(
    words: &mut [u64],
    records: &mut [u8],
    memory: &mut [u8],
    queue: &mut [u64],
    answer: &mut [u64],
    count: u64,
) -> u32
    ensures { Serves (Back count)
        (loans_of words.old records.old memory.old queue.old answer.old)
        (loans_of words.new records.new memory.new queue.new answer.new) result }
{
    code(service::serve(
        words,
        records,
        memory,
        queue,
        answer,
        Ask::Back,
        [count, 0, 0, 0, 0],
    ))
}

// should_reclaim, tracker.rs 180: 1 where memory is low.
#[unsafe(no_mangle)]
pub extern "C" fn jilakkor_low(
    words: &mut [u64],
    records: &mut [u8],
    memory: &mut [u8],
    queue: &mut [u64],
    answer: &mut [u64],
) -> u32
    ensures { Serves (Low)
        (loans_of words.old records.old memory.old queue.old answer.old)
        (loans_of words.new records.new memory.new queue.new answer.new) result }
{
    code(service::serve(
        words,
        records,
        memory,
        queue,
        answer,
        Ask::Low,
        [0, 0, 0, 0, 0],
    ))
}

// ---- the calls over bytes

// The bytes of a frame, from `offset` on, become `bytes`.
#[unsafe(no_mangle)]
pub extern "C" fn jilakkor_write(
    words: &mut [u64],
    records: &mut [u8],
    memory: &mut [u8],
    queue: &mut [u64],
    answer: &mut [u64],
    address: u64,
    offset: u64,
    bytes: &[u8],
) -> u32
    ensures { Serves (Write address offset bytes.now)
        (loans_of words.old records.old memory.old queue.old answer.old)
        (loans_of words.new records.new memory.new queue.new answer.new) result }
{
    code(service::serve_write(
        words,
        records,
        memory,
        queue,
        answer,
        PhysAddr(address),
        offset,
        bytes,
    ))
}

// Where `len` bytes of a frame, from `offset` on, stand in the memory: the answer's first number is their place, the second their number.
#[unsafe(no_mangle)]
pub extern "C" fn jilakkor_read(
    words: &mut [u64],
    records: &mut [u8],
    memory: &mut [u8],
    queue: &mut [u64],
    answer: &mut [u64],
    address: u64,
    offset: u64,
    len: u64,
) -> u32
    ensures { Places address offset len
        (loans_of words.old records.old memory.old queue.old answer.old)
        (loans_of words.new records.new memory.new queue.new answer.new) result }
{
    code(service::serve_read(
        words,
        records,
        memory,
        queue,
        answer,
        PhysAddr(address),
        offset,
        len,
    ))
}

// print_tracker_stats, tracker.rs 235: the statistics stand in front of `text`, which has at least 368 bytes; the answer's second number is
// their length.
#[unsafe(no_mangle)]
pub extern "C" fn jilakkor_stats(
    words: &mut [u64],
    records: &mut [u8],
    memory: &mut [u8],
    queue: &mut [u64],
    answer: &mut [u64],
    text: &mut [u8],
) -> u32
    ensures { Reports
        (loans_of words.old records.old memory.old queue.old answer.old)
        text.old
        (loans_of words.new records.new memory.new queue.new answer.new) text.new
        result }
{
    code(service::serve_stats(words, records, memory, queue, answer, text))
}

// ---- the lent map

// An entry of the boot map as a kernel lends it: its kind is 0 for UsableRam; any other is no usable memory.
#[repr(C)]
#[derive(Clone, Copy)]
pub struct Entry {
    pub start: u64,
    pub length: u64,
    pub kind: u64,
}

impl From<Entry> for MemoryRegion {
    ghost from_gives = { λ entry region. region ≡ region_of entry };

    fn from(entry: Entry) -> MemoryRegion {
        MemoryRegion {
            start: PhysAddr(entry.start),
            length: entry.length as usize,
            kind: MemoryRegionKind::from(entry.kind),
        }
    }
}

// init, frame.rs 707, over a lent list of region entries of any length.
#[unsafe(no_mangle)]
pub extern "C" fn jilakkor_boot(
    map: &[Entry],
    words: &mut [u64],
    records: &mut [u8],
    memory: &[u8],
    queue: &[u64],
    answer: &mut [u64],
) -> u32
    ensures { Boots map.now
        (loans_of words.old records.old memory.now queue.now answer.old)
        (loans_of words.new records.new memory.now queue.now answer.new) result }
{
    let g = map::gather(map.len(), |i| MemoryRegion::from(map[i]));
    code(service::serve_boot(&g, words, records, memory, queue, answer))
}

// ---- the lent counters

// What a number asks for: a call that answers by numbers, or one of the four others.
#[derive(Clone, Copy)]
pub enum Asked {
    Known(Ask),
    Write,
    Read,
    Stats,
    Boot,
}

impl TryFrom<u64> for Asked {
    type Error = Refusal;

    ghost try_from_gives = { λ op asked. asked ≡ ask_of op };

    #[tactic(auto, unfolding(crate::specs::Lending::ask_of))]
    fn try_from(op: u64) -> Result<Asked, Refusal> {
        Ok(match op {
            0 => Asked::Known(Ask::Alloc),
            1 => Asked::Known(Ask::Take),
            2 => Asked::Known(Ask::Split),
            3 => Asked::Known(Ask::Free),
            4 => Asked::Known(Ask::Zero),
            5 => Asked::Known(Ask::Dirty),
            6 => Asked::Known(Ask::Find),
            7 => Asked::Known(Ask::Queue),
            8 => Asked::Known(Ask::Fill),
            9 => Asked::Known(Ask::Copy),
            10 => Asked::Known(Ask::Pcopy),
            11 => Asked::Known(Ask::Round),
            12 => Asked::Known(Ask::Lend),
            13 => Asked::Known(Ask::Back),
            14 => Asked::Known(Ask::Low),
            15 => Asked::Write,
            16 => Asked::Read,
            17 => Asked::Stats,
            18 => Asked::Boot,
            _ => return Err(Refusal::BadLine),
        })
    }
}

// Numbers that are not there count as 0.
fn number_at(numbers: &[u64], i: usize) -> u64
    ensures { result ≡ numbers_of numbers.now i }
{
    numbers.get(i).copied().unwrap_or(0)
}

// As many as any call takes.
fn five_in(numbers: &[u64]) -> [u64; 5]
    ensures { result ≡ five_in numbers.now }
{
    [
        number_at(numbers, 0),
        number_at(numbers, 1),
        number_at(numbers, 2),
        number_at(numbers, 3),
        number_at(numbers, 4),
    ]
}

fn entry_in(numbers: &[u64], i: usize) -> Entry
    requires { i < 8 }
    ensures { result ≡ entry_in numbers.now i }
{
    Entry {
        start: number_at(numbers, 3 * i),
        length: number_at(numbers, 3 * i + 1),
        kind: number_at(numbers, 3 * i + 2),
    }
}

// A boot over a map that is lent as numbers, three for each entry.
fn boot_numbers(
    counters: &mut Counters,
    words: &mut [u64],
    records: &mut [u8],
    memory: &[u8],
    queue: &[u64],
    answer: &mut [u64],
    n: &[u64],
) -> Told
    ensures { BootsFrom n.now counters.old
        (loans_of words.old records.old memory.now queue.now answer.old) counters.new
        (loans_of words.new records.new memory.now queue.now answer.new) (code_def result) }
{
    if n.len() % 3 != 0 {
        return Err(Refusal::BadLine);
    }
    let g = map::gather(n.len() / 3, |i| MemoryRegion::from(entry_in(n, i)));
    service::serve_boot_with(counters, &g, words, records, memory, queue, answer)
}

fn call(
    counters: &mut Counters,
    words: &mut [u64],
    records: &mut [u8],
    memory: &mut [u8],
    queue: &mut [u64],
    answer: &mut [u64],
    op: u64,
    n: &[u64],
    bytes: &mut [u8],
) -> Told
    ensures { CallsWith op n.now counters.old
        (loans_of words.old records.old memory.old queue.old answer.old)
        bytes.old
        counters.new
        (loans_of words.new records.new memory.new queue.new answer.new)
        bytes.new (code_def result) }
{
    let pa = PhysAddr(number_at(n, 0));
    let offset = number_at(n, 1);
    let len = number_at(n, 2);
    match Asked::try_from(op)? {
        Asked::Known(ask) => service::serve_with(
            counters,
            words,
            records,
            memory,
            queue,
            answer,
            ask,
            five_in(n),
        ),
        Asked::Write => service::serve_write_with(
            *counters, words, records, memory, queue, answer, pa, offset, bytes,
        ),
        Asked::Read => service::serve_read_with(
            *counters, words, records, memory, queue, answer, pa, offset, len,
        ),
        Asked::Stats => {
            service::serve_stats_with(*counters, words, records, memory, queue, answer, bytes)
        }
        Asked::Boot => boot_numbers(counters, words, records, memory, queue, answer, n),
    }
}

// Every call by its number, 0 for alloc to 14 for low, 15 write, 16 read, 17 stats and 18 boot, where MemoryTracker's nine counters are one
// lent record, which it updates: of the words it then neither reads nor writes those of the counters. `bytes` are what a write writes and
// where the statistics go.
#[unsafe(no_mangle)]
pub extern "C" fn jilakkor_call(
    counters: &mut Counters,
    words: &mut [u64],
    records: &mut [u8],
    memory: &mut [u8],
    queue: &mut [u64],
    answer: &mut [u64],
    op: u64,
    numbers: &[u64],
    bytes: &mut [u8],
) -> u32
    ensures { CallsWith op numbers.now counters.old
        (loans_of words.old records.old memory.old queue.old answer.old)
        bytes.old counters.new
        (loans_of words.new records.new memory.new queue.new answer.new)
        bytes.new result }
{
    code(call(
        counters, words, records, memory, queue, answer, op, numbers, bytes,
    ))
}
