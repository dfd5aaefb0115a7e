// The calls over lent words, for a kernel to make: the words are tested for their number and version, and the call is made on them where
// they stand. The answer's two numbers go to a lent slice, and what is refused is returned. Every promise is `served` or `booted` of
// specs/Serving.antt. What ends in `_with` takes the counters apart from the words; beside it stands the same with those of the words,
// which are read out and written back.
#![tactic(auto)]

ghost use Rattle.std.specs.Prelude.{[], ◌≡◌, ◌≤◌, length, get_or};
ghost use Rattle.definition.specs.Calls.{Alloc, Free, Find, Write};
ghost use Rattle.definition.specs.Script.{flags_of};
ghost use Rattle.exam.specs.Promise.{unit_of};
ghost use Rattle.lines.specs.Reading.{call_of};
ghost use Rattle.service.specs.Serving.{
  tells,
  code,
  is_lent,
  is_roomy,
  Serves,
  ServesWith,
  Reports,
  ReportsWith,
  Places,
  PlacesWith,
  loans_of,
  ShortBoots,
  Boots,
  BootsWith,
};

use address::PhysAddr;
use boot::Gathered;
use definition::{Counters, FrameAllocFlags, Refusal};
use exam::{Answer, Loans, Reply};
use lines::Ask;

// What a call that tells its answer in a lent slice returns.
pub type Told = Result<(), Refusal>;

// ---- the words

// Whether the words are a state's, and the answer has room.
fn is_lent(words: &[u64], answer: &[u64]) -> bool
    ensures { result ≡ is_lent
        (record { words = words.now; records = []; memory = []; queue = []; answer = answer.now }) }
{
    2 <= answer.len() && words::is_kept(words)
}

// ---- the answer

// The two numbers of an accepted call.
fn tell(answer: &mut [u64], y: Answer) -> Told
    requires { 2 ≤ length answer.old }
    ensures { (result ≡ unit_of y) × (answer.new ≡ tells y answer.old) }
{
    let reply = y?;
    answer[0] = reply.address;
    answer[1] = reply.bytes;
    Ok(())
}

// ---- the calls

// A call that answers by numbers, where the counters are a record of their own.
pub fn serve_with(
    counters: &mut Counters,
    words: &mut [u64],
    records: &mut [u8],
    memory: &mut [u8],
    queue: &mut [u64],
    answer: &mut [u64],
    op: Ask,
    n: [u64; 5],
) -> Told
    ensures { ServesWith (call_of op (λ i. get_or n i 0)) counters.old
        (loans_of words.old records.old memory.old queue.old answer.old) counters.new
        (loans_of words.new records.new memory.new queue.new answer.new) (code result) }
{
    if !is_lent(words, answer) {
        return Err(Refusal::Torn);
    }
    let y = door::ask(counters, words, records, memory, queue, op, n);
    tell(answer, y)
}

// The same with the counters of the words.
pub fn serve(
    words: &mut [u64],
    records: &mut [u8],
    memory: &mut [u8],
    queue: &mut [u64],
    answer: &mut [u64],
    op: Ask,
    n: [u64; 5],
) -> Told
    ensures { Serves (call_of op (λ i. get_or n i 0))
        (loans_of words.old records.old memory.old queue.old answer.old)
        (loans_of words.new records.new memory.new queue.new answer.new) (code result) }
{
    if !is_lent(words, answer) {
        return Err(Refusal::Torn);
    }
    let mut counters = words::counters_in(words);
    let told = serve_with(&mut counters, words, records, memory, queue, answer, op, n);
    words::put_counters(words, counters);
    told
}

// ---- the three calls that a kernel makes most, straight to their crates

// get_frame, which leaves all loans but the answer as they are.
pub fn serve_find(
    words: &[u64],
    records: &[u8],
    memory: &[u8],
    queue: &[u64],
    answer: &mut [u64],
    pa: PhysAddr,
) -> Told
    ensures { Serves (Find pa.0)
        (loans_of words.now records.now memory.now queue.now answer.old)
        (loans_of words.now records.now memory.now queue.now answer.new) (code result) }
{
    if !is_lent(words, answer) {
        return Err(Refusal::Torn);
    }
    let counters = words::counters_in(words);
    let loans = Loans {
        counters,
        words,
        records,
        memory,
        queue,
    };
    let y = door::find(&loans, pa);
    tell(answer, y)
}

// free_frame.
pub fn serve_free(
    words: &mut [u64],
    records: &mut [u8],
    memory: &[u8],
    queue: &[u64],
    answer: &mut [u64],
    pa: PhysAddr,
) -> Told
    ensures { Serves (Free pa.0)
        (loans_of words.old records.old memory.now queue.now answer.old)
        (loans_of words.new records.new memory.now queue.now answer.new) (code result) }
{
    if !is_lent(words, answer) {
        return Err(Refusal::Torn);
    }
    let mut counters = words::counters_in(words);
    let y = door::free(&mut counters, words, records, memory, queue, pa);
    words::put_counters(words, counters);
    tell(answer, y)
}

// try_alloc_frame. `flags` adds 1 for ZEROED, 2 for KERNEL, 4 for WAIT_OK.
pub fn serve_alloc(
    words: &mut [u64],
    records: &mut [u8],
    memory: &mut [u8],
    queue: &[u64],
    answer: &mut [u64],
    size: u64,
    align: u64,
    flags: u64,
) -> Told
    ensures { Serves (Alloc (record { size = size; align = align; flags = flags_of flags }))
        (loans_of words.old records.old memory.old queue.now answer.old)
        (loans_of words.new records.new memory.new queue.now answer.new) (code result) }
{
    if !is_lent(words, answer) {
        return Err(Refusal::Torn);
    }
    let mut counters = words::counters_in(words);
    let flags = FrameAllocFlags::from(flags);
    let y = door::alloc(
        &mut counters,
        words,
        records,
        memory,
        queue,
        size,
        align,
        flags,
    );
    words::put_counters(words, counters);
    tell(answer, y)
}

// ---- the calls that take or give bytes

// A write leaves the state as it is, so that the words are only read.
pub fn serve_write_with(
    counters: Counters,
    words: &[u64],
    records: &mut [u8],
    memory: &mut [u8],
    queue: &[u64],
    answer: &mut [u64],
    pa: PhysAddr,
    offset: u64,
    bytes: &[u8],
) -> Told
    ensures { ServesWith (Write pa.0 offset bytes.now) counters
        (loans_of words.now records.old memory.old queue.now answer.old) counters
        (loans_of words.now records.new memory.new queue.now answer.new) (code result) }
{
    if !is_lent(words, answer) {
        return Err(Refusal::Torn);
    }
    let y = door::write(counters, words, records, memory, queue, pa, offset, bytes);
    tell(answer, y)
}

pub fn serve_write(
    words: &[u64],
    records: &mut [u8],
    memory: &mut [u8],
    queue: &[u64],
    answer: &mut [u64],
    pa: PhysAddr,
    offset: u64,
    bytes: &[u8],
) -> Told
    ensures { Serves (Write pa.0 offset bytes.now)
        (loans_of words.now records.old memory.old queue.now answer.old)
        (loans_of words.now records.new memory.new queue.now answer.new) (code result) }
{
    if !is_lent(words, answer) {
        return Err(Refusal::Torn);
    }
    let counters = words::counters_in(words);
    serve_write_with(
        counters, words, records, memory, queue, answer, pa, offset, bytes,
    )
}

// Where the bytes that are read stand in the memory, and how many they are.
pub fn serve_read_with(
    counters: Counters,
    words: &[u64],
    records: &[u8],
    memory: &[u8],
    queue: &[u64],
    answer: &mut [u64],
    pa: PhysAddr,
    offset: u64,
    len: u64,
) -> Told
    ensures { PlacesWith pa.0 offset len counters
        (loans_of words.now records.now memory.now queue.now answer.old)
        (loans_of words.now records.now memory.now queue.now answer.new) (code result) }
{
    if !is_lent(words, answer) {
        return Err(Refusal::Torn);
    }
    let loans = Loans {
        counters,
        words,
        records,
        memory,
        queue,
    };
    let at = door::read_place(&loans, pa, offset, len)?;
    tell(
        answer,
        Ok(Reply {
            address: at as u64,
            bytes: len,
        }),
    )
}

pub fn serve_read(
    words: &[u64],
    records: &[u8],
    memory: &[u8],
    queue: &[u64],
    answer: &mut [u64],
    pa: PhysAddr,
    offset: u64,
    len: u64,
) -> Told
    ensures { Places pa.0 offset len
        (loans_of words.now records.now memory.now queue.now answer.old)
        (loans_of words.now records.now memory.now queue.now answer.new) (code result) }
{
    if !is_lent(words, answer) {
        return Err(Refusal::Torn);
    }
    let counters = words::counters_in(words);
    serve_read_with(
        counters, words, records, memory, queue, answer, pa, offset, len,
    )
}

// The statistics, at most 368 bytes, in front of `text`.
pub fn serve_stats_with(
    counters: Counters,
    words: &[u64],
    records: &[u8],
    memory: &[u8],
    queue: &[u64],
    answer: &mut [u64],
    text: &mut [u8],
) -> Told
    ensures { ReportsWith counters
        (loans_of words.now records.now memory.now queue.now answer.old)
        text.old counters
        (loans_of words.now records.now memory.now queue.now answer.new)
        text.new (code result) }
{
    if text.len() < 368 || !is_lent(words, answer) {
        return Err(Refusal::Torn);
    }
    let loans = Loans {
        counters,
        words,
        records,
        memory,
        queue,
    };
    let report = door::stats(&loans)?;
    text::put_text(text, 0, &report.text[..report.len]);
    tell(
        answer,
        Ok(Reply {
            address: 0,
            bytes: report.len as u64,
        }),
    )
}

pub fn serve_stats(
    words: &[u64],
    records: &[u8],
    memory: &[u8],
    queue: &[u64],
    answer: &mut [u64],
    text: &mut [u8],
) -> Told
    ensures { Reports
        (loans_of words.now records.now memory.now queue.now answer.old)
        text.old
        (loans_of words.now records.now memory.now queue.now answer.new)
        text.new (code result) }
{
    if !is_lent(words, answer) {
        return Err(Refusal::Torn);
    }
    let counters = words::counters_in(words);
    serve_stats_with(counters, words, records, memory, queue, answer, text)
}

// ---- the boot

fn is_roomy(words: &[u64], answer: &[u64]) -> bool
    ensures { result ≡ is_roomy
        (record { words = words.now; records = []; memory = []; queue = []; answer = answer.now }) }
{
    words::STATE_WORDS <= words.len() && 2 <= answer.len()
}

// Refusals 1 to 5 where the words or the answer are too short.
fn short_boot(map: &Gathered, records: usize, memory: usize) -> Refusal
    ensures { ShortBoots map.now.map map.now.count records memory result }
{
    match boot::admit_map(definition::standard(), map, records, memory) {
        Ok(_) => Refusal::ShortLoan,
        Err(refusal) => refusal,
    }
}

// A boot reads nothing of the words and of the counters.
pub fn serve_boot_with(
    counters: &mut Counters,
    map: &Gathered,
    words: &mut [u64],
    records: &mut [u8],
    memory: &[u8],
    queue: &[u64],
    answer: &mut [u64],
) -> Told
    ensures { BootsWith map.now.map map.now.count counters.old
        (loans_of words.old records.old memory.now queue.now answer.old) counters.new
        (loans_of words.new records.new memory.now queue.now answer.new) (code result) }
{
    if !is_roomy(words, answer) {
        return Err(short_boot(map, records.len(), memory.len()));
    }
    let board = definition::standard();
    let y = boot::boot(board, counters, words, map, records, memory, queue);
    tell(answer, y)
}

pub fn serve_boot(
    map: &Gathered,
    words: &mut [u64],
    records: &mut [u8],
    memory: &[u8],
    queue: &[u64],
    answer: &mut [u64],
) -> Told
    ensures { Boots map.now.map map.now.count
        (loans_of words.old records.old memory.now queue.now answer.old)
        (loans_of words.new records.new memory.now queue.now answer.new) (code result) }
{
    if words.len() < words::STATE_WORDS {
        return Err(short_boot(map, records.len(), memory.len()));
    }
    let mut counters = words::counters_in(words);
    let told = serve_boot_with(&mut counters, map, words, records, memory, queue, answer);
    words::put_counters(words, counters);
    told
}
