// The run of a script: each line is read, done and answered, and the answers follow one another (01, "The script program"). `jilakkor_run`
// is exported for C and Rust by script_c, and the program `jilakkor` calls it.
#![tactic(auto)]

ghost use Rattle.std.specs.Prelude.{◌≡◌, ◌+◌, ◌≤◌, ◌<◌, ◌^◌, length, get_or};
ghost use Rattle.definition.specs.Calls.{Stats};
ghost use Rattle.definition.specs.Script.{AddRegion, BootNow, Ask as Asks, room};
ghost use Rattle.words.specs.Words.{Long};
ghost use Rattle.text.specs.Writing.{Wrote};
ghost use Rattle.lines.specs.Reading.{ask_name, name_of, call_of};
ghost use Rattle.script.specs.Running.{
  program_board,
  Bytes,
  Names,
  Fresh,
  Bounded,
  Bad,
  Enters,
  entry_of,
  Does,
  Sure,
  Turns,
  line_by,
  RanAll,
  Ran,
};

use address::PhysAddr;
use boot::Gathered;
use definition::{Counters, MemoryRegion, MemoryRegionKind, Refusal};
use exam::Answer;
use lines::{Ask, Op};

// ---- what is printed

#[tactic(auto, unfolding(definition::specs::Text::bytes_of))]
fn ask_name(op: Ask) -> &'static [u8]
    ensures { Names (ask_name op) result.now }
{
    match op {
        Ask::Alloc => b"alloc",
        Ask::Take => b"take",
        Ask::Split => b"split",
        Ask::Free => b"free",
        Ask::Zero => b"zero",
        Ask::Dirty => b"dirty",
        Ask::Find => b"find",
        Ask::Queue => b"queue",
        Ask::Fill => b"fill",
        Ask::Copy => b"copy",
        Ask::Pcopy => b"pcopy",
        Ask::Round => b"round",
        Ask::Lend => b"lend",
        Ask::Back => b"back",
        Ask::Low => b"low",
    }
}

#[tactic(auto, unfolding(definition::specs::Text::bytes_of))]
fn op_name(op: Op) -> &'static [u8]
    ensures { Names (name_of op) result.now }
{
    match op {
        Op::Bad => b"bad",
        Op::Region => b"region",
        Op::Boot => b"boot",
        Op::Stats => b"stats",
        Op::Call(a) => ask_name(a),
    }
}

fn put_op(out: &mut [u8], at: usize, op: Op) -> usize
    requires { at + 6 ≤ length out.old }
    ensures wrote { Wrote out.old at (name_of op) out.new result }
    ensures upper_bound { result ≤ at + 6 }
{
    text::put_text(out, at, op_name(op))
}

// "op, 0, address, bytes", or the refusal's number and two zeros: a name of at most 6 bytes, three numbers of at most 20 digits, and four
// marks.
fn put_line(out: &mut [u8], at: usize, op: Op, y: Answer) -> usize
    requires { at + 70 ≤ length out.old }
    ensures wrote { Wrote out.old at (line_by (name_of op) y) out.new result }
    ensures upper_bound { result ≤ at + 70 }
{
    let (number, address, bytes) = match y {
        Ok(reply) => (0, reply.address, reply.bytes),
        Err(refusal) => (refusal.number() as u64, 0, 0),
    };
    let next = put_op(out, at, op);
    let next = text::put_named(out, next, b",", number);
    let next = text::put_named(out, next, b",", address);
    let next = text::put_named(out, next, b",", bytes);
    text::put_text(out, next, b"\n")
}

// ---- what is kept

// What is kept from line to line beside the loans and the words: what was read of the map, whether a boot was accepted, and the store's
// counters.
#[derive(Clone, Copy)]
pub struct Running {
    pub gathered: Gathered,
    pub booted: bool,
    pub counters: Counters,
}

// A run between two lines: what it keeps, its words and loans, and the answer with the place behind what was printed. What is kept is lent
// as well: by value, a call that is given the counters could reach every other field, and a line took a tenth longer.
#[derive(Drop)]
pub struct Run<'a> {
    pub running: &'a mut Running,
    pub words: &'a mut [u64],
    pub records: &'a mut [u8],
    pub memory: &'a mut [u8],
    pub queue: &'a mut [u64],
    pub answer: &'a mut [u8],
    pub at: usize,
    ghost long: { Long words.now },
}

// No entry yet.
fn no_map() -> [MemoryRegion; 8] {
    let unused = MemoryRegion {
        start: PhysAddr(0),
        length: 0,
        kind: MemoryRegionKind::Reserved,
    };
    [unused; 8]
}

// The first eight entries of the map, with one more read; past the eighth there is no place for it.
fn enter(map: &mut [MemoryRegion; 8], count: usize, entry: MemoryRegion)
    ensures { Enters map.old count entry map.new }
{
    if count < 8 {
        map[count] = entry;
    }
}

// Nothing is done: a proof knows of a slice that its bytes are below 256, but not of one that is lent by a field.
fn are_bytes(records: &[u8])
    ensures { Bytes records.now }
{}

// ---- the lines

impl<'a> Run<'a> {
    ghost use Rattle.script.specs.Run.{Same, running_of};

    // A line that can't be read, or that may not come now: `bad,17,0,0`.
    fn bad(&mut self)
        requires { self.old.at + 512 ≤ length self.old.answer.now }
        ensures same { Same self.old self.new }
        ensures bad { Bad (running_of self.old) (running_of self.new) }
        ensures bounded { Bounded (running_of self.old) (running_of self.new) }
    {
        self.at = put_line(self.answer, self.at, Op::Bad, Err(Refusal::BadLine));
    }

    // An entry more of the map, which prints nothing.
    fn region(&mut self, n: [u64; 5])
        requires { (self.old.at + 512 ≤ length self.old.answer.now) × (self.old.running.now.gathered.count + 1 < 2 ^ 64) }
        ensures same { Same self.old self.new }
        ensures does { Does program_board (AddRegion (entry_of (λ i. get_or n i 0))) (name_of (Op.Region))
            (running_of self.old) (running_of self.new) }
        ensures bounded { Bounded (running_of self.old) (running_of self.new) }
    {
        if self.running.booted {
            return self.bad();
        }
        let entry = MemoryRegion {
            start: PhysAddr(n[0]),
            length: n[1] as usize,
            kind: MemoryRegionKind::from(n[2]),
        };
        let gathered = &mut self.running.gathered;
        enter(&mut gathered.map, gathered.count, entry);
        gathered.count += 1;
    }

    fn boot_now(&mut self)
        requires { self.old.at + 512 ≤ length self.old.answer.now }
        ensures same { Same self.old self.new }
        ensures does { Does program_board BootNow (name_of (Op.Boot)) (running_of self.old) (running_of self.new) }
        ensures bounded { Bounded (running_of self.old) (running_of self.new) }
    {
        if self.running.booted {
            return self.bad();
        }
        let board = definition::standard();
        let running = &mut *self.running;
        let memory = &mut *self.memory;
        let queue = &mut *self.queue;
        let y = boot::boot(
            board,
            &mut running.counters,
            self.words,
            &running.gathered,
            self.records,
            memory,
            queue,
        );
        running.booted = y.is_ok();
        self.at = put_line(self.answer, self.at, Op::Boot, y);
    }

    // The statistics answer by a text, of at most 368 bytes.
    fn stats_now(&mut self)
        requires sure { Sure program_board (running_of self.old) }
        requires at_in_bounds { self.old.at + 512 ≤ length self.old.answer.now }
        ensures same { Same self.old self.new }
        ensures does { Does program_board (Asks Stats) (name_of (Op.Stats)) (running_of self.old) (running_of self.new) }
        ensures bounded { Bounded (running_of self.old) (running_of self.new) }
    {
        if !self.running.booted {
            return self.bad();
        }
        let records = &mut *self.records;
        are_bytes(records);
        let report = counts::stats(self.running.counters);
        self.at = text::put_text(self.answer, self.at, &report.text[..report.len]);
    }

    // A call tests nothing of the loans: they are the run's own, and are sound from the accepted boot on.
    fn call_now(&mut self, op: Ask, n: [u64; 5])
        requires sure { Sure program_board (running_of self.old) }
        requires at_in_bounds { self.old.at + 512 ≤ length self.old.answer.now }
        ensures same { Same self.old self.new }
        ensures does { Does program_board (Asks (call_of op (λ i. get_or n i 0))) (ask_name op)
            (running_of self.old) (running_of self.new) }
        ensures bounded { Bounded (running_of self.old) (running_of self.new) }
    {
        if !self.running.booted {
            return self.bad();
        }
        let records = &mut *self.records;
        are_bytes(records);
        let y = calls::make(
            &mut self.running.counters,
            self.words,
            records,
            self.memory,
            self.queue,
            op,
            n,
        );
        self.at = put_line(self.answer, self.at, Op::Call(op), y);
    }

    // One line: read, done and answered.
    fn take_turn(&mut self, line: &[u8])
        requires sure { Sure program_board (running_of self.old) }
        requires at_in_bounds { (self.old.at + 512 ≤ length self.old.answer.now) × (self.old.running.now.gathered.count + 1 < 2 ^ 64) }
        ensures same { Same self.old self.new }
        ensures turns { Turns program_board (running_of self.old) line.now (running_of self.new) }
        ensures bounded { Bounded (running_of self.old) (running_of self.new) }
    {
        let read = lines::read_line(line);
        let n = read.numbers;
        match read.op {
            Op::Bad => self.bad(),
            Op::Region => self.region(n),
            Op::Boot => self.boot_now(),
            Op::Stats => self.stats_now(),
            Op::Call(a) => self.call_now(a, n),
        }
    }

    // The lines, one after the other, behind the header.
    fn run_all(&mut self, script: &[u8])
        requires fresh { Fresh (running_of self.old) }
        requires script_in_bounds { room script.now ≤ length self.old.answer.now }
        ensures same { Same self.old self.new }
        ensures ran_all { RanAll program_board script.now (running_of self.old) (running_of self.new) }
    {
        self.at = text::put_text(self.answer, 0, b"op,refusal,address,bytes\n");
        // Not a `for`: a line goes on by its own length.
        let mut at: usize = 0;
        while at < script.len() {
            let cursor = lines::next_line(script, at);
            self.take_turn(&script[at..cursor.end]);
            at = cursor.next;
        }
    }
}

// The whole script. Returns the bytes written; 0 with nothing written and nothing run where the answer slice is under 512 bytes for each
// line plus 512.
pub fn jilakkor_run(
    script: &[u8],
    records: &mut [u8],
    memory: &mut [u8],
    queue: &mut [u64],
    answer: &mut [u8],
) -> usize
    ensures { Ran program_board script.now
        (record { records = records.old; memory = memory.old; queue = queue.old }) answer.old
        (record { records = records.new; memory = memory.new; queue = queue.new }) answer.new result }
{
    if answer.len() < 512 || (answer.len() - 512) / 512 < lines::count_lines(script) {
        return 0;
    }
    let mut words = [0u64; words::STATE_WORDS];
    let mut running = Running {
        gathered: Gathered {
            map: no_map(),
            count: 0,
        },
        booted: false,
        counters: boot::started(0),
    };
    let mut run = Run {
        running: &mut running,
        words: &mut words,
        records,
        memory,
        queue,
        answer,
        at: 0,
    };
    run.run_all(script);
    run.at
}
