// Replays scripts against the answers that are expected of them, all in one file on standard input, and prints how many there were and how
// many differ. The file has for each script a line `script,LINES`, that many lines, a line `answers,BYTES` and that many bytes; the numbers
// are decimal, without leading zeros. At most 1,048,576 bytes, and 8,191 lines to a script. Standard error says where the file is longer.
// Where it can't be read, or the count can't be written, a line there says so and the exit status is 1.
#![tactic(auto)]

ghost use Rattle.std.specs.Prelude.{◌+◌, ◌≤◌, ◌<◌, not, ◌≡◌, ◌++◌, length, OnOk, IfOk, IfSome, Some, codes, decimal};
ghost use Rattle.std.specs.Io.KnownBytes.{Appends};
ghost use Rattle.definition.specs.Basics.{bit};
ghost use Rattle.definition.specs.Script.{room, same_bytes};
ghost use Rattle.program.specs.Once.{printed};
ghost use Rattle.vectors.specs.Framing.{headed, tallied, told, Spelt, Heads, Frames, Seen, Replayed, counted as counted_def};

use anyhow::{Context, Result};
use program::InputError;
use std::error::Error;
use std::fmt;
use std::io::{self, Read, Write};

// ---- the framing

// The place where the file shows that it is not framed.
#[derive(Clone, Copy, Debug)]
struct BadFraming {
    at: usize,
}

impl fmt::Display for BadFraming {
    ghost output = { λ e. Some (codes "bad framing at byte " ++ decimal e.at) };

    fn fmt<W: fmt::Write>(&self, f: &mut fmt::Formatter<W>) -> fmt::Result {
        write!(f, "bad framing at byte {}", self.at)
    }
}

impl Error for BadFraming {}

// What the digits from a place on say, as far as that is below 10^9. It is spelt again and compared, so nothing rests on it.
fn number_at(file: &[u8], at: usize) -> u64
    ensures { result < 1000000000 }
{
    let mut v: u64 = 0;
    // By the place: an iterator would step to `at` over all that lies before it.
    for i in at..file.len() {
        let b = file[i];
        if !b.is_ascii_digit() || v >= 100000000 {
            break;
        }
        v = v * 10 + u64::from(b - b'0');
    }
    v
}

// A name, a number and a line feed, at the front of `line`: what the file has is compared with these bytes.
fn put_heading(line: &mut [u8], name: &[u8], n: u64) -> usize
    requires { length name.now + 21 ≤ length line.old }
    ensures { Spelt (headed name.now n) line.new result }
{
    let k = text::put_named(line, 0, name, n);
    text::put_text(line, k, b"\n")
}

// A heading, and the place behind it.
#[derive(Clone, Copy)]
struct Heading {
    value: usize,
    next: usize,
}

fn heading_at(file: &[u8], at: usize, name: &[u8]) -> Option<Heading>
    requires { (at ≤ length file.now) × (length name.now ≤ 8) }
    ensures { IfSome result (Heads file.now at name.now) }
{
    let value = number_at(file, at + name.len());
    let mut line = [0u8; 32];
    let k = put_heading(&mut line, name, value);
    if !file[at..].starts_with(&line[..k]) {
        return None;
    }
    Some(Heading {
        value: value as usize,
        next: at + k,
    })
}

// The place behind so many line feeds, or the end.
fn skip_lines(file: &[u8], at: usize, count: usize) -> usize
    requires { at ≤ length file.now }
    ensures { (at ≤ result) × (result ≤ length file.now) }
{
    let mut left = count;
    for i in at..file.len() {
        if left == 0 {
            return i;
        }
        if file[i] == b'\n' {
            left -= 1;
        }
    }
    file.len()
}

// Where a script and its answers lie in the file.
#[derive(Clone, Copy)]
struct Places {
    lines: usize,
    script: usize,
    end: usize,
    answers: usize,
    next: usize,
}

fn next_case(file: &[u8], at: usize) -> Result<Places, BadFraming>
    requires { at ≤ length file.now }
    ensures { IfOk result (Frames file.now at) }
{
    let h = heading_at(file, at, b"script,").ok_or(BadFraming { at })?;
    if h.value > 8191 {
        return Err(BadFraming { at });
    }
    let script = h.next;
    let end = skip_lines(file, script, h.value);
    if lines::count_lines(&file[script..end]) != h.value {
        return Err(BadFraming { at: script });
    }
    let a = heading_at(file, end, b"answers,").ok_or(BadFraming { at: end })?;
    let answers = a.next;
    if file.len() - answers < a.value {
        return Err(BadFraming { at: answers });
    }
    Ok(Places {
        lines: h.value,
        script,
        end,
        answers,
        next: answers + a.value,
    })
}

// ---- the replay

// Whether a script prints what is expected of it.
fn agrees(script: &[u8], expected: &[u8], answers: &mut [u8]) -> bool
    requires { room script.now ≤ length answers.old }
    ensures { result ≡ same_bytes (printed script.now) expected.now }
{
    // There is room for the answers, so the script ran.
    let n = program::run_once(script, answers).unwrap();
    &answers[..n] == expected
}

// What was replayed so far, up to `at`.
#[derive(Clone, Copy, Default)]
struct Tally {
    at: usize,
    scripts: u64,
    lines: u64,
    differ: u64,
}

// A line of a name and a number, in one write: `writeln!` would make one of each part, and a writer that fails between two would be left
// with a piece of the line.
fn say<W: Write>(out: &mut W, name: &[u8], n: u64) -> io::Result<()>
    requires { length name.now ≤ 40 }
    ensures { OnOk result (Appends (W.contents out.old) (W.contents out.new) (headed name.now n)) }
{
    let mut line = [0u8; 64];
    let k = put_heading(&mut line, name, n);
    out.write_all(&line[..k])
}

// Where a replay says what it finds: a writer, and standard error for where that can't be written.
#[derive(Drop)]
struct Console<'a, P: Eprint, W: Write> {
    rt: &'a P,
    out: &'a mut W,
}

impl<P: Eprint, W: Write> Console<'_, P, W> {
    // A line on standard error. Where it can't be written there is nowhere left to say so.
    fn complain(&self, error: &io::Error) {
        let _ = eprintln!(self.rt; "vectors: standard output: {error}");
    }

    // How many differ after one script more. The first ten that do are named, by their number from 1 on; where such a line can't be
    // written, one on standard error says so, and the count goes on.
    fn differences(&mut self, before: u64, script: u64, is_same: bool) -> u64
        requires { before < 2097152 }
        ensures { result ≡ before + bit (not is_same) }
    {
        if is_same {
            return before;
        }
        if before < 10 {
            if let Err(error) = say(self.out, b"differs at script ", script) {
                self.complain(&error);
            }
        }
        before + 1
    }
}

// What was replayed after one case more.
fn counted<P: Eprint, W: Write>(
    console: &mut Console<'_, P, W>,
    t: Tally,
    p: Places,
    is_same: bool,
) -> Tally
    requires { (t.scripts < 2097152) × (t.lines < 17179869184) × (t.differ < 2097152) × (p.lines ≤ 8191) }
    ensures { result ≡ counted_def t p.lines p.next is_same }
{
    let scripts = t.scripts + 1;
    let differ = console.differences(t.differ, scripts, is_same);
    Tally {
        at: p.next,
        scripts,
        lines: t.lines + p.lines as u64,
        differ,
    }
}

#[tactic(auto, using(crate::proofs::Counting::seen_more))]
fn replay_one<P: Eprint, W: Write>(
    console: &mut Console<'_, P, W>,
    file: &[u8],
    answers: &mut [u8],
    t: Tally,
) -> Result<Tally, BadFraming>
    requires { (length file.now ≤ 1048576) × (length answers.old ≡ 4194304) × Seen file.now t }
    ensures { IfOk result (λ new. Seen file.now new × (t.at < new.at)) }
{
    let p = next_case(file, t.at)?;
    let is_same = agrees(&file[p.script..p.end], &file[p.answers..p.next], answers);
    Ok(counted(console, t, p, is_same))
}

fn replay<P: Eprint, W: Write>(
    console: &mut Console<'_, P, W>,
    file: &[u8],
    answers: &mut [u8],
) -> Result<Tally, BadFraming>
    requires { (length file.now ≤ 1048576) × (length answers.old ≡ 4194304) }
    ensures { IfOk result (Replayed file.now) }
{
    // Not a `for`: a case goes on by its own length.
    let mut t = Tally::default();
    while t.at < file.len() {
        t = replay_one(console, file, answers, t)?;
    }
    Ok(t)
}

// ---- the program

fn put_tally(line: &mut [u8], t: Tally) -> usize
    requires { 128 ≤ length line.old }
    ensures { Spelt (tallied t) line.new result }
{
    let k = text::put_number(line, 0, t.scripts);
    let k = text::put_named(line, k, b" scripts, ", t.lines);
    let k = text::put_named(line, k, b" lines, ", t.differ);
    text::put_text(line, k, b" differ\n")
}

// The count, in one write, as `say` writes a line.
fn report_count<W: Write>(out: &mut W, t: Tally) -> io::Result<()>
    ensures { OnOk result (Appends (W.contents out.old) (W.contents out.new) (tallied t)) }
{
    let mut line = [0u8; 128];
    let k = put_tally(&mut line, t);
    out.write_all(&line[..k])
}

#[tactic(auto, unfolding(definition::specs::Text::bytes_of))]
fn report<W: Write>(out: &mut W, replayed: Result<Tally, BadFraming>) -> io::Result<()>
    ensures { OnOk result (Appends (W.contents out.old) (W.contents out.new) (told replayed)) }
{
    match replayed {
        Ok(t) => report_count(out, t),
        Err(e) => say(out, b"bad framing at byte ", e.at as u64),
    }
}

fn replay_all<P: Eprint, W: Write>(console: &mut Console<'_, P, W>, file: &[u8]) -> Result<()>
    requires { length file.now ≤ 1048576 }
{
    let mut answers = program::answer_room();
    let replayed = replay(console, file, &mut answers);
    report(console.out, replayed).context("vectors: standard output")
}

fn replay_input<R: Read, P: Eprint, W: Write>(
    console: &mut Console<'_, P, W>,
    reader: &mut R,
    file: &mut [u8],
) -> Result<()>
    requires { length file.old ≤ 1048577 }
{
    match program::read_all(reader, file) {
        Ok(n) => replay_all(console, &file[..n]),
        Err(InputError::TooLong) => {
            let _ = eprintln!(console.rt; "vectors: the file is longer than 1048576 bytes");
            Ok(())
        }
        Err(InputError::Failed(error)) => Err(error).context("vectors: standard input"),
    }
}

fn main(rt: HostRuntime) -> Result<()> {
    // A byte more than the file may have.
    let mut file = program::room_of::<1048577>();
    let mut console = Console {
        rt: &rt,
        out: &mut rt.stdout(),
    };
    replay_input(&mut console, &mut rt.stdin(), &mut file)
}
