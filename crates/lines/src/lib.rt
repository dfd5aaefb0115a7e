// A line of a script, read: which op it names, and its numbers (01, "The script program"). `read_line` promises that definition's
// `read_line` asks the same.
#![tactic(auto)]

ghost use Rattle.std.specs.Prelude.{◌≡◌, ◌<◌, ◌==◌, length, IfNone, option_map, position, unwrap_or};
ghost use Rattle.definition.specs.Script.{lines, fields, read_number};
ghost use Rattle.lines.specs.Reading.{Reads, NextLine};
ghost use Rattle.lines.specs.Steps.{value_of, no_numbers, pushed, gather, all_ops, pick, bad_line, line_from};

// The ops that are calls of a store and answer by numbers.
#[derive(Clone, Copy)]
pub enum Ask {
    Alloc,
    Take,
    Split,
    Free,
    Zero,
    Dirty,
    Find,
    Queue,
    Fill,
    Copy,
    Pcopy,
    Round,
    Lend,
    Back,
    Low,
}

// What a line asks: `Bad` is a line that can't be read, `Stats` answers by a text.
#[derive(Clone, Copy)]
pub enum Op {
    Bad,
    Region,
    Boot,
    Stats,
    Call(Ask),
}

// An op and its numbers, in their order; those that the op does not take are 0.
#[derive(Clone, Copy)]
pub struct Line {
    pub op: Op,
    pub numbers: [u64; 5],
}

// Where the byte stands first.
fn find(s: &[u8], byte: u8) -> Option<usize>
    ensures { result ≡ position (λ b. b == byte) s.now }
{
    s.iter().position(|b| *b == byte)
}

// ---- numbers

// The number that a whole slice spells.
#[tactic(auto, using(crate::proofs::Gathering::one_number))]
fn read_number(s: &[u8]) -> Option<u64>
    ensures { value_of result ≡ read_number s.now }
{
    if s.is_empty() {
        return None;
    }
    let mut v: u64 = 0;
    for b in s {
        if !b.is_ascii_digit() {
            return None;
        }
        v = v.checked_mul(10)?.checked_add(u64::from(*b - b'0'))?;
    }
    Some(v)
}

// Numbers in their order, and the last of them.
#[derive(Clone, Copy)]
struct Numbers {
    count: usize,
    last: u64,
    list: [u64; 5],
}

const NO_NUMBERS: Numbers = Numbers {
    count: 0,
    last: 0,
    list: [0; 5],
};

impl Numbers {
    // One number more, where there are not five yet.
    fn push(&mut self, x: u64) -> Option<()>
        ensures room { pushed self.old x ≡ option_map (λ u. self.new) result }
        ensures full { IfNone result (self.new ≡ self.old) }
    {
        if self.count >= self.list.len() {
            return None;
        }
        self.list[self.count] = x;
        self.count += 1;
        self.last = x;
        Some(())
    }
}

// The numbers in the fields of `s`, where all can be read and there are not too many.
fn read_numbers(s: &[u8]) -> Option<Numbers>
    ensures { result ≡ gather no_numbers (fields s.now) }
{
    let mut numbers = NO_NUMBERS;
    for field in s.split(|b| *b == b',') {
        numbers.push(read_number(field)?)?;
    }
    Some(numbers)
}

// ---- ops

// An op that a line may name: how many numbers it takes, and the most that the last of them may be.
#[derive(Clone, Copy)]
struct Named {
    op: Op,
    count: usize,
    most: u64,
}

// The ops in the order of definition's `ops`: the name, how many numbers follow, the most that the last may be, the op.
const OPS: [(&[u8], usize, u64, Op); 18] = [
    (b"region", 3, 2, Op::Region),
    (b"boot", 0, 0, Op::Boot),
    (b"alloc", 3, 7, Op::Call(Ask::Alloc)),
    (b"take", 3, 7, Op::Call(Ask::Take)),
    (b"split", 1, u64::MAX, Op::Call(Ask::Split)),
    (b"free", 1, u64::MAX, Op::Call(Ask::Free)),
    (b"zero", 1, u64::MAX, Op::Call(Ask::Zero)),
    (b"dirty", 1, u64::MAX, Op::Call(Ask::Dirty)),
    (b"find", 1, u64::MAX, Op::Call(Ask::Find)),
    (b"queue", 1, u64::MAX, Op::Call(Ask::Queue)),
    (b"fill", 4, 255, Op::Call(Ask::Fill)),
    (b"copy", 5, u64::MAX, Op::Call(Ask::Copy)),
    (b"pcopy", 4, u64::MAX, Op::Call(Ask::Pcopy)),
    (b"round", 0, 0, Op::Call(Ask::Round)),
    (b"lend", 1, u64::MAX, Op::Call(Ask::Lend)),
    (b"back", 1, u64::MAX, Op::Call(Ask::Back)),
    (b"low", 0, 0, Op::Call(Ask::Low)),
    (b"stats", 0, 0, Op::Stats),
];

// The op of that name.
fn read_op(s: &[u8]) -> Option<Named>
    ensures { result ≡ pick s.now all_ops }
{
    for &(name, count, most, op) in &OPS {
        if s == name {
            return Some(Named { op, count, most });
        }
    }
    None
}

// ---- lines

// Of a line without its line feed.
const LONGEST: usize = 512;

const BAD_LINE: Line = Line {
    op: Op::Bad,
    numbers: [0; 5],
};

// The op with its numbers, if there are as many as it takes and the last is not too large.
fn line_from(o: Named, n: Numbers) -> Option<Line>
    ensures { result ≡ line_from o n }
{
    if n.count != o.count || n.last > o.most {
        return None;
    }
    let numbers = n.list;
    Some(Line { op: o.op, numbers })
}

// The op first, up to a comma or the end, then the numbers.
fn read_fields(line: &[u8]) -> Option<Line>
    ensures { Reads line.now (unwrap_or result bad_line) }
{
    if line.len() > LONGEST {
        return None;
    }
    match find(line, b',') {
        Some(comma) => line_from(read_op(&line[..comma])?, read_numbers(&line[comma + 1..])?),
        None => line_from(read_op(line)?, NO_NUMBERS),
    }
}

pub fn read_line(line: &[u8]) -> Line
    ensures { Reads line.now result }
{
    read_fields(line).unwrap_or(BAD_LINE)
}

// Where a line ends, and where the next one starts.
#[derive(Clone, Copy)]
pub struct Cursor {
    pub end: usize,
    pub next: usize,
}

#[tactic(auto, using(crate::proofs::Lines::one_line))]
pub fn next_line(s: &[u8], at: usize) -> Cursor
    requires { at < length s.now }
    ensures { NextLine s.now at result.end result.next }
{
    match find(&s[at..], b'\n') {
        Some(i) => Cursor {
            end: at + i,
            next: at + i + 1,
        },
        None => Cursor {
            end: s.len(),
            next: s.len(),
        },
    }
}

// The last line may lack its line feed.
#[tactic(auto, using(crate::proofs::Parting::counted))]
pub fn count_lines(s: &[u8]) -> usize
    ensures { result ≡ length (lines s.now) }
{
    let fed = s.iter().filter(|b| **b == b'\n').count();
    let last = s.last().copied().unwrap_or(b'\n');
    if last == b'\n' { fed } else { fed + 1 }
}
