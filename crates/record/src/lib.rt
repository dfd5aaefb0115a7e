// The records of the managed pages in the lent bytes: 16 bytes a page, four 32-bit little-endian numbers (01, "What changes shape"). No
// other crate sees bytes of records, and none takes the marks or the number of the level apart. Callers go by the `records` clause of a
// contract, which speaks of the records as a function of the page; the `bytes` clause fixes every byte of the loan, those past the last
// whole record too.
#![tactic(auto)]

ghost use Rattle.std.specs.Prelude.{true, false, ◌≡◌, ◌++◌, ◌+◌, ◌*◌, ◌/◌, ◌^◌, ◌<◌, ◌≤◌, ltb, length, replicate, max, fold};
ghost use Rattle.definition.specs.Basics.{upd, all, range};
ghost use Rattle.definition.specs.Frame.{levels};
ghost use Rattle.definition.specs.Torn.{is_blank};
ghost use Rattle.definition.specs.World.{
  word_at,
  record_at,
  word_bytes,
  record_bytes,
  admitted_in,
  allocated_in,
  zeroed_in,
  kernel_in,
  named_marks,
  marks_with,
  allocated_marks,
  level_in,
  level_word,
};
ghost use Rattle.record.specs.Records.{
  pages_in,
  with_bytes,
  with_marks,
  with_earlier,
  with_later,
  with_links,
  number_at,
  with_number,
  cleared,
  kind_of,
  free_kind,
  of_kind,
  free_page,
};

use definition::Record;

// The places of the four numbers in a record.
const MARKS: usize = 0;

const LEVEL: usize = 1;

const EARLIER: usize = 2;

const LATER: usize = 3;

// One of the four numbers of a page's record. It compiles to one load.
fn number(records: &[u8], page: usize, place: usize) -> u32
    requires { (page < pages_in records.now) × (place < 4) }
    ensures { result ≡ number_at place (record_at records.now page) }
{
    let at = page * 16 + place * 4;
    u32::from_le_bytes([
        records[at],
        records[at + 1],
        records[at + 2],
        records[at + 3],
    ])
}

// Makes it `v`, by one store.
fn set_number(records: &mut [u8], page: usize, place: usize, v: u32)
    requires { (page < pages_in records.old) × (place < 4) }
    ensures bytes { records.new ≡ with_bytes records.old (page * 16 + place * 4) (word_bytes v) }
    ensures records { record_at records.new ≡ with_number (record_at records.old) page place v }
{
    let at = page * 16 + place * 4;
    records[at..at + 4].copy_from_slice(&v.to_le_bytes());
}

// The record of a page.
pub fn load(records: &[u8], page: usize) -> Record
    requires { page < pages_in records.now }
    ensures { result ≡ record_at records.now page }
{
    Record {
        marks: number(records, page, MARKS),
        level: number(records, page, LEVEL),
        earlier: number(records, page, EARLIER),
        later: number(records, page, LATER),
    }
}

// Makes `r` the record of a page.
pub fn store(records: &mut [u8], page: usize, r: Record)
    requires { page < pages_in records.old }
    ensures bytes { records.new ≡ with_bytes records.old (page * 16) (record_bytes r) }
    ensures records { record_at records.new ≡ upd (record_at records.old) page r }
{
    set_number(records, page, MARKS, r.marks);
    set_number(records, page, LEVEL, r.level);
    set_number(records, page, EARLIER, r.earlier);
    set_number(records, page, LATER, r.later);
}

// The marks of a page.
pub fn marks(records: &[u8], page: usize) -> u32
    requires { page < pages_in records.now }
    ensures { result ≡ (record_at records.now page).marks }
{
    number(records, page, MARKS)
}

// The number of a page that has its level, for `level_of`.
pub fn level(records: &[u8], page: usize) -> u32
    requires { page < pages_in records.now }
    ensures { result ≡ (record_at records.now page).level }
{
    number(records, page, LEVEL)
}

// The neighbour before a page in its list.
pub fn earlier(records: &[u8], page: usize) -> u32
    requires { page < pages_in records.now }
    ensures { result ≡ (record_at records.now page).earlier }
{
    number(records, page, EARLIER)
}

// The neighbour after a page in its list.
pub fn later(records: &[u8], page: usize) -> u32
    requires { page < pages_in records.now }
    ensures { result ≡ (record_at records.now page).later }
{
    number(records, page, LATER)
}

// Changes the marks of a page.
pub fn set_marks(records: &mut [u8], page: usize, v: u32)
    requires { page < pages_in records.old }
    ensures bytes { records.new ≡ with_bytes records.old (page * 16) (word_bytes v) }
    ensures records { record_at records.new ≡ with_marks (record_at records.old) page v }
{
    set_number(records, page, MARKS, v);
}

// Changes the neighbour before a page.
pub fn set_earlier(records: &mut [u8], page: usize, v: u32)
    requires { page < pages_in records.old }
    ensures bytes { records.new ≡ with_bytes records.old (page * 16 + 8) (word_bytes v) }
    ensures records { record_at records.new ≡ with_earlier (record_at records.old) page v }
{
    set_number(records, page, EARLIER, v);
}

// Changes the neighbour after a page.
pub fn set_later(records: &mut [u8], page: usize, v: u32)
    requires { page < pages_in records.old }
    ensures bytes { records.new ≡ with_bytes records.old (page * 16 + 12) (word_bytes v) }
    ensures records { record_at records.new ≡ with_later (record_at records.old) page v }
{
    set_number(records, page, LATER, v);
}

// Changes both neighbours of a page.
pub fn set_links(records: &mut [u8], page: usize, earlier: u32, later: u32)
    requires { page < pages_in records.old }
    ensures bytes { records.new ≡ with_bytes records.old (page * 16 + 8) (word_bytes earlier ++ word_bytes later) }
    ensures records { record_at records.new ≡ with_links (record_at records.old) page earlier later }
{
    set_number(records, page, EARLIER, earlier);
    set_number(records, page, LATER, later);
}

// Makes the records of `count` pages, from `first` on, four zeros each.
pub fn clear(records: &mut [u8], first: usize, count: usize)
    requires { first + count ≤ pages_in records.old }
    ensures bytes { records.new ≡ with_bytes records.old (first * 16) (replicate (count * 16) 0) }
    ensures records { record_at records.new ≡ cleared (record_at records.old) first count }
{
    records[first * 16..(first + count) * 16].fill(0);
}

// The largest of the bytes, or 0 where there are none. Not `max()`, which carries an `Option` along and takes up to twice as long.
fn largest(bytes: &[u8]) -> u8
    ensures { result ≡ fold max 0 bytes.now }
{
    bytes.iter().fold(0, |most, byte| most.max(*byte))
}

// Whether the records of `count` pages, from `first` on, are four zeros each: whether the largest of their bytes is 0. Not `all`: it may
// stop early, so that LLVM makes no vector instructions of it, and it takes 20 to 40 times as long.
pub fn is_clear(records: &[u8], first: usize, count: usize) -> bool
    requires { first + count ≤ pages_in records.now }
    ensures { result ≡ all (λ q. is_blank (record_at records.now q)) (range first count) }
{
    largest(&records[first * 16..(first + count) * 16]) == 0
}

// ---- The marks and the number of the level, taken apart and put together in this one place.

const ADMITTED: u32 = 1;

const ALLOCATED: u32 = 2;

const ZEROED: u32 = 4;

const KERNEL: u32 = 8;

pub fn is_admitted(marks: u32) -> bool
    ensures { result ≡ admitted_in marks }
{
    marks & ADMITTED != 0
}

pub fn is_allocated(marks: u32) -> bool
    ensures { result ≡ allocated_in marks }
{
    marks & ALLOCATED != 0
}

pub fn is_zeroed(marks: u32) -> bool
    ensures { result ≡ zeroed_in marks }
{
    marks & ZEROED != 0
}

pub fn is_kernel(marks: u32) -> bool
    ensures { result ≡ kernel_in marks }
{
    marks & KERNEL != 0
}

// No mark bits but those named.
pub fn is_named(marks: u32) -> bool
    ensures { result ≡ ltb marks named_marks }
{
    marks < 16
}

// The marks of a frame that is not held.
pub fn free_marks(zeroed: bool, kernel: bool) -> u32
    ensures { result ≡ marks_with false zeroed kernel }
{
    ADMITTED + ZEROED * u32::from(zeroed) + KERNEL * u32::from(kernel)
}

// The marks of a frame that is held.
pub fn held_marks(zeroed: bool, kernel: bool) -> u32
    ensures { result ≡ marks_with true zeroed kernel }
{
    set_allocated(free_marks(zeroed, kernel))
}

// The marks of an unheld frame, once it is held.
pub fn set_allocated(marks: u32) -> u32
    requires { allocated_in marks ≡ false }
    ensures { result ≡ allocated_marks marks }
{
    marks + ALLOCATED
}

pub fn level_of(word: u32) -> usize
    ensures { result ≡ level_in word }
{
    word as usize
}

// The number that a record of the level has.
pub fn level_word(level: usize) -> u32
    requires { level < levels }
    ensures { result ≡ level_word level }
{
    level as u32
}

// ---- The marks and the number of the level as one number, so that one load and one comparison tell an unheld frame.

fn kind(marks: u32, level: u32) -> u64
    ensures { result ≡ marks + 4294967296 * level }
{
    u64::from(marks) + 4294967296 * u64::from(level)
}

fn kind_at(records: &[u8], page: usize) -> u64
    requires { page < pages_in records.now }
    ensures { result ≡ kind_of (record_at records.now page) }
{
    kind(number(records, page, MARKS), number(records, page, LEVEL))
}

// Whether a page is an unheld frame of one page, with ZEROED and KERNEL or without: no bits but those of the named marks, of which
// ADMITTED is set and ALLOCATED is not.
pub fn is_free_page(records: &[u8], page: usize) -> bool
    requires { page < pages_in records.now }
    ensures { result ≡ free_page (record_at records.now page) }
{
    // Not `matches!(kind, 1 | 5 | 9 | 13)`: LLVM makes one mask of this and a rotation of that, and the audit takes 1.4 times as long.
    let kind = kind_at(records, page);
    kind < 16 && kind % 4 == 1
}

// That of the unheld frames of a level, with ZEROED or without, but for KERNEL.
pub fn free_kind(level: usize, zeroed: bool) -> u64
    requires { level < levels }
    ensures { (result ≡ free_kind level zeroed) × (result < 2 ^ 63) }
{
    kind(free_marks(zeroed, false), level_word(level))
}

// Whether a page has that number, with KERNEL or without.
pub fn is_kind(records: &[u8], page: usize, kind: u64) -> bool
    requires { (page < pages_in records.now) × (kind < 2 ^ 63) }
    ensures { result ≡ of_kind kind (record_at records.now page) }
{
    let found = kind_at(records, page);
    found == kind || found == kind + u64::from(KERNEL)
}
