// The state of a store as 512 words of 64 bits, in a lent slice: a row, the queue's count, the pass or the counters are read where they
// stand, and written there. Any words of the right number and version are some state; whether it is a sound one is the audit's to say. What
// each word is stands in specs/Words.antt.
#![tactic(auto)]

ghost use Rattle.std.specs.Prelude.{true, cond, ◌&&◌, ◌≡◌, ◌+◌, ◌-◌, ◌*◌, ◌%◌, ◌/◌, ◌≤◌, ◌<◌, length, drop, fold};
ghost use Rattle.std.specs.List.{list_all, range_with_len};
ghost use Rattle.definition.specs.Basics.{all};
ghost use Rattle.definition.specs.Board.{Fit};
ghost use Rattle.definition.specs.Torn.{is_no_links, is_no_row};
ghost use Rattle.definition.specs.World.{no_row};
ghost use Rattle.record.specs.Records.{with_bytes};
ghost use Rattle.words.specs.Words.{
  Long,
  counters_at,
  row_words_each,
  low_half,
  high_half,
  first_in,
  second_in,
  row_in,
  row_of,
  rows_in,
  used_in,
  InUse,
  counters_in,
  queued_in,
  pass_in,
  is_kept,
  joined as joined_def,
  pair_words,
  row_words,
  list_in,
  with_list,
  kept_of,
  counter_words,
  board_in,
  RowBeside,
  RowsBeside,
  QueuedBeside,
  PassBeside,
  is_zero,
};

use address::PhysAddr;
use definition::{Board, Counters, Links, Pass, Row};

// ---- the layout

const VERSION: u32 = 2;

pub const STATE_WORDS: usize = 512;

const ROW_WORDS: usize = 11;

const QUEUED_AT: usize = 89;

const PASS_AT: usize = 90;

const PASS_FREED_AT: usize = PASS_AT + 1;

const COUNTERS_AT: usize = 92;

const KERNEL_USED_AT: usize = COUNTERS_AT;

const PAGE_DATA_AT: usize = COUNTERS_AT + 1;

const IDLE_AT: usize = COUNTERS_AT + 2;

const TOTAL_AT: usize = COUNTERS_AT + 3;

const ALLOCATED_AT: usize = COUNTERS_AT + 4;

const FREED_AT: usize = COUNTERS_AT + 5;

const RECLAIMED_AT: usize = COUNTERS_AT + 6;

const WAITING_AT: usize = COUNTERS_AT + 7;

const PAGER_OUTSTANDING_AT: usize = COUNTERS_AT + 8;

// ---- the board

// The board that the words are of: every state is of the standard one, and no word holds its numbers.
pub fn board_in(words: &[u64]) -> Board
    ensures { (result ≡ board_in words.now) × Fit result }
{
    definition::standard()
}

// ---- read

fn low_half(word: u64) -> u32
    ensures { result ≡ low_half word }
{
    (word & 0xffff_ffff) as u32
}

fn high_half(word: u64) -> u32
    ensures { result ≡ high_half word }
{
    (word >> 32) as u32
}

// The first of two lists in three words, or the second.
fn list_from(words: &[u64], at: usize, second: bool) -> Links
    requires { at + 3 ≤ length words.now }
    ensures { result ≡ cond second (second_in words.now at) (first_in words.now at) }
{
    let ends = words[at + usize::from(second)];
    let counts = words[at + 2];
    Links {
        front: low_half(ends),
        back: high_half(ends),
        count: if second {
            high_half(counts)
        } else {
            low_half(counts)
        },
    }
}

// The row whose words begin at a place.
fn row_from(words: &[u64], at: usize) -> Row
    requires { at + row_words_each ≤ length words.now }
    ensures { result ≡ row_in words.now at }
{
    Row {
        start: PhysAddr(words[at]),
        pages: words[at + 1] as usize,
        lists: [
            list_from(words, at + 2, false),
            list_from(words, at + 2, true),
            list_from(words, at + 5, false),
            list_from(words, at + 5, true),
            list_from(words, at + 8, false),
            list_from(words, at + 8, true),
        ],
    }
}

// How many rows are in use.
pub fn used_in(words: &[u64]) -> usize
    requires { Long words.now }
    ensures { (result ≡ used_in words.now) × (result < 4294967296) }
{
    high_half(words[0]) as usize
}

fn no_row() -> Row
    ensures { result ≡ no_row }
{
    let none = Links {
        front: 0,
        back: 0,
        count: 0,
    };
    Row {
        start: PhysAddr(0),
        pages: 0,
        lists: [none; 6],
    }
}

// The row i of the eight.
pub fn row_at(words: &[u64], i: usize) -> Row
    requires { Long words.now × (i < 8) }
    ensures { result ≡ row_of (rows_in words.now) i }
{
    if i < used_in(words) {
        row_from(words, 1 + ROW_WORDS * i)
    } else {
        no_row()
    }
}

// The list k of a row in use.
pub fn list_at(words: &[u64], i: usize, k: usize) -> Links
    requires { InUse words.now i × (k < 6) }
    ensures { result ≡ list_in (row_of (rows_in words.now) i) k }
{
    list_from(words, 3 + ROW_WORDS * i + 3 * (k / 2), k % 2 == 1)
}

// Not `all`: with no early exit the words of a row are read as vectors, in two thirds of the time.
fn are_zeros(words: &[u64]) -> bool
    ensures { result ≡ fold (λ zeros word. zeros && is_zero word) true words.now }
{
    words.iter().fold(true, |zeros, word| zeros & (*word == 0))
}

// Whether the three words of a level are zeros, as they are where both of its lists are empty.
pub fn is_bare(words: &[u64], i: usize, level: usize) -> bool
    requires { InUse words.now i × (level < 3) }
    ensures { result
        ≡ (is_no_links (list_in (row_of (rows_in words.now) i) (2 * level))
        && is_no_links (list_in (row_of (rows_in words.now) i) (2 * level + 1))) }
{
    let at = 3 + ROW_WORDS * i + 3 * level;
    are_zeros(&words[at..at + 3])
}

// How many pages the row i has: 0 where it is not in use.
pub fn pages_at(words: &[u64], i: usize) -> usize
    requires { Long words.now × (i < 8) }
    ensures { result ≡ (row_of (rows_in words.now) i).pages }
{
    if i < used_in(words) {
        words[2 + ROW_WORDS * i] as usize
    } else {
        0
    }
}

// Whether eleven words are zeros, as those of an unused row are.
fn is_no_row(words: &[u64], at: usize) -> bool
    requires { at + row_words_each ≤ length words.now }
    ensures { result ≡ is_no_row (row_in words.now at) }
{
    are_zeros(&words[at..at + ROW_WORDS])
}

// Whether none of the rows from `first` up to `end` has a word but zeros.
fn unused_up_to(words: &[u64], first: usize, end: usize) -> bool
    requires { Long words.now × (first ≤ 8) × (end ≤ 8) }
    ensures { result ≡ list_all (λ i. is_no_row (row_in words.now (1 + 11 * i))) (range_with_len first (end - first)) }
{
    (first..end).all(|i| is_no_row(words, 1 + ROW_WORDS * i))
}

// Whether the rows from `first` on are unused ones. Behind those in use they are.
pub fn is_no_rows(words: &[u64], first: usize) -> bool
    requires { Long words.now × (first ≤ 8) }
    ensures { result ≡ all is_no_row (drop first (rows_in words.now)) }
{
    unused_up_to(words, first, used_in(words).min(8))
}

// All eight rows, by value.
pub fn rows_in(words: &[u64]) -> [Row; 8]
    requires { Long words.now }
    ensures { result ≡ rows_in words.now }
{
    std::array::from_fn(|i| row_at(words, i))
}

pub fn queued_in(words: &[u64]) -> usize
    requires { Long words.now }
    ensures { result ≡ queued_in words.now }
{
    words[QUEUED_AT] as usize
}

pub fn pass_in(words: &[u64]) -> Pass
    requires { Long words.now }
    ensures { result ≡ pass_in words.now }
{
    Pass {
        rounds: words[PASS_AT] as usize,
        freed: words[PASS_FREED_AT] as usize,
    }
}

pub fn counters_in(words: &[u64]) -> Counters
    requires { Long words.now }
    ensures { result ≡ counters_in words.now }
{
    Counters {
        kernel_used: words[KERNEL_USED_AT] as usize,
        page_data: words[PAGE_DATA_AT] as usize,
        idle: words[IDLE_AT] as usize,
        total: words[TOTAL_AT] as usize,
        allocated: words[ALLOCATED_AT] as usize,
        freed: words[FREED_AT] as usize,
        reclaimed: words[RECLAIMED_AT] as usize,
        waiting: words[WAITING_AT] as usize,
        pager_outstanding: words[PAGER_OUTSTANDING_AT] as usize,
    }
}

// Whether the words are enough, and of this version, with at most eight rows in use.
pub fn is_kept(words: &[u64]) -> bool
    ensures { result ≡ is_kept words.now }
{
    words.len() >= STATE_WORDS && low_half(words[0]) == VERSION && used_in(words) <= 8
}

// ---- written

fn joined(low: u32, high: u32) -> u64
    ensures { result ≡ joined_def low high }
{
    u64::from(low) + (u64::from(high) << 32)
}

fn put_pair(words: &mut [u64], at: usize, a: Links, b: Links)
    requires { at + 3 ≤ length words.old }
    ensures { words.new ≡ with_bytes words.old at (pair_words a b) }
{
    words[at] = joined(a.front, a.back);
    words[at + 1] = joined(b.front, b.back);
    words[at + 2] = joined(a.count, b.count);
}

fn put_row_from(words: &mut [u64], at: usize, row: Row)
    requires { at + row_words_each ≤ length words.old }
    ensures { words.new ≡ with_bytes words.old at (row_words row) }
{
    words[at] = row.start.raw();
    words[at + 1] = row.pages as u64;
    put_pair(words, at + 2, row.lists[0], row.lists[1]);
    put_pair(words, at + 5, row.lists[2], row.lists[3]);
    put_pair(words, at + 8, row.lists[4], row.lists[5]);
}

// The list k of a row in use becomes `list`.
pub fn put_list(words: &mut [u64], i: usize, k: usize, list: Links)
    requires { InUse words.old i × (k < 6) }
    ensures row { row_of (rows_in words.new) i ≡ with_list (row_of (rows_in words.old) i) k list }
    ensures rest { RowBeside words.old i words.new }
{
    let at = 3 + ROW_WORDS * i + 3 * (k / 2);
    if k % 2 == 0 {
        let other = list_from(words, at, true);
        put_pair(words, at, list, other);
    } else {
        let other = list_from(words, at, false);
        put_pair(words, at, other, list);
    }
}

pub fn put_queued(words: &mut [u64], queued: usize)
    requires { Long words.old }
    ensures { QueuedBeside words.old queued words.new }
{
    words[QUEUED_AT] = queued as u64;
}

pub fn put_pass(words: &mut [u64], pass: Pass)
    requires { Long words.old }
    ensures { PassBeside words.old pass words.new }
{
    words[PASS_AT] = pass.rounds as u64;
    words[PASS_FREED_AT] = pass.freed as u64;
}

// All that is kept beside the counters, with the version.
pub fn put_kept(words: &mut [u64], used: u32, rows: [Row; 8], queued: usize, pass: Pass)
    requires { Long words.old }
    ensures { words.new ≡ with_bytes words.old 0 (kept_of used rows queued pass) }
{
    words[0] = joined(VERSION, used);
    for (i, row) in rows.iter().enumerate() {
        put_row_from(words, 1 + ROW_WORDS * i, *row);
    }
    words[QUEUED_AT] = queued as u64;
    words[PASS_AT] = pass.rounds as u64;
    words[PASS_FREED_AT] = pass.freed as u64;
}

pub fn put_counters(words: &mut [u64], counters: Counters)
    requires { Long words.old }
    ensures { words.new ≡ with_bytes words.old counters_at (counter_words counters) }
{
    words[KERNEL_USED_AT] = counters.kernel_used as u64;
    words[PAGE_DATA_AT] = counters.page_data as u64;
    words[IDLE_AT] = counters.idle as u64;
    words[TOTAL_AT] = counters.total as u64;
    words[ALLOCATED_AT] = counters.allocated as u64;
    words[FREED_AT] = counters.freed as u64;
    words[RECLAIMED_AT] = counters.reclaimed as u64;
    words[WAITING_AT] = counters.waiting as u64;
    words[PAGER_OUTSTANDING_AT] = counters.pager_outstanding as u64;
}
