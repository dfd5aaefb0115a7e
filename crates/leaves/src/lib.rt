// What bench/ times: loops over the records, the lists, the allocator of one region and the contents of memory, exported on slices and
// numbers. Nothing else calls them. Each tests what it was lent and answers 0 where the loan does not fit; a loan of records that fits has
// one for each page, and at most 1,048,576.
#![tactic(auto)]

ghost use Rattle.std.specs.Prelude.{◌≡◌, ◌+◌, ◌≤◌, ◌<◌, ◌^◌, ◌&&◌, leb, is_some, IfSome};
ghost use Rattle.definition.specs.Board.{standard};
ghost use Rattle.definition.specs.World.{record_at};
ghost use Rattle.record.specs.Records.{pages_in};
ghost use Rattle.list.specs.Linked.{Sound};
ghost use Rattle.words.specs.Words.{Long, InUse, row_of, rows_in};
ghost use Rattle.region.specs.Rep.{SoundAt, SoundRow, WholeAt, WholeRow, managed};
ghost use Rattle.leaves.specs.Contents.{inside, turns_if, filled, copied};

use address::PhysAddr;
use definition::{Board, Links, Pass, Record, Row};
use level::Level;
use region::AllocationRegion;

// Whether a loan of records has one for each of `count` pages, and at most 1,048,576.
fn fits(records: &[u8], count: usize) -> bool
    ensures { result ≡ (leb count (pages_in records.now) && leb (pages_in records.now) 1048576) }
{
    let most = records.len() / 16;
    count <= most && most <= 1048576
}

fn store_all(records: &mut [u8], count: usize)
    requires { (count ≤ pages_in records.old) × (count ≤ 1048576) }
{
    for i in 0..count {
        let n = i as u32;
        record::store(
            records,
            i,
            Record {
                marks: 1,
                level: 2,
                earlier: n,
                later: n + 1,
            },
        );
    }
}

// Stores a record for each of the first `count` pages.
#[unsafe(no_mangle)]
pub extern "C" fn leaves_store(records: &mut [u8], count: usize) -> usize
    ensures { count ≤ pages_in records.old → pages_in records.old ≤ 1048576 → result ≡ count }
{
    if !fits(records, count) {
        return 0;
    }
    store_all(records, count);
    count
}

fn load_all(records: &[u8], count: usize) -> u64
    requires { (count ≤ pages_in records.now) × (count ≤ 1048576) }
{
    let mut sum: u64 = 0;
    // Not `(0..count).map(..).sum()`: its bound would be a law of the whole chain, and here it is one line of the loop's invariant.
    for i in 0..count {
        let r = record::load(records, i);
        sum += u64::from(r.marks) + u64::from(r.level) + u64::from(r.earlier) + u64::from(r.later);
    }
    sum
}

// The sum of the numbers in the records of the first `count` pages.
#[unsafe(no_mangle)]
pub extern "C" fn leaves_load(records: &[u8], count: usize) -> u64 {
    if !fits(records, count) {
        return 0;
    }
    load_all(records, count)
}

fn push_all(records: &mut [u8], count: usize) -> Links
    requires { (count ≤ pages_in records.old) × (pages_in records.old < 2 ^ 32) }
    ensures sound { Sound (record_at records.new) (pages_in records.new) result }
    ensures count_value { result.count ≡ count }
{
    let mut l = list::EMPTY;
    for i in 0..count {
        l = list::push_back(records, l, i);
    }
    l
}

fn pop_all(records: &mut [u8], list: Links, count: usize) -> usize
    requires sound { Sound (record_at records.old) (pages_in records.old) list }
    requires count_value { list.count ≡ count }
    ensures { result ≡ count }
{
    let mut l = list;
    for i in 0..count {
        let Some((_, rest)) = list::pop_back(records, l) else {
            return i;
        };
        l = rest;
    }
    count
}

// Pushes the first `count` pages on an empty list.
#[unsafe(no_mangle)]
pub extern "C" fn leaves_push(records: &mut [u8], count: usize) -> usize
    ensures { count ≤ pages_in records.old → pages_in records.old ≤ 1048576 → result ≡ count }
{
    if !fits(records, count) {
        return 0;
    }
    push_all(records, count).count as usize
}

// Pushes the first `count` pages on an empty list, and pops them all.
#[unsafe(no_mangle)]
pub extern "C" fn leaves_push_pop(records: &mut [u8], count: usize) -> usize
    ensures { count ≤ pages_in records.old → pages_in records.old ≤ 1048576 → result ≡ count }
{
    if !fits(records, count) {
        return 0;
    }
    let l = push_all(records, count);
    pop_all(records, l, count)
}

// Lays a region out from page 0 on, if it has at most 1,048,576 pages and the loan fits those that it manages.
fn laid_out(records: &mut [u8], start: u64, pages: usize) -> Option<Row>
    ensures fits_value { is_some result ≡ (leb pages 1048576
        && (leb (managed standard pages) (pages_in records.old) && leb (pages_in records.old) 1048576)) }
    ensures sound { IfSome result (λ row. SoundRow standard (record_at records.new) (pages_in records.new) 0 row) }
    ensures whole { IfSome result (λ row. WholeRow standard (record_at records.new) 0 row) }
{
    let board = definition::standard();
    if 1048576 < pages || !fits(records, pages - region::table_pages(board, pages)) {
        return None;
    }
    Some(region::new(board, records, 0, PhysAddr::new(start), pages))
}

// Makes the words those of a state whose one row is `row`.
fn keep(words: &mut [u64], row: Row)
    requires { Long words.old }
    ensures { InUse words.new 0 × (row_of (rows_in words.new) 0 ≡ row) }
{
    let unused = region::empty_row(PhysAddr::new(0), 0);
    let mut rows = [unused; 8];
    rows[0] = row;
    words::put_kept(
        words,
        1,
        rows,
        0,
        Pass {
            rounds: 0,
            freed: 0,
        },
    );
}

fn grant_all(
    board: Board,
    records: &mut [u8],
    words: &mut [u64],
    level: Level,
    times: usize,
) -> usize
    requires sound_at { SoundAt board records.old 0 words.old 0 }
    requires whole_at { WholeAt board records.old 0 words.old 0 }
    ensures { result ≤ times }
{
    for i in 0..times {
        let mut region = AllocationRegion {
            records,
            first: 0,
            words,
            index: 0,
        };
        if region.allocate(board, level, false, false).is_none() {
            return i;
        }
    }
    times
}

// Lays a region out, makes up to `times` grants of a level, and answers how many there were. The first grant that finds its list empty
// splits a frame of the next level.
#[unsafe(no_mangle)]
pub extern "C" fn leaves_grants(
    records: &mut [u8],
    start: u64,
    pages: usize,
    level: usize,
    times: usize,
) -> usize
    ensures { result ≤ times }
{
    if 2 < level {
        return 0;
    }
    let Some(row) = laid_out(records, start, pages) else {
        return 0;
    };
    let mut words = [0u64; words::STATE_WORDS];
    keep(&mut words, row);
    grant_all(
        definition::standard(),
        records,
        &mut words,
        Level::at(level),
        times,
    )
}

// Lays a region out, and answers how many of its frames are small.
#[unsafe(no_mangle)]
pub extern "C" fn leaves_new(records: &mut [u8], start: u64, pages: usize) -> usize {
    let Some(row) = laid_out(records, start, pages) else {
        return 0;
    };
    row.lists[0].count as usize
}

// Whether `len` bytes from `at` on lie in a loan of `most`.
fn lies(at: usize, len: usize, most: usize) -> bool
    ensures { result ≡ leb (at + len) most }
{
    len <= most && at <= most - len
}

// Fills a range, `times` times, each time with another byte, so that no turn can be left out.
#[unsafe(no_mangle)]
pub extern "C" fn leaves_fill(memory: &mut [u8], at: usize, len: usize, times: usize) -> usize
    ensures value { result ≡ turns_if (inside memory.old at len) times }
    ensures memory_after { memory.new ≡ filled at len result memory.old }
{
    if !lies(at, len, memory.len()) {
        return 0;
    }
    for i in 0..times {
        contents::fill(memory, at, len, (i % 256) as u8);
    }
    times
}

// Copies a range to another, which it may overlap, `times` times.
#[unsafe(no_mangle)]
pub extern "C" fn leaves_copy(
    memory: &mut [u8],
    to: usize,
    from: usize,
    len: usize,
    times: usize,
) -> usize
    ensures value { result ≡ turns_if (inside memory.old to len && inside memory.old from len) times }
    ensures memory_after { memory.new ≡ copied to from len result memory.old }
{
    if !lies(to, len, memory.len()) || !lies(from, len, memory.len()) {
        return 0;
    }
    for _ in 0..times {
        contents::copy(memory, to, from, len);
    }
    times
}
