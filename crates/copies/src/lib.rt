// The contents of held frames, read and copied, after frame.rs's copy_contents_from and copy_contents_from_physaddr and the added read.
// Each call is lent what it reads and writes and promises definition's `step` (exam/specs/Making.antt); the words and counters stay as
// they are.
#![tactic(auto)]

ghost use Rattle.std.specs.Prelude.{◌≡◌, ◌&&◌, ◌+◌, ◌≤◌, eqb, length};
ghost use Rattle.definition.specs.Board.{Fit};
ghost use Rattle.definition.specs.Contents.{zero_range, copy_contents_from};
ghost use Rattle.definition.specs.Calls.{Copy, Pcopy};
ghost use Rattle.words.specs.Words.{board_in, Long, rows_in};
ghost use Rattle.allocator.specs.Spots.{number_in};
ghost use Rattle.exam.specs.Promise.{LevelKnown, bytes_if};
ghost use Rattle.exam.specs.Lending.{Same, WritesIn};
ghost use Rattle.exam.specs.Making.{TableIn};
ghost use Rattle.copies.specs.Copies.{FindsIn, SpansIn, WritesBy, MovesTo, Placed, place_seen};

use address::PhysAddr;
use allocator::{Seen, Table};
use definition::{Board, Refusal};
use exam::{Answer, Contents, Reply};

// ---- read

// Where the bytes that are read stand in the memory.
#[tactic(auto, using(crate::proofs::Reading::place_small, crate::proofs::Reading::finds_place, crate::proofs::Reading::finds_refused))]
pub fn read_place(table: Table, pa: PhysAddr, offset: u64, len: u64) -> Result<usize, Refusal>
    ensures { FindsIn table.entry.words.now table.entry.records.now pa.0 offset len result }
{
    let seen = exam::look(table, pa, offset, len)?;
    Ok(exam::place(table.words, seen.spot.page, offset))
}

// ---- copy

// Whether a range is all of the frame that was seen.
fn is_whole(board: Board, seen: Seen, offset: u64, len: u64) -> bool
    requires fit { Fit board }
    requires level_known { LevelKnown seen }
    ensures { result ≡ (eqb offset 0 && eqb len (bytes_if board seen)) }
{
    offset == 0 && len == exam::frame_bytes(board, seen)
}

// Bytes of a held frame become 0; 01: "sets the mark if that is the whole frame".
fn zero_range(lent: &mut Contents<'_>, to: Seen, offset: u64, len: u64)
    requires { SpansIn lent.old to offset len }
    ensures same { Same lent.old lent.new }
    ensures writes { let ws = lent.old.words.now in
        WritesBy (λ s. zero_range (board_in ws) s (number_in ws to.spot) offset len) lent.old lent.new }
{
    let at = exam::place(lent.words, to.spot.page, offset);
    contents::fill(lent.memory, at, len as usize, 0);
    if is_whole(words::board_in(lent.words), to, offset, len) {
        ranges::mark(lent.words, lent.records, to, true);
    }
}

// Bytes of the loan, from `from` on, go to a held frame, which is not zeroed then.
fn move_into(lent: &mut Contents<'_>, to: Seen, offset: u64, from: usize, len: u64)
    requires spans_in { SpansIn lent.old to offset len }
    requires from_in { from + len ≤ length lent.old.memory.now }
    ensures same { Same lent.old lent.new }
    ensures moves { MovesTo to.spot offset from len lent.old lent.new }
{
    let at = exam::place(lent.words, to.spot.page, offset);
    contents::copy(lent.memory, at, from, len as usize);
    ranges::mark(lent.words, lent.records, to, false);
}

// Frame::copy_contents_from, frame.rs 491, of two held frames.
fn copy_contents_from(
    lent: &mut Contents<'_>,
    to: Seen,
    offset: u64,
    from: Seen,
    from_offset: u64,
    len: u64,
)
    requires to_in { SpansIn lent.old to offset len }
    requires from_in { SpansIn lent.old from from_offset len }
    ensures same { Same lent.old lent.new }
    ensures writes { let ws = lent.old.words.now in
        WritesBy (λ s. copy_contents_from (board_in ws) s (number_in ws to.spot) offset (number_in ws from.spot) from_offset len)
        lent.old lent.new }
{
    if !record::is_zeroed(from.marks) {
        let at = exam::place(lent.words, from.spot.page, from_offset);
        move_into(lent, to, offset, at, len);
    } else if !record::is_zeroed(to.marks) {
        zero_range(lent, to, offset, len);
    }
}

// `len` bytes of one held frame go to another, as if all were read first.
pub fn copy(
    lent: &mut Contents<'_>,
    target: PhysAddr,
    target_offset: u64,
    source: PhysAddr,
    source_offset: u64,
    len: u64,
) -> Answer
    ensures same { Same lent.old lent.new }
    ensures writes { WritesIn (Copy target.0 target_offset source.0 source_offset len) lent.old lent.new result }
{
    let to = lent.look(target, target_offset, len);
    let from = lent.look(source, source_offset, len);
    let (to, from) = exam::both(to, from)?;
    copy_contents_from(lent, to, target_offset, from, source_offset, len);
    Ok(Reply {
        address: target.raw(),
        bytes: len,
    })
}

// ---- pcopy

// Refusals 11 and 14 of a physical source, which need only be managed, up to the end of its region.
fn placed(words: &[u64], seen: Option<Seen>, pa: PhysAddr, len: u64) -> Result<Seen, Refusal>
    requires { Long words.now × Placed (board_in words.now) (rows_in words.now) seen pa.0 }
    ensures { result ≡ place_seen (board_in words.now) (rows_in words.now) seen pa.0 len }
{
    let seen = seen.ok_or(Refusal::Outside)?;
    let page = words::board_in(words).page;
    let row = words::row_at(words, seen.spot.index);
    let end = page * (row.start.page_number(page) + row.pages);
    if (end as u64) - pa.raw() < len {
        return Err(Refusal::PastTheEnd);
    }
    Ok(seen)
}

// Frame::copy_contents_from_physaddr, frame.rs 527.
pub fn pcopy(
    lent: &mut Contents<'_>,
    target: PhysAddr,
    target_offset: u64,
    source: PhysAddr,
    len: u64,
) -> Answer
    ensures same { Same lent.old lent.new }
    ensures writes { WritesIn (Pcopy target.0 target_offset source.0 len) lent.old lent.new result }
{
    let to = lent.look(target, target_offset, len);
    let place = placed(lent.words, lent.see(source), source, len);
    let (to, place) = exam::both(to, place)?;
    let page = words::board_in(lent.words).page as u64;
    let from = exam::place(lent.words, place.spot.page, source.raw() % page);
    move_into(lent, to, target_offset, from, len);
    Ok(Reply {
        address: target.raw(),
        bytes: len,
    })
}
