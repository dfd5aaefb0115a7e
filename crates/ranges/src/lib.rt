// The contents of held frames, after frame.rs's Frame::zero, set_not_zero and the added fill and write. Each call is lent what it reads and
// writes and promises definition's `step` (exam/specs/Making.antt); the words and counters stay as they are.
#![tactic(auto)]

ghost use Rattle.definition.specs.Calls.{Zero, Dirty, Fill, Write};
ghost use Rattle.definition.specs.World.{record_at};
ghost use Rattle.words.specs.Words.{board_in, rows_in};
ghost use Rattle.exam.specs.Lending.{Same, WritesIn};
ghost use Rattle.exam.specs.Making.{TableIn, Marks};
ghost use Rattle.exam.specs.Promise.{HeldSeen};
ghost use Rattle.ranges.specs.Marking.{RemarkedIn};

use address::PhysAddr;
use allocator::{Seen, Table};
use exam::{Answer, Contents, Reply};

// ---- the mark

// The held frame that was seen is zeroed from now on, or is not; its KERNEL mark stays.
pub fn mark(words: &[u64], records: &mut [u8], seen: Seen, zeroed: bool)
    requires table_in { TableIn words.now records.old }
    requires held_seen { HeldSeen (board_in words.now) (record_at records.old) (rows_in words.now) seen }
    ensures remarked { RemarkedIn words.now records.old seen zeroed records.new }
    ensures table_in { TableIn words.now records.new }
{
    allocator::set_marks(
        words,
        records,
        seen.spot,
        zeroed,
        record::is_kernel(seen.marks),
    );
}

// ---- contents

// Frame::zero, frame.rs 430.
#[tactic(auto, using(exam::proofs::Making::looked_held, crate::proofs::Held::looked_ends, crate::proofs::Held::looked_last))]
pub fn zero(lent: &mut Contents<'_>, pa: PhysAddr) -> Answer
    ensures same { Same lent.old lent.new }
    ensures writes { WritesIn (Zero pa.0) lent.old lent.new result }
{
    let frame = lent.look(pa, 0, 0)?;
    let bytes = exam::frame_bytes(words::board_in(lent.words), frame);
    let at = exam::place(lent.words, frame.spot.page, 0);
    contents::fill(lent.memory, at, bytes as usize, 0);
    mark(lent.words, lent.records, frame, true);
    Ok(Reply {
        address: pa.raw(),
        bytes,
    })
}

// Frame::set_not_zero, frame.rs 443.
#[tactic(auto, using(exam::proofs::Making::looked_held))]
pub fn dirty(words: &[u64], records: &mut [u8], pa: PhysAddr) -> Answer
    requires { TableIn words.now records.old }
    ensures { Marks (Dirty pa.0) words.now records.old records.new result }
{
    let frame = exam::look(Table { words, records }, pa, 0, 0)?;
    mark(words, records, frame, false);
    let bytes = exam::frame_bytes(words::board_in(words), frame);
    Ok(Reply {
        address: pa.raw(),
        bytes,
    })
}

// 01: `len` bytes of a frame, from `offset` on, become `byte`.
#[tactic(auto, using(exam::proofs::Making::looked_held, crate::proofs::Held::looked_ends))]
pub fn fill(lent: &mut Contents<'_>, pa: PhysAddr, offset: u64, len: u64, byte: u8) -> Answer
    ensures same { Same lent.old lent.new }
    ensures writes { WritesIn (Fill pa.0 offset len byte) lent.old lent.new result }
{
    let seen = lent.look(pa, offset, len)?;
    let at = exam::place(lent.words, seen.spot.page, offset);
    contents::fill(lent.memory, at, len as usize, byte);
    mark(lent.words, lent.records, seen, false);
    Ok(Reply {
        address: pa.raw(),
        bytes: len,
    })
}

// 01: the bytes of a frame, from `offset` on, become `bytes`.
#[tactic(auto, using(exam::proofs::Making::looked_held, crate::proofs::Held::looked_ends))]
pub fn write(lent: &mut Contents<'_>, pa: PhysAddr, offset: u64, bytes: &[u8]) -> Answer
    ensures same { Same lent.old lent.new }
    ensures writes { WritesIn (Write pa.0 offset bytes.now) lent.old lent.new result }
{
    let len = bytes.len() as u64;
    let seen = lent.look(pa, offset, len)?;
    let to = exam::place(lent.words, seen.spot.page, offset);
    contents::write(lent.memory, to, bytes);
    mark(lent.words, lent.records, seen, false);
    Ok(Reply {
        address: pa.raw(),
        bytes: len,
    })
}
