// What every call shares: its answer, the loans that it reads with their torn test (refusal 6), and the refusals of a frame that must be
// held (11 to 14). A call is lent what it reads and writes of the state, and promises `Makes` of specs/Making.antt.
#![tactic(auto)]

ghost use Rattle.std.specs.Prelude.{◌≡◌, ◌+◌, ◌*◌, ◌<◌, ◌^◌};
ghost use Rattle.definition.specs.Board.{Fit};
ghost use Rattle.words.specs.Words.{board_in};
ghost use Rattle.exam.specs.Promise.{LevelKnown, Leveled, both_held, bytes_if, held_as};
ghost use Rattle.exam.specs.Making.{LooksIn};

mod lending;
mod loans;

use address::PhysAddr;
use allocator::{Seen, Table};
use definition::{Board, Refusal};
pub use lending::Contents;
pub use loans::Loans;

// What an accepted call answers: an address and a count of bytes, as 01's script prints them.
#[derive(Clone, Copy)]
pub struct Reply {
    pub address: u64,
    pub bytes: u64,
}

// What a call answers that may be refused.
pub type Answer = Result<Reply, Refusal>;

// ---- the tests of a call

// The bytes of the frame that starts at a page that was seen, 0 where none does.
pub fn frame_bytes(board: Board, seen: Seen) -> u64
    requires fit { Fit board }
    requires level_known { LevelKnown seen }
    ensures { result ≡ bytes_if board seen }
{
    if !record::is_admitted(seen.marks) {
        return 0;
    }
    let pages = level::pages_at(record::level_of(seen.level));
    (board.page * pages) as u64
}

// Refusals 11 to 14 of a frame that must be held, with a range of it, by what was seen at its address.
fn held(
    board: Board,
    seen: Option<Seen>,
    pa: PhysAddr,
    offset: u64,
    len: u64,
) -> Result<Seen, Refusal>
    requires fit { Fit board }
    requires leveled { Leveled seen }
    ensures { result ≡ held_as board seen pa.0 offset len }
{
    let seen = seen.ok_or(Refusal::Outside)?;
    if !pa.is_aligned_to(board.page as u64) || !record::is_admitted(seen.marks) {
        return Err(Refusal::NoFrameStart);
    }
    if !record::is_allocated(seen.marks) {
        return Err(Refusal::NotHeld);
    }
    let bytes = frame_bytes(board, seen);
    if bytes < offset || bytes - offset < len {
        return Err(Refusal::PastTheEnd);
    }
    Ok(seen)
}

// What a call finds at an address: the held frame that starts there and has the range, or the refusal that it meets.
pub fn look(table: Table, pa: PhysAddr, offset: u64, len: u64) -> Result<Seen, Refusal>
    ensures { LooksIn table.entry.words.now table.entry.records.now pa.0 offset len result }
{
    let seen = table.see(pa);
    held(words::board_in(table.words), seen, pa, offset, len)
}

// Where a byte of a page stands in the lent memory.
pub fn place(words: &[u64], page: usize, offset: u64) -> usize
    requires { (board_in words.now).page * page + offset < 2 ^ 64 }
    ensures { result ≡ (board_in words.now).page * page + offset }
{
    let board = words::board_in(words);
    board.page * page + offset as usize
}

// What was found at two addresses, or of two refusals that which is tried first.
pub fn both(a: Result<Seen, Refusal>, b: Result<Seen, Refusal>) -> Result<(Seen, Seen), Refusal>
    ensures { result ≡ both_held a b }
{
    match (a, b) {
        (Ok(a), Ok(b)) => Ok((a, b)),
        (Err(a), Err(b)) => Err(a.earlier(b)),
        (Err(a), Ok(_)) => Err(a),
        (Ok(_), Err(b)) => Err(b),
    }
}
