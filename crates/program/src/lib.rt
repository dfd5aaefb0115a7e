// What the programs share: all of an input, read to its end, and a script run on the loans of 01's program.
#![tactic(auto)]

ghost use Rattle.std.specs.Prelude.{◌≡◌, length};
ghost use Rattle.program.specs.declared.InputError.TheVariants.{Failed};
ghost use Rattle.program.specs.Once.{RanOnce, Below};
ghost use Rattle.program.specs.Inputs.{Holds, Zeros};

use std::error::Error;
use std::io::Read;
use std::{fmt, io};

// Why an input was not read to its end: it was longer than there was room for, or a read failed.
#[derive(Debug, Drop)]
pub enum InputError {
    TooLong,
    Failed(io::Error),
}

impl fmt::Display for InputError {
    fn fmt<W: fmt::Write>(&self, f: &mut fmt::Formatter<W>) -> fmt::Result {
        match self {
            InputError::TooLong => write!(f, "the input is too long"),
            InputError::Failed(error) => write!(f, "{error}"),
        }
    }
}

impl Error for InputError {}

impl From<io::Error> for InputError {
    ghost from_gives = { λ error gave. gave ≡ Failed error };

    fn from(error: io::Error) -> InputError {
        InputError::Failed(error)
    }
}

// All of the input, at the front of `buf`, which has to be longer than the input. A read that fails is not taken for the end.
#[tactic(auto, using(crate::proofs::Inputs::reads_more))]
pub fn read_all<R: Read>(reader: &mut R, buf: &mut [u8]) -> Result<usize, InputError>
    ensures below { Below (length buf.new) result }
    ensures bytes { Holds (R.remaining reader.old) (R.remaining reader.new) buf.new result }
{
    // Not a `for`: a read says by how much it goes on.
    let mut at: usize = 0;
    while at < buf.len() {
        let n = reader.read(&mut buf[at..])?;
        if n == 0 {
            return Ok(at);
        }
        at += n;
    }
    Err(InputError::TooLong)
}

// What the program prints for a script, at the front of `answer`, and how many bytes it is. Nothing where the answer slice is under 512
// bytes for each line plus 512, and only there.
#[tactic(auto, using(crate::proofs::Once::printed_some))]
pub fn run_once(script: &[u8], answer: &mut [u8]) -> Option<usize>
    ensures { RanOnce script.now answer.old answer.new result }
{
    let mut records = [0u8; 256];
    let mut memory = [0u8; 65536];
    let mut queue = [0u64; 64];
    match script::jilakkor_run(script, &mut records, &mut memory, &mut queue, answer) {
        0 => None,
        n => Some(n),
    }
}

// Zeros to read into or to write over. It is a function of its own so that a proof takes the length from its type: one that sees the
// zeros themselves counts them.
pub fn room_of<const N: usize>() -> [u8; N]
    ensures { Zeros N result }
{
    [0; N]
}

// Room for the answers to 8,191 lines: 512 bytes for each, plus 512.
pub fn answer_room() -> [u8; 4194304] {
    room_of()
}
