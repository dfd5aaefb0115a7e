// The script program of 01: it reads a script from standard input, to its end, and prints what `program::run_once` promises, definition's
// `output_of` on the program's loans. A script has at most 262,144 bytes and 8,191 lines. Where it has more, one line on standard error
// says so and nothing is printed. Where it can't be read, nothing is printed, and there as where the answers can't be written whole, a
// line on standard error says so and the exit status is 1.
#![tactic(auto)]

ghost use Rattle.std.specs.Prelude.{length, OnOk, IfSome};
ghost use Rattle.jilakkor.specs.Answering.{Answers, Prints};

use anyhow::{Context, Result};
use program::InputError;
use std::io::{Read, Write};

// Where standard error can't be written there is nowhere left to say so.
fn complain(rt: &impl Eprint, line: &str) {
    let _ = rt.eprintln(line);
}

// Where the lines are more than there is room for, nothing is run.
fn print_answers<W: Write>(
    rt: &impl Eprint,
    script: &[u8],
    answers: &mut [u8],
    out: &mut W,
) -> Result<()>
    ensures { OnOk result (Prints script.now (length answers.old) (W.contents out.old) (W.contents out.new)) }
{
    let Some(n) = program::run_once(script, answers) else {
        complain(rt, "jilakkor: the script has more than 8191 lines");
        return Ok(());
    };
    out.write_all(&answers[..n])
        .context("jilakkor: standard output")
}

fn answer<W: Write>(rt: &impl Eprint, script: &[u8], out: &mut W) -> Result<()>
    ensures { OnOk result (Prints script.now 4194304 (W.contents out.old) (W.contents out.new)) }
{
    let mut answers = program::answer_room();
    print_answers(rt, script, &mut answers, out)
}

fn answer_input<R: Read, W: Write>(rt: &impl Eprint, reader: &mut R, out: &mut W) -> Result<()>
    ensures { OnOk result (IfSome (R.remaining reader.old)
        (λ script. Answers script (W.contents out.old) (W.contents out.new))) }
{
    // A byte more than a script may have.
    let mut script = program::room_of::<262145>();
    match program::read_all(reader, &mut script) {
        Ok(n) => answer(rt, &script[..n], out),
        Err(InputError::TooLong) => {
            complain(rt, "jilakkor: the script is longer than 262144 bytes");
            Ok(())
        }
        Err(InputError::Failed(error)) => Err(error).context("jilakkor: standard input"),
    }
}

fn main(rt: HostRuntime) -> Result<()> {
    answer_input(&rt, &mut rt.stdin(), &mut rt.stdout())
}
