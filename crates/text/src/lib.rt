// Texts and decimal numbers, written into a lent slice from a place on. Each function answers the place behind what it wrote, so that
// calls follow one another, and its contract fixes every byte of the slice (`Wrote`).
#![tactic(auto)]

ghost use Rattle.std.specs.Prelude.{◌++◌, ◌+◌, ◌≤◌, length};
ghost use Rattle.definition.specs.Text.{digits_of};
ghost use Rattle.text.specs.Writing.{Wrote};

// The bytes of `text`.
pub fn put_text(out: &mut [u8], at: usize, text: &[u8]) -> usize
    requires { at + length text.now ≤ length out.old }
    ensures { Wrote out.old at text.now out.new result }
{
    contents::write(out, at, text);
    at + text.len()
}

// The decimal digits of `n`.
#[tactic(auto, using(crate::proofs::Digits::digits_decimal, crate::proofs::Digits::length_digits))]
pub fn put_number(out: &mut [u8], at: usize, n: u64) -> usize
    requires { at + 20 ≤ length out.old }
    ensures wrote { Wrote out.old at (digits_of n) out.new result }
    ensures upper_bound { result ≤ at + 20 }
{
    let mut buffer = itoa::Buffer::new();
    let digits = buffer.format(n).as_bytes();
    put_text(out, at, digits)
}

// A text and the decimal digits of `n` behind it.
pub fn put_named(out: &mut [u8], at: usize, name: &[u8], n: u64) -> usize
    requires { at + length name.now + 20 ≤ length out.old }
    ensures wrote { Wrote out.old at (name.now ++ digits_of n) out.new result }
    ensures upper_bound { result ≤ at + length name.now + 20 }
{
    let next = put_text(out, at, name);
    put_number(out, next, n)
}
