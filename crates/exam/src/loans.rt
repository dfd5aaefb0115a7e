// All that a call is lent, to read, and the torn test of it (refusal 6), which comes before a call or a list of calls. A call that writes
// is lent the same apart, and makes the test of what it was lent as it stands then.
#![tactic(auto)]

ghost use Rattle.std.specs.Prelude.{ℕ, ◌<◌, slice_index};
ghost use Rattle.words.specs.Words.{Long};

use definition::{Counters, Refusal};

// The counters, and the slices that they are lent beside. The memory's loan is apart: a part of it that a read gives borrows the memory
// alone.
#[derive(Clone, Copy)]
pub struct Loans<'a, 'm> {
    pub counters: Counters,
    pub words: &'a [u64],
    pub records: &'a [u8],
    pub memory: &'m [u8],
    pub queue: &'a [u64],
    pub ghost long: { Long words.now },
}

// That records are bytes: a proof knows it of a parameter, and not of a field behind a reference.
fn are_bytes(records: &[u8])
    ensures { (i : ℕ) → slice_index records.now i < 256 }
{}

impl Loans<'_, '_> {
    ghost use Rattle.exam.specs.Making.{Tests};

    // The torn test of all that is lent: what passes it has what the calls ask for. It is inlined, so that the audit is lent slices and
    // not a place where they are named: of calls in a loop that write nothing the compiler makes one audit then, and not one a turn.
    #[inline(always)]
    pub fn torn_test(&self) -> Result<(), Refusal>
        ensures { let l = self.now in
            Tests l.counters l.words.now l.records.now l.memory.now l.queue.now result }
    {
        are_bytes(self.records);
        if !audit::audit(
            self.counters,
            self.words,
            self.records,
            self.memory.len(),
            self.queue.len(),
        ) {
            return Err(Refusal::Torn);
        }
        Ok(())
    }
}
