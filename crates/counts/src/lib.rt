// The pager's loan, low memory and the statistics. Each call is given the counters, and the words where it wants the board, and promises
// definition's `step` (exam/specs/Making.antt).
#![tactic(auto)]

ghost use Rattle.std.specs.Prelude.{Ok, ◌≡◌, ◌≤◌};
ghost use Rattle.definition.specs.Calls.{Lend, Back, Low};
ghost use Rattle.exam.specs.Making.{Few, Counts, Weighs};
ghost use Rattle.counts.specs.Counting.{outstanding, Reports};

use definition::{Counters, Refusal};
use exam::{Answer, Reply};

// ---- the pager's loan

// track_frame_pager, tracker.rs 216.
pub fn lend(counters: &mut Counters, count: usize) -> Reply
    ensures { Counts (Lend count) counters.old counters.new (Ok result) }
{
    *counters = tracker::track_frame_pager(*counters, count);
    counted(*counters)
}

// untrack_frame_pager, tracker.rs 220.
pub fn back(counters: &mut Counters, count: usize) -> Answer
    ensures { Counts (Back count) counters.old counters.new result }
{
    if counters.pager_outstanding < count {
        return Err(Refusal::PagerLow);
    }
    *counters = tracker::untrack_frame_pager(*counters, count);
    Ok(counted(*counters))
}

// What is outstanding by the counters.
fn counted(counters: Counters) -> Reply
    ensures { result ≡ outstanding counters }
{
    Reply {
        address: 0,
        bytes: counters.pager_outstanding as u64,
    }
}

// ---- low memory, statistics

// should_reclaim, tracker.rs 180: 1 where memory is low.
pub fn low(counters: Counters, words: &[u64]) -> Reply
    ensures { Weighs Low counters words.now (Ok result) }
{
    let board = words::board_in(words);
    Reply {
        address: 0,
        bytes: tracker::should_reclaim(board, counters) as u64,
    }
}

// The statistics as text: the first `len` bytes of `text` are it.
#[derive(Clone, Copy)]
pub struct Report {
    pub len: usize,
    pub text: [u8; 368],
}

// print_tracker_stats, tracker.rs 235.
pub fn stats(counters: Counters) -> Report
    requires { Few counters }
    ensures reports { Reports counters result }
    ensures len_bound { result.len ≤ 368 }
{
    let mut text = [0u8; 368];
    let len = tracker::print_tracker_stats(&mut text, 0, counters);
    Report { len, text }
}
