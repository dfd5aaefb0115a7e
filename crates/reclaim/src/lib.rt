// The reclaim queue and its rounds, after tracker.rs's reclaim_main. Each call is lent what it reads and writes and promises definition's
// `step` (exam/specs/Making.antt).
#![tactic(auto)]

ghost use Rattle.std.specs.Prelude.{◌≡◌, ◌<◌, ◌≤◌, ◌^◌, length, Ok};
ghost use Rattle.definition.specs.Calls.{Queue, Round};
ghost use Rattle.definition.specs.World.{record_at};
ghost use Rattle.record.specs.Records.{pages_in};
ghost use Rattle.words.specs.Words.{board_in, Long, queued_in, Beside};
ghost use Rattle.exam.specs.Promise.{reply, state_with};
ghost use Rattle.exam.specs.Making.{TableIn, Few, PassIn, Queues, Rounds};
ghost use Rattle.reclaim.specs.Rounds.{Reclaims, EndsPass};

use address::PhysAddr;
use allocator::Table;
use definition::{Counters, Pass, Refusal};
use exam::{Answer, Reply};

// ---- the reclaim queue and its rounds

// An address goes to the queue's end.
pub fn queue(words: &mut [u64], records: &[u8], queue: &mut [u64], pa: PhysAddr) -> Answer
    requires { TableIn words.old records.now }
    ensures queues { Queues (Queue pa.0)
        words.old records.now queue.old
        words.new queue.new result }
    ensures beside { Beside words.old words.new }
{
    let seen = exam::look(Table { words, records }, pa, 0, 0)?;
    let last = words::queued_in(words);
    if queue.len() <= last {
        return Err(Refusal::QueueFull);
    }
    let board = words::board_in(words);
    queue[last] = pa.raw();
    words::put_queued(words, last + 1);
    Ok(Reply {
        address: pa.raw(),
        bytes: exam::frame_bytes(board, seen),
    })
}

// reclaim_main, tracker.rs 429: up to so many addresses off the queue's end, each freed, or dropped where it can't be.
fn reclaim_up_to(
    counters: &mut Counters,
    words: &mut [u64],
    records: &mut [u8],
    queue: &[u64],
    limit: usize,
) -> usize
    requires table_in { TableIn words.old records.old }
    requires words_in_bounds { (queued_in words.old ≤ length queue.now) × (counters.old.idle < 2 ^ 62) × (limit ≤ 1000) }
    ensures reclaims { Reclaims (board_in words.old)
        (record_at records.old) (state_with counters.old words.old) queue.now limit
        (record_at records.new) (pages_in records.new)
        (record { state = state_with counters.new words.new; freed = result }) }
    ensures beside { Beside words.old words.new }
{
    let mut freed: usize = 0;
    for _ in 0..limit {
        let left = words::queued_in(words);
        if left == 0 {
            return freed;
        }
        words::put_queued(words, left - 1);
        let pa = PhysAddr::new(queue[left - 1]);
        if let Ok(seen) = exam::look(Table { words, records }, pa, 0, 0) {
            frames::release(counters, words, records, seen);
            freed += 1;
        }
    }
    freed
}

// reclaim_main, tracker.rs 419 to 457: one turn of its loop; a call that finds the store not low, or that goes past the round limit, ends
// the pass.
pub fn round(counters: &mut Counters, words: &mut [u64], records: &mut [u8], queue: &[u64]) -> Reply
    requires table_in { TableIn words.old records.old }
    requires few { Few counters.old }
    requires pass_in { PassIn words.old queue.now }
    ensures rounds { Rounds Round
        counters.old words.old records.old queue.now
        counters.new words.new records.new (Ok result) }
    ensures beside { Beside words.old words.new }
{
    let board = words::board_in(words);
    let before = words::pass_in(words);
    if !tracker::should_reclaim(board, *counters) {
        return end_pass(counters, words, before);
    }
    let freed = reclaim_up_to(counters, words, records, queue, board.per_round);
    let pass = Pass {
        rounds: before.rounds + 1,
        freed: before.freed + freed,
    };
    if board.max_rounds < before.rounds {
        return end_pass(counters, words, pass);
    }
    words::put_pass(words, pass);
    reported(pass)
}

// tracker.rs 457: what the pass freed is counted, and the next pass begins at 0.
fn end_pass(counters: &mut Counters, words: &mut [u64], pass: Pass) -> Reply
    requires { Long words.old }
    ensures ends_pass { EndsPass (state_with counters.old words.old) pass
        (state_with counters.new words.new) result }
    ensures beside { Beside words.old words.new }
{
    let none = Pass {
        rounds: 0,
        freed: 0,
    };
    words::put_pass(words, none);
    *counters = tracker::track_reclaimed(*counters, pass.freed);
    reported(pass)
}

// The rounds of a pass and the frames that it freed, where a call answers an address and bytes.
fn reported(pass: Pass) -> Reply
    ensures { result ≡ reply pass.rounds pass.freed }
{
    Reply {
        address: pass.rounds as u64,
        bytes: pass.freed as u64,
    }
}
