// The nine counters of the store, after tracker.rs's MemoryTracker: grants and frees counted, whether memory is low, the pager's loan, and
// the statistics as text. Counters go in and come out by value, where the Rust has atomics.
#![tactic(auto)]

ghost use Rattle.std.specs.Prelude.{◌≡◌, ◌+◌, ◌^◌, ◌<◌, ◌≤◌, length};
ghost use Rattle.definition.specs.Board.{Fit};
ghost use Rattle.definition.specs.Tracker.{
  count_alloc,
  count_free,
  track_reclaimed,
  track_frame_pager,
  untrack_frame_pager,
  page_cond,
  kern_cond,
  should_reclaim,
  tracker_stats,
};
ghost use Rattle.text.specs.Writing.{Wrote};
ghost use Rattle.tracker.specs.Stats.{counts_line, hundredths, share_of, share_lines};

use definition::{Board, Counters};

// tracker.rs 69 to 80: so many pages were granted, to the kernel or not. Here and in `count_free` a counter falls to 0 at the lowest, so
// that each count is the definition's on every input. On a sound store nothing is ever cut off.
#[tactic(auto, unfolding(definition::specs::Tracker::count_alloc))]
pub fn count_alloc(c: Counters, pages: usize, kernel: bool) -> Counters
    requires { (c.kernel_used + pages < 2 ^ 64) × (c.page_data + pages < 2 ^ 64) }
    ensures { result ≡ count_alloc pages kernel c }
{
    let granted = Counters {
        idle: c.idle.saturating_sub(pages),
        allocated: c.allocated.wrapping_add(pages),
        ..c
    };
    if kernel {
        Counters {
            kernel_used: c.kernel_used + pages,
            ..granted
        }
    } else {
        Counters {
            page_data: c.page_data + pages,
            ..granted
        }
    }
}

// tracker.rs 42 to 50: so many pages were freed.
#[tactic(auto, unfolding(definition::specs::Tracker::count_free))]
pub fn count_free(c: Counters, pages: usize, kernel: bool) -> Counters
    requires { c.idle + pages < 2 ^ 64 }
    ensures { result ≡ count_free pages kernel c }
{
    let freed = Counters {
        idle: c.idle + pages,
        freed: c.freed.wrapping_add(pages),
        ..c
    };
    if kernel {
        Counters {
            kernel_used: c.kernel_used.saturating_sub(pages),
            ..freed
        }
    } else {
        Counters {
            page_data: c.page_data.saturating_sub(pages),
            ..freed
        }
    }
}

// tracker.rs 212
#[tactic(auto, unfolding(definition::specs::Tracker::track_reclaimed))]
pub fn track_reclaimed(c: Counters, count: usize) -> Counters
    ensures { result ≡ track_reclaimed count c }
{
    Counters {
        reclaimed: c.reclaimed.wrapping_add(count),
        ..c
    }
}

// tracker.rs 216
#[tactic(auto, unfolding(definition::specs::Tracker::track_frame_pager))]
pub fn track_frame_pager(c: Counters, count: usize) -> Counters
    ensures { result ≡ track_frame_pager count c }
{
    Counters {
        pager_outstanding: c.pager_outstanding.wrapping_add(count),
        ..c
    }
}

// tracker.rs 220; 01 refuses what is more than outstanding (15).
#[tactic(auto, unfolding(definition::specs::Tracker::untrack_frame_pager))]
pub fn untrack_frame_pager(c: Counters, count: usize) -> Counters
    requires { count ≤ c.pager_outstanding }
    ensures { result ≡ untrack_frame_pager count c }
{
    Counters {
        pager_outstanding: c.pager_outstanding - count,
        ..c
    }
}

// tracker.rs 173: memory is low where the page data reach a part of the idle pages.
pub fn page_cond(board: Board, c: Counters) -> bool
    requires { Fit board }
    ensures { result ≡ page_cond board c }
{
    c.page_data >= c.idle / board.idle_divisor
}

// tracker.rs 166: or where the idle pages are fewer than so many times the kernel's. The Rust multiplies the kernel's pages, and the
// product may not fit; the idle pages divided and rounded down say the same.
pub fn kern_cond(board: Board, c: Counters) -> bool
    requires { Fit board }
    ensures { result ≡ kern_cond board c }
{
    c.idle / board.kernel_multiple < c.kernel_used
}

// tracker.rs 180: memory is low.
pub fn should_reclaim(board: Board, c: Counters) -> bool
    requires { Fit board }
    ensures { result ≡ should_reclaim board c }
{
    page_cond(board, c) || kern_cond(board, c)
}

// How many hundredths of the total `n` is; 01: "With total 0, percentages print 0".
fn percent(n: usize, total: usize) -> usize
    requires { n < 2 ^ 57 }
    ensures { result ≡ hundredths n total }
{
    (n * 100).checked_div(total).unwrap_or(0)
}

// A name, a counter, its share of the total in hundredths, and what follows.
fn put_share(out: &mut [u8], at: usize, name: &[u8], n: usize, total: usize, end: &[u8]) -> usize
    requires { (at + length name.now + 41 + length end.now ≤ length out.old) × (n < 2 ^ 57) }
    ensures wrote { Wrote out.old at (share_of name.now n total end.now) out.new result }
    ensures upper_bound { result ≤ at + length name.now + 41 + length end.now }
{
    let next = text::put_named(out, at, name, n as u64);
    let next = text::put_named(out, next, b" ", percent(n, total) as u64);
    text::put_text(out, next, end)
}

// tracker.rs 243 to 250: the line of the counts.
fn put_counts(out: &mut [u8], at: usize, c: Counters) -> usize
    requires { at + 140 ≤ length out.old }
    ensures wrote { Wrote out.old at (counts_line c) out.new result }
    ensures upper_bound { result ≤ at + 140 }
{
    let next = text::put_named(out, at, b"       total: ", c.total as u64);
    let next = text::put_named(out, next, b" -- a: ", c.allocated as u64);
    let next = text::put_named(out, next, b" f: ", c.freed as u64);
    let next = text::put_named(out, next, b" r: ", c.reclaimed as u64);
    let next = text::put_named(out, next, b", ", c.waiting as u64);
    text::put_text(out, next, b" waiters\n")
}

// tracker.rs 251 to 258: the three lines of the shares.
fn put_shares(out: &mut [u8], at: usize, c: Counters) -> usize
    requires { (at + 201 ≤ length out.old) × (c.idle < 2 ^ 57) × (c.kernel_used < 2 ^ 57) × (c.page_data < 2 ^ 57) }
    ensures wrote { Wrote out.old at (share_lines c) out.new result }
    ensures upper_bound { result ≤ at + 201 }
{
    let next = put_share(out, at, b"        idle: ", c.idle, c.total, b"%\n");
    let next = put_share(out, next, b"      kernel: ", c.kernel_used, c.total, b"%\n");
    let next = put_share(out, next, b"        page: ", c.page_data, c.total, b"% (");
    let next = text::put_number(out, next, c.pager_outstanding as u64);
    text::put_text(out, next, b" loaned)\n")
}

// tracker.rs 235: the five lines of the statistics, from `at` on, and the place behind them. They take at most 368 bytes, 128 of them fixed
// and 20 for each of twelve numbers. The bound on three counters, which the audit keeps far below, lets the percentages be reckoned in 64
// bits.
pub fn print_tracker_stats(out: &mut [u8], at: usize, c: Counters) -> usize
    requires { (at + 368 ≤ length out.old) × (c.idle < 2 ^ 57) × (c.kernel_used < 2 ^ 57) × (c.page_data < 2 ^ 57) }
    ensures wrote { Wrote out.old at (tracker_stats c) out.new result }
    ensures upper_bound { result ≤ at + 368 }
{
    let next = text::put_text(out, at, b"memory status (in frames):\n");
    let next = put_counts(out, next, c);
    put_shares(out, next, c)
}
