// The bytes of the lent memory: a range filled, written, copied, or lent as a part (frame.rs 430 to 541 without the frames and their
// marks). Each contract is an equation on the whole loan: `with_bytes bs at xs` is bs but for the bytes of xs from `at` on.
#![tactic(auto)]

ghost use Rattle.std.specs.Prelude.{◌≡◌, ◌+◌, ◌<◌, ◌≤◌, length, take, drop, replicate};
ghost use Rattle.record.specs.Records.{with_bytes};

// frame.rs 435 and 505, slice.fill: `len` bytes from `at` on become `byte`.
pub fn fill(memory: &mut [u8], at: usize, len: usize, byte: u8)
    requires { at + len ≤ length memory.old }
    ensures { memory.new ≡ with_bytes memory.old at (replicate len byte) }
{
    memory[at..at + len].fill(byte);
}

// 01, "Added `write`": all of `bytes`, from `at` on.
pub fn write(memory: &mut [u8], at: usize, bytes: &[u8])
    requires { at + length bytes.now ≤ length memory.old }
    ensures { memory.new ≡ with_bytes memory.old at bytes.now }
{
    memory[at..at + bytes.len()].copy_from_slice(bytes);
}

// The bytes that are moved at a time where a copy overlaps itself.
const BLOCK: usize = 4096;

// `n` bytes from `from` to `to` by way of `block`: all are read before the first is written.
fn move_block(memory: &mut [u8], to: usize, from: usize, n: usize, block: &mut [u8])
    requires { (to + n ≤ length memory.old) × (from + n ≤ length memory.old) × (n ≤ length block.old) }
    ensures { memory.new ≡ with_bytes memory.old to (take n (drop from memory.old)) }
{
    write(block, 0, &memory[from..from + n]);
    write(memory, to, &block[..n]);
}

// To a lower place, the first block first, so that no byte is written before it is read.
fn copy_lower(memory: &mut [u8], to: usize, from: usize, len: usize)
    requires { (to ≤ from) × (from + len ≤ length memory.old) }
    ensures { memory.new ≡ with_bytes memory.old to (take len (drop from memory.old)) }
{
    let mut block = [0u8; BLOCK];
    let mut done: usize = 0;
    while done < len {
        let n = BLOCK.min(len - done);
        move_block(memory, to + done, from + done, n, &mut block);
        done += n;
    }
}

// To a higher place, the last block first, for the same reason.
fn copy_higher(memory: &mut [u8], to: usize, from: usize, len: usize)
    requires { (from ≤ to) × (to + len ≤ length memory.old) }
    ensures { memory.new ≡ with_bytes memory.old to (take len (drop from memory.old)) }
{
    let mut block = [0u8; BLOCK];
    let mut left = len;
    while left > 0 {
        let n = BLOCK.min(left);
        left -= n;
        move_block(memory, to + left, from + left, n, &mut block);
    }
}

// frame.rs 522 and 539, slice.copy_from_slice; 01: "Overlapping copies act as if all was read first". Parts that overlap go by blocks,
// and not by `copy_within`: its loop moves 32 bytes a turn, and takes up to twice a memmove.
pub fn copy(memory: &mut [u8], to: usize, from: usize, len: usize)
    requires { (to + len ≤ length memory.old) × (from + len ≤ length memory.old) }
    ensures { memory.new ≡ with_bytes memory.old to (take len (drop from memory.old)) }
{
    if to + len <= from {
        let (low, high) = memory.split_at_mut(from);
        write(low, to, &high[..len]);
    } else if from + len <= to {
        let (low, high) = memory.split_at_mut(to);
        write(high, 0, &low[from..from + len]);
    } else if to < from {
        copy_lower(memory, to, from, len);
    } else if from < to {
        copy_higher(memory, to, from, len);
    }
}

// 01, "Added `read`": `len` bytes from `at` on as a part of the loan, also none at its very end.
pub fn part(memory: &[u8], at: usize, len: usize) -> &[u8]
    requires { at + len ≤ length memory.now }
    ensures { result.now ≡ take len (drop at memory.now) }
{
    &memory[at..at + len]
}
