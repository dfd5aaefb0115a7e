// The run of a whole script for C and Rust, in libscript.a: the library's own, with its promise.
#![tactic(auto)]

ghost use Rattle.script.specs.Running.{program_board, Ran};

// The whole script. Returns the bytes written; 0 with nothing written and nothing run where the answer slice is under 512 bytes for each
// line plus 512.
#[unsafe(no_mangle)]
pub extern "C" fn jilakkor_run(
    script: &[u8],
    records: &mut [u8],
    memory: &mut [u8],
    queue: &mut [u64],
    answer: &mut [u8],
) -> usize
    ensures { Ran program_board script.now
        (record { records = records.old; memory = memory.old; queue = queue.old }) answer.old
        (record { records = records.new; memory = memory.new; queue = queue.new }) answer.new result }
{
    script::jilakkor_run(script, records, memory, queue, answer)
}
