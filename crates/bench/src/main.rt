// Measures the splitter: pushes one stream through it again and again, and prints what came out. Standard input has a
// line with the syntax code, the size of a payload and the number of rounds, and then the stream.
#![tactic(auto)]

mod measure;
mod setup;
mod totals;

use measure::run;
use std::process::ExitCode;
use text::{Kept, Output, ending, is_left};

// It says nothing of a read or a write that failed: its status tells.
fn main(rt: HostRuntime) -> ExitCode {
    let (mut input, mut output) = (rt.stdin(), Output::new(Kept::new(rt.stdout())));
    let read_failed = run(&mut input, &mut output);
    let left = is_left(output.failed, output.sink.kind());
    ending(read_failed || output.failed, left)
}
