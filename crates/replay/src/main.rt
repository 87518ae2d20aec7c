// Answers each line of standard input, a call of the splitter, by one line on standard output: what the call answered,
// the state that it handed back, what it wrote, and whether it left everything else as it was.
#![tactic(auto)]

mod buffers;
mod payload;
mod print;
mod replay;
mod request;
mod words;

use replay::{report_write, run};
use std::process::ExitCode;
use text::{Kept, Output, ending, is_left};

fn main(rt: HostRuntime) -> ExitCode {
    let (mut input, mut errors) = (rt.stdin(), rt.stderr());
    let mut output = Output::new(Kept::new(rt.stdout()));
    let read_failed = run(&mut input, &mut output, &mut errors);
    let left = is_left(output.failed, output.sink.kind());
    report_write(&mut errors, output.failed && !left);
    ending(read_failed || output.failed, left)
}
