// Prints the cut sheet of a stream. Standard input has a line with the syntax code, 0, 1 or 2, and then the stream;
// standard output gets a line for each frame and a last line. A sheet that lacks the last line is not whole, and then
// standard error says why, but where nobody reads it any more.
#![tactic(auto)]

mod buffers;
mod output;
mod session;

use buffers::TEXT_LEN;
use output::{report_read, report_write};
use session::run;
use std::process::ExitCode;
use text::{Kept, Output, ending, is_left};

fn main(rt: HostRuntime) -> ExitCode {
    let (mut input, mut errors) = (rt.stdin(), rt.stderr());
    let mut sheet: Output<_, TEXT_LEN> = Output::new(Kept::new(rt.stdout()));
    let finished = run(&mut input, &mut sheet);
    let (read_failed, write_failed) = (finished.read_failed(), finished.write_failed());
    let left = is_left(write_failed, sheet.sink.kind());
    if !left {
        report_write(&mut errors, write_failed);
        report_read(&mut errors, read_failed);
    }
    ending(read_failed || write_failed, left)
}
