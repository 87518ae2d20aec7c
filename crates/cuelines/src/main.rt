// Prints the lines of a cut sheet whose frames sound at given times. Standard input has a line with the syntax code, 0,
// 1 or 2, and one to 32 times in ticks of 1/90000 second, a space before each; and then the stream. Standard output
// gets for each time the line of the frame that sounds then, or a line with the word none, and behind them the sheet's
// last line. Where a read fails it gets nothing, and standard error says so.
#![tactic(auto)]

mod found;
mod request;
mod session;

use session::{Failure, report_read, report_write, run};
use std::process::ExitCode;
use text::{Kept, Output, ending, is_left};

fn main(rt: HostRuntime) -> ExitCode {
    let (mut input, mut output, mut errors) = (
        rt.stdin(),
        Output::new(Kept::new(rt.stdout())),
        rt.stderr(),
    );
    let ended = run(&mut input, &mut output);
    let write_failed = matches!(ended, Err(Failure::Write));
    let left = is_left(write_failed, output.sink.kind());
    if !left {
        report_write(&mut errors, write_failed);
        report_read(&mut errors, matches!(ended, Err(Failure::Read)));
    }
    ending(ended.is_err(), left)
}
