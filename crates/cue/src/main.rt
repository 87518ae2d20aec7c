// Answers each line of standard input by one line on standard output. A line is a time and the numbers of rows, all in
// decimal with a space between; the answer is the place of the row that sounds then, `none`, `refused 14`, or '?'.
#![tactic(auto)]

mod answer;
mod request;

use answer::Cues;
use std::process::ExitCode;
use text::{Kept, Line, Output, answer_lines, ending, is_left, report};

// How many bytes of a line are kept. No well formed line without leading zeros has more than 2708.
const LINE_MAX: usize = 4096;

fn main(rt: HostRuntime) -> ExitCode {
    let (mut input, mut errors) = (rt.stdin(), rt.stderr());
    let mut output = Output::new(Kept::new(rt.stdout()));
    let mut line: Line<LINE_MAX> = Line::new();
    let mut cues = Cues::new();
    let message = b"cue: cannot read\n";
    let read_failed = answer_lines(
        &mut input,
        &mut line,
        &mut cues,
        &mut output,
        &mut errors,
        message,
    );
    output.flush();
    let failed = output.failed();
    let left = is_left(failed, output.sink.kind());
    report(&mut errors, failed && !left, b"cue: cannot write\n");
    ending(read_failed || failed, left)
}
