// Answers each line of standard input by one line on standard output: the head, the place, the duration or the tape
// that it asks for, or '?'.
#![tactic(auto)]

mod answer;
mod request;
mod tape;
mod word;
mod writing;

use answer::Answers;
use std::process::ExitCode;
use text::{Kept, Line, Output, answer_lines, ending, is_left, report};

// How many bytes of a line are kept. No well formed line has more than 396.
const LINE_MAX: usize = 512;

fn main(rt: HostRuntime) -> ExitCode {
    let (mut input, mut errors) = (rt.stdin(), rt.stderr());
    let mut output = Output::new(Kept::new(rt.stdout()));
    let mut line: Line<LINE_MAX> = Line::new();
    let mut answers = Answers::new();
    let message = b"head: cannot read\n";
    let read_failed = answer_lines(
        &mut input,
        &mut line,
        &mut answers,
        &mut output,
        &mut errors,
        message,
    );
    output.flush();
    let failed = output.failed();
    let left = is_left(failed, output.sink.kind());
    report(&mut errors, failed && !left, b"head: cannot write\n");
    ending(read_failed || failed, left)
}
