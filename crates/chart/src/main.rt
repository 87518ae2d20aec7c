// Prints the wall chart of lengths: one number a line, or, with the argument --table, a table for the wall.
#![tactic(auto)]

mod list;
mod page;
mod table;

use page::{Form, form_of, print};
use std::env::FillError;
use std::process::ExitCode;
use std::rt::Env;
use text::{Kept, Output, ending, front, is_left, report};

// One byte more than the longest argument that is known.
const WORD_MAX: usize = 8;

fn main(rt: HostRuntime) -> ExitCode {
    let mut word = [0u8; WORD_MAX];
    let len = rt.arg(1, &mut word).unwrap_or(0);
    let form = form_of(arguments(&rt), front(&word, len));
    let mut output = Output::new(Kept::new(rt.stdout()));
    let mut errors = rt.stderr();
    print(&mut output, form);
    let failed = output.failed();
    let left = is_left(failed, output.sink.kind());
    report(&mut errors, failed && !left, b"chart: cannot write\n");
    let message = b"chart: its one argument is --table\n";
    report(&mut errors, form == Form::Unknown, message);
    ending(failed, left)
}

// How many arguments there are, the program's own name among them; three stand for more. (`env::args` needs a heap.)
fn arguments(rt: &impl Env) -> usize {
    (0..3).take_while(|i| is_given(rt, *i)).count()
}

fn is_given(rt: &impl Env, i: usize) -> bool {
    let mut word = [0u8; WORD_MAX];
    !matches!(rt.arg(i, &mut word), Err(FillError::NotPresent))
}
