// The lines of an input, which comes in pieces that end anywhere: a line is collected up to its line feed, and then
// answered.
use crate::call::{Sink, Source, read_at};
use crate::line::Line;
use crate::output::{BLOCK_LEN, Output, report};

/// What answers the lines of an input.
pub trait Answering {
    /// Answers a line, which is lent without its line feed.
    fn line<W: Sink>(&mut self, line: &[u8], output: &mut Output<W, BLOCK_LEN>);

    /// Answers a line that has more bytes than are kept of one.
    fn too_long<W: Sink>(&mut self, output: &mut Output<W, BLOCK_LEN>);
}

/// Answers the lines of all that the source gives, which are collected one by one in `line`, until the input ends, a
/// read fails, or a write does. Where a read fails, the message is said on `errors`, before a line that was not closed
/// is answered. What is collected at last is still to be written.
///
/// Answers whether a read failed, which counts as the end of the input. A last line that no line feed closes counts
/// too, unless it is empty.
pub fn answer_lines<R: Source, W: Sink, E: Sink, A: Answering, const N: usize>(
    source: &mut R,
    line: &mut Line<N>,
    answering: &mut A,
    output: &mut Output<W, BLOCK_LEN>,
    errors: &mut E,
    message: &[u8],
) -> bool {
    let mut input = io::large_buffer();
    let mut read_failed = false;
    // A proved loop has to end, and nothing says that the input does, so its turns are counted. No run uses them up.
    for _ in 0..u64::MAX {
        match read_at(source, &mut input, 0) {
            Ok(0) => break,
            Ok(count) => answer_piece(&input[..count], line, answering, output),
            Err(_) => {
                read_failed = true;
                break;
            }
        }
        if output.failed() {
            break;
        }
    }
    report(errors, read_failed, message);
    if !line.is_empty() {
        answer_line(line, answering, output);
    }
    read_failed
}

// Answers the lines that end in a piece of the input. What stands behind the last of them is collected.
fn answer_piece<W: Sink, A: Answering, const N: usize>(
    piece: &[u8],
    line: &mut Line<N>,
    answering: &mut A,
    output: &mut Output<W, BLOCK_LEN>,
) {
    let mut parts = piece.split(|byte| *byte == b'\n');
    if let Some(first) = parts.next() {
        line.push(first);
    }
    for part in parts {
        answer_line(line, answering, output);
        line.clear();
        line.push(part);
    }
}

fn answer_line<W: Sink, A: Answering, const N: usize>(
    line: &Line<N>,
    answering: &mut A,
    output: &mut Output<W, BLOCK_LEN>,
) {
    if line.is_too_long() {
        answering.too_long(output);
    } else {
        answering.line(line.bytes(), output);
    }
}
