// A run over what is read: its first line, then the stream, payload by payload.
ghost use Rattle.std.specs.Prelude.{◌≡◌, true, ◌≤◌, length, IfErr};
ghost use Rattle.splitter.specs.Push.{over};
ghost use Rattle.sheet.specs.Sheet.{payload_size, payloads_of, end_of};
ghost use Rattle.sheet.specs.Step.{end_most};
ghost use Rattle.cuelines.specs.Hearing.{hearing, hear, hear_all, after_read, NextHeard, is_failed};
ghost use Rattle.cuelines.specs.Request.{times_most};

use crate::found::{FOUND_LEN, keep_none, keep_rows};
use crate::request::{parse_request, read_first_line};
use sheet::{Buffers, CutSheet, LINE_LEN, LINES_MAX, PAYLOAD_LEN};
use text::{BLOCK_LEN as OUTPUT_LEN, Filled, Output, Sink, Source, fill, front, report};

// Eight payloads are read at a time: a read for each would cost more time than the cutting.
const BLOCK_LEN: usize = 8 * PAYLOAD_LEN;

/// What kept a run from printing all.
#[derive(Clone, Copy, Debug, PartialEq, Eq)]
pub enum Failure {
    Read,
    Write,
}

// A sheet under way, and what was found in it.
#[derive(Drop)]
pub struct Session {
    pub sheet: CutSheet,
    pub buffers: Buffers,
    // The lines of a payload.
    pub text: [u8; LINES_MAX],
    // A line for each time.
    pub found: [u8; FOUND_LEN],
    // Whether to go on reading.
    pub open: bool,
}

/// Prints the lines for all that the source gives.
pub fn run<R: Source, W: Sink>(
    source: &mut R,
    output: &mut Output<W, OUTPUT_LEN>,
) -> Result<(), Failure> {
    let Some(line) = read_first_line(source)? else {
        return print_malformed(output);
    };
    let Some(request) = parse_request(line.bytes()) else {
        return print_malformed(output);
    };
    // A code that the sheet refuses is malformed too.
    let Ok(sheet) = CutSheet::new(request.code) else {
        return print_malformed(output);
    };
    print_cues(source, output, sheet, request.times.as_slice())
}

// A proved loop has to end, and nothing says that the input does, so its turns are counted. No run uses them up.
fn print_cues<R: Source, W: Sink>(
    source: &mut R,
    output: &mut Output<W, OUTPUT_LEN>,
    sheet: CutSheet,
    times: &[i64],
) -> Result<(), Failure>
    requires { length times.now ≤ times_most }
{
    let mut session = Session::new(sheet, times.len());
    let mut block = [0u8; BLOCK_LEN];
    for _ in 0..u64::MAX {
        if !session.open {
            break;
        }
        session.cut_next(source, &mut block, times)?;
    }
    session.put_all(output, times.len());
    written(output)
}

impl Session {
    fn new(sheet: CutSheet, times: usize) -> Self
        requires { times ≤ times_most }
    {
        let mut found = [0u8; FOUND_LEN];
        keep_none(&mut found, times);
        Session {
            sheet,
            buffers: Buffers::new(),
            text: [0; LINES_MAX],
            found,
            open: true,
        }
    }

    // Reads a block and cuts it, also where a read failed: then nothing is printed. A test for that before the cutting
    // would make it rare in the compiler's eyes, which then inlines less, and a line takes a third longer.
    fn cut_next<R: Source>(
        &mut self,
        source: &mut R,
        block: &mut [u8; BLOCK_LEN],
        times: &[i64],
    ) -> Result<(), Failure>
        requires { length times.now ≤ times_most }
        ensures heard { NextHeard times.now (hearing (length times.now) self.old) block.new (is_failed result)
            (hearing (length times.now) self.new) }
        ensures failure { IfErr result (λ failure. failure ≡ Failure.Read) }
    {
        let filled = fill(source, block);
        self.cut_block(&block[..filled.len], times);
        self.after_read(filled);
        if filled.failed {
            return Err(Failure::Read);
        }
        Ok(())
    }

    // A block that is not full is the last one.
    fn after_read(&mut self, filled: Filled)
        ensures { self.new ≡ after_read self.old filled }
    {
        if filled.len < BLOCK_LEN {
            self.open = false;
        }
    }

    // (The loop of cutsheet, but for what ends it: what one function for both would ask of them is longer than the loop.)
    fn cut_block(&mut self, block: &[u8], times: &[i64])
        requires { length times.now ≤ times_most }
        ensures { hearing (length times.now) self.new
            ≡ hear_all times.now (hearing (length times.now) self.old) (payloads_of block.now) }
    {
        for payload in block.chunks(PAYLOAD_LEN) {
            if !self.open {
                break;
            }
            self.cut_payload(payload, times);
        }
    }

    // A step of the sheet, and the lines of the rows that sound at the times.
    fn cut_payload(&mut self, payload: &[u8], times: &[i64])
        requires payload { length payload.now ≤ payload_size }
        requires is_open { self.old.«open» ≡ true }
        requires times { length times.now ≤ times_most }
        ensures { hearing (length times.now) self.new
            ≡ hear times.now (hearing (length times.now) self.old) payload.now }
    {
        let cut = self.buffers.cut(self.sheet, payload, &mut self.text);
        self.sheet = cut.sheet;
        match cut.answer {
            Ok(len) => keep_rows(&mut self.found, times, &self.buffers.rows, &self.text, len),
            Err(_) => self.open = false,
        }
    }

    // The lines that were found, and the sheet's last line, a write for each.
    fn put_all<W: Sink>(&mut self, output: &mut Output<W, OUTPUT_LEN>, times: usize)
        requires { times ≤ times_most }
    {
        output.put_text(&self.found[..times * LINE_LEN]);
        output.flush();
        let len = put_end(self.sheet, &mut self.text);
        output.put_text(front(&self.text, len));
    }
}

// Writes the sheet's last line to the front of the text, and answers how many bytes it has.
fn put_end(sheet: CutSheet, text: &mut [u8]) -> usize
    requires { end_most ≤ length text.old }
    ensures value { result ≡ length (end_of sheet.splitter) }
    ensures text_after { text.new ≡ over (end_of sheet.splitter) text.old }
{
    match sheet.finish(text) {
        Ok(count) => count,
        Err(_) => 0,
    }
}

fn print_malformed<W: Sink>(output: &mut Output<W, OUTPUT_LEN>) -> Result<(), Failure> {
    output.put_text(b"?\n");
    written(output)
}

// Writes what is collected.
fn written<W: Sink>(output: &mut Output<W, OUTPUT_LEN>) -> Result<(), Failure> {
    output.flush();
    if output.failed() {
        return Err(Failure::Write);
    }
    Ok(())
}

pub fn report_write<W: Sink>(errors: &mut W, failed: bool) {
    report(errors, failed, b"cuelines: cannot write\n");
}

pub fn report_read<W: Sink>(errors: &mut W, failed: bool) {
    report(errors, failed, b"cuelines: cannot read\n");
}
