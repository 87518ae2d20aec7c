// The calls that the lines ask for.
use crate::buffers::{Buffers, Ends, PENDING_LEN};
use crate::payload::Payload;
use crate::print::{put_answer, put_octets, put_refusal, put_rows, put_state};
use crate::request::{Request, parse_request};
use splitter::{Answer, AudioFrameSplitter, Handed, ROW_WIDTH, Timing, Written};
use text::{Answering, BLOCK_LEN, Line, Output, Sink, Source, answer_lines, front, report};

// How many bytes of a line are kept: enough for the longest payload in one word. A longer line is malformed.
const LINE_MAX: usize = 140000;

// After so many calls the whole of the buffers is compared.
const SWEEP_EVERY: u32 = 64;

#[derive(Drop)]
struct Replay {
    splitter: AudioFrameSplitter,
    payload: Payload,
    buffers: Buffers,
    // How many calls come before the next one after which the whole is compared.
    until_sweep: u32,
}

/// Answers all lines that the source gives, and says where a read failed. Whether one did.
pub fn run<R: Source, W: Sink, E: Sink>(
    source: &mut R,
    output: &mut Output<W, BLOCK_LEN>,
    errors: &mut E,
) -> bool {
    let mut line: Line<LINE_MAX> = Line::new();
    let mut replay = Replay::new();
    // What the buffers hold before the first call. The pending one shows where a state has more pending than was set.
    replay.buffers.pending.fill(0xA5);
    replay.buffers.restore(Ends::all());
    let read_failed = answer_lines(
        source,
        &mut line,
        &mut replay,
        output,
        errors,
        b"replay: cannot read\n",
    );
    replay.end(output);
    output.flush();
    read_failed
}

pub fn report_write<W: Sink>(errors: &mut W, failed: bool) {
    report(errors, failed, b"replay: cannot write\n");
}

impl Answering for Replay {
    fn line<W: Sink>(&mut self, line: &[u8], output: &mut Output<W, BLOCK_LEN>) {
        match parse_request(line, &mut self.payload) {
            Some(Request::New(code)) => self.make(code, output),
            Some(Request::Set(splitter)) => {
                self.buffers.set_pending(self.payload.bytes());
                self.go_on(splitter, output);
            }
            Some(Request::Push { pts, lent }) => self.push(pts, lent, output),
            Some(Request::Flush(lent)) => self.flush(lent, output),
            Some(Request::Reset) => self.go_on(self.splitter.reset(), output),
            Some(Request::Unlock) => self.go_on(self.splitter.unlock(), output),
            None => self.too_long(output),
        }
    }

    fn too_long<W: Sink>(&mut self, output: &mut Output<W, BLOCK_LEN>) {
        output.put_text(b"?\n");
    }
}

impl Replay {
    // Before the first call, the state is that of a new splitter of code 0.
    fn new() -> Self {
        let splitter = AudioFrameSplitter {
            syntax: 0,
            pending: 0,
            timing: Timing {
                residual_pts: None,
                anchor: None,
            },
            discarded: 0,
            locked: false,
        };
        Replay {
            splitter,
            payload: Payload::new(),
            buffers: Buffers::new(),
            until_sweep: SWEEP_EVERY - 1,
        }
    }

    // Where no splitter is made the old one stays.
    fn make<W: Sink>(&mut self, code: u32, output: &mut Output<W, BLOCK_LEN>) {
        match AudioFrameSplitter::new(code) {
            Ok(splitter) => self.go_on(splitter, output),
            Err(refusal) => {
                put_refusal(output, refusal);
                self.put_nothing_written(output);
            }
        }
    }

    // Goes on with a state that a call made which is lent no buffer.
    fn go_on<W: Sink>(&mut self, splitter: AudioFrameSplitter, output: &mut Output<W, BLOCK_LEN>) {
        self.splitter = splitter;
        output.put_byte(b'o');
        self.put_nothing_written(output);
    }

    fn push<W: Sink>(&mut self, pts: Option<i64>, lent: Ends, output: &mut Output<W, BLOCK_LEN>) {
        let before = self.buffers.pending;
        let Handed { answer, splitter } = self
            .buffers
            .push(self.splitter, self.payload.bytes(), pts, lent);
        self.splitter = splitter;
        let pending = match answer {
            Ok(Some(_)) => splitter.pending_bytes().min(PENDING_LEN),
            _ => 0,
        };
        let kept = self.buffers.pending[pending..] == before[pending..];
        self.end_call(answer, lent, kept, output);
    }

    // A flush leaves the pending buffer alone.
    fn flush<W: Sink>(&mut self, lent: Ends, output: &mut Output<W, BLOCK_LEN>) {
        let before = self.buffers.pending;
        let Handed { answer, splitter } = self.buffers.flush(self.splitter, lent);
        self.splitter = splitter;
        let kept = self.buffers.pending == before;
        self.end_call(answer, lent, kept, output);
    }

    // Compares the output and the rows, answers, and puts the pattern back where the call wrote, or everywhere once
    // something else was changed.
    fn end_call<W: Sink>(
        &mut self,
        answer: Answer,
        lent: Ends,
        pending_kept: bool,
        output: &mut Output<W, BLOCK_LEN>,
    ) {
        let claimed = match answer {
            Ok(Some(written)) => written,
            _ => Written { rows: 0, bytes: 0 },
        };
        let written = Ends::written(claimed, lent);
        let compared = if self.until_sweep == 0 {
            Ends::all()
        } else {
            lent.with_margin()
        };
        let intact = pending_kept
            && claimed.bytes == written.out
            && claimed.rows == written.rows / ROW_WIDTH
            && self.buffers.are_intact(written, compared);
        put_answer(output, answer);
        self.put_written(written, intact, output);
        self.buffers
            .restore(if intact { written } else { Ends::all() });
        self.until_sweep = self.until_sweep.checked_sub(1).unwrap_or(SWEEP_EVERY - 1);
    }

    fn put_nothing_written<W: Sink>(&self, output: &mut Output<W, BLOCK_LEN>) {
        self.put_written(Ends::none(), true, output);
    }

    // The state, the rows and the output bytes that were written, the pending bytes, and whether everything else stayed
    // as it was. Where the state says that more is pending than the buffer has, all of it is shown.
    fn put_written<W: Sink>(&self, written: Ends, intact: bool, output: &mut Output<W, BLOCK_LEN>) {
        output.put_byte(b' ');
        put_state(output, self.splitter);
        output.put_byte(b' ');
        put_rows(output, &self.buffers.rows[..written.rows]);
        output.put_byte(b' ');
        put_octets(output, &self.buffers.out[..written.out]);
        output.put_byte(b' ');
        put_octets(
            output,
            front(&self.buffers.pending, self.splitter.pending_bytes()),
        );
        output.put_text(if intact { b" =\n" } else { b" #\n" });
    }

    // Compares the whole once more, after the last call. A line of its own says that something was changed.
    fn end<W: Sink>(&self, output: &mut Output<W, BLOCK_LEN>) {
        if !self.buffers.are_intact(Ends::none(), Ends::all()) {
            output.put_text(b"#\n");
        }
    }
}
