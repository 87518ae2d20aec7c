// The rounds.
ghost use Rattle.std.specs.Prelude.{◌<◌};

use crate::setup::{LINE_MAX, parse_setup};
use crate::totals::Totals;
use splitter::{AudioFrameSplitter, Handed, ROW_WIDTH};
use text::{BLOCK_LEN, Output, Sink, Source, fill, front};

// The most bytes of a stream. What comes behind them is ignored.
const STREAM_MAX: usize = 1000000;

const INPUT_MAX: usize = STREAM_MAX + LINE_MAX;

// Enough for each call with payloads of up to 65535 bytes. With 8200 the output, which lies behind it, would begin a few
// bytes more than a multiple of 4096 further on, and block copies from one to the other take six times as long.
const PENDING_LEN: usize = 8704;

const OUT_LEN: usize = 73800;

const ROWS_LEN: usize = ROW_WIDTH * 10535;

// So many rounds have timestamps of their own.
const TIMES: u64 = 4_294_967_296;

/// Reads all, measures, and prints. Whether a read failed, which counts as the end of the input.
pub fn run<R: Source, W: Sink>(source: &mut R, output: &mut Output<W, BLOCK_LEN>) -> bool {
    let mut input = [0; INPUT_MAX];
    run_in(source, output, &mut input)
}

// Apart from `run`: where a million zeros are known, no tactic ends.
fn run_in<R: Source, W: Sink>(
    source: &mut R,
    output: &mut Output<W, BLOCK_LEN>,
    input: &mut [u8; INPUT_MAX],
) -> bool {
    let filled = fill(source, input);
    match measure_input(front(input, filled.len)) {
        Some(totals) => put_totals(output, totals),
        None => output.put_text(b"?\n"),
    }
    output.flush();
    filled.failed
}

// `None` where the first line is malformed, or the splitter refuses its code.
fn measure_input(input: &[u8]) -> Option<Totals> {
    let setup = parse_setup(input)?;
    let mut first = AudioFrameSplitter::new(setup.code).ok()?;
    first.locked = true;
    let stream = front(&input[setup.start..], STREAM_MAX);
    Some(measure(stream, first, setup.size, setup.rounds))
}

// Each round begins with the splitter as it is given, and its number is its timestamp: with a constant the compiler
// may leave out tests of times that the program of a caller with timestamps of its own has.
fn measure(stream: &[u8], first: AudioFrameSplitter, size: usize, rounds: u64) -> Totals
    requires { 0 < size }
{
    // Not one struct: where the buffers lie to one another is measured too.
    let mut pending = [0; PENDING_LEN];
    let mut out = [0; OUT_LEN];
    let mut rows = [0; ROWS_LEN];
    let mut totals = Totals::new();
    for number in 0..rounds {
        let time = (number % TIMES) as i64;
        round(
            &mut totals,
            first,
            stream,
            size,
            time,
            &mut pending,
            &mut out,
            &mut rows,
        );
    }
    totals
}

// The whole stream in payloads of one size, of which the last may be shorter. The first has that timestamp, and the
// others have none.
fn round(
    totals: &mut Totals,
    first: AudioFrameSplitter,
    stream: &[u8],
    size: usize,
    time: i64,
    pending: &mut [u8],
    out: &mut [u8],
    rows: &mut [i64],
)
    requires { 0 < size }
{
    let mut splitter = first;
    let mut pts = Some(time);
    for payload in stream.chunks(size) {
        let pushed = push(splitter, payload, pts, pending, out, rows);
        totals.add_push(pushed.answer, rows, out);
        splitter = pushed.splitter;
        pts = None;
    }
    totals.add_round(splitter);
}

// The call by itself, so that the loop's proof has nothing of its contract to go through.
fn push(
    splitter: AudioFrameSplitter,
    payload: &[u8],
    pts: Option<i64>,
    pending: &mut [u8],
    out: &mut [u8],
    rows: &mut [i64],
) -> Handed {
    splitter.push(payload, pts, pending, out, rows)
}

fn put_totals<W: Sink>(output: &mut Output<W, BLOCK_LEN>, totals: Totals) {
    output.put_decimal(totals.frames);
    let others = [
        totals.bytes,
        totals.discarded,
        totals.pending as u64,
        totals.stamps,
        totals.last_bytes,
    ];
    for number in others {
        output.put_byte(b' ');
        output.put_decimal(number);
    }
    output.put_byte(b'\n');
}
