// Output, collected in a block and written in one piece: a write for each byte would cost more than what the programs
// do between.
ghost use Rattle.text.specs.Call.{Reported, WroteAll};

use crate::call::{Sink, write_at};
use crate::part::front;
use numbers::{padding, places};

/// How long a block is, in bytes, that no program has its own length for.
pub const BLOCK_LEN: usize = 8192;

/// A sink, and the bytes that are still to be written to it.
#[derive(Clone, Copy, Drop)]
pub struct Output<W, const N: usize> {
    pub sink: W,
    pub block: [u8; N],
    /// How many bytes at the start of the block are still to be written. Where it says more than the block has, the block
    /// is full.
    pub len: usize,
    /// Set once a write fails. Nothing is written from then on, since it would stand in the wrong place.
    pub failed: bool,
}

impl<W: Sink, const N: usize> Output<W, N> {
    ghost use Rattle.std.specs.Prelude.{◌≡◌, ◌∷◌, [], ◌+◌, ◌≤◌, ◌<◌, length, replicate};
    ghost use Rattle.numbers.specs.Decimal.{decimal, right};
    ghost use Rattle.text.specs.Output.{Handed, IsNew, MadeRoom, Put, Written};

    /// With nothing collected yet.
    pub fn new(sink: W) -> Self
        ensures { IsNew sink result }
    {
        Output {
            sink,
            block: [0; N],
            len: 0,
            failed: false,
        }
    }

    /// Whether a write has failed.
    pub fn failed(&self) -> bool
        ensures { result ≡ self.now.failed }
    {
        self.failed
    }

    /// Makes room for so many bytes behind those that are collected: where the block has less, it is written.
    pub fn make_room(&mut self, count: usize)
        ensures { MadeRoom W.writes count self.old self.new }
    {
        if count > N || self.len > N - count {
            self.flush();
        }
    }

    /// Puts a byte behind the others. A block that is full is written first, whatever length its public field says.
    pub fn put_byte(&mut self, byte: u8)
        ensures { Put W.writes (byte ∷ []) self.old self.new }
    {
        self.make_room(1);
        if N == 0 {
            return self.pass(byte);
        }
        self.block[self.len] = byte;
        self.len += 1;
    }

    // A byte for which no block of this length has room is written by itself.
    fn pass(&mut self, byte: u8)
        ensures len { self.new.len ≡ 1 }
        ensures block { self.new.block ≡ self.old.block }
        ensures handed { Handed W.writes self.old.sink self.new.sink self.old.failed self.new.failed (byte ∷ []) [] }
    {
        self.len = 1;
        if self.failed {
            return;
        }
        let all = write_all(&mut self.sink, &[byte]);
        self.failed = !all;
    }

    /// Puts a text. One for which the block has room is copied in one run.
    pub fn put_text(&mut self, text: &[u8])
        ensures { Put W.writes text.now self.old self.new }
    {
        if text.len() <= N && self.len <= N - text.len() {
            self.put_run(text);
        } else {
            self.put_each(text);
        }
    }

    fn put_run(&mut self, text: &[u8])
        requires { self.old.len + length text.now ≤ N }
        ensures { Put W.writes text.now self.old self.new }
    {
        let end = self.len + text.len();
        let block: &mut [u8] = &mut self.block;
        block[self.len..end].copy_from_slice(text);
        self.len = end;
    }

    fn put_each(&mut self, text: &[u8])
        ensures { Put W.writes text.now self.old self.new }
    {
        for byte in text {
            self.put_byte(*byte);
        }
    }

    /// Puts a number in decimal.
    pub fn put_decimal(&mut self, n: u64)
        ensures { Put W.writes (decimal n) self.old self.new }
    {
        let mut digits = [0u8; 20];
        let count = io::decimal(n, &mut digits);
        self.put_text(&digits[..count]);
    }

    /// Puts a number in decimal, right-justified in `width` columns.
    pub fn put_right(&mut self, width: usize, n: u64)
        ensures { Put W.writes (right width (decimal n)) self.old self.new }
    {
        self.put_spaces(padding(width, places(n)));
        self.put_decimal(n);
    }

    fn put_spaces(&mut self, count: usize)
        ensures { Put W.writes (replicate count 32) self.old self.new }
    {
        for _ in 0..count {
            self.put_byte(b' ');
        }
    }

    /// Writes the block as far as it is filled, unless a write failed before.
    pub fn flush(&mut self)
        ensures { Written W.writes self.old self.new }
    {
        if !self.failed {
            self.failed = !write_all(&mut self.sink, front(&self.block, self.len));
        }
        self.len = 0;
    }
}

// Writes a text, in as many calls as it takes. A call that fails or takes nothing is the last one. Not by std's
// `write_all`, which says little of what was written where it fails.
fn write_all<W: Sink>(sink: &mut W, text: &[u8]) -> bool
    ensures { WroteAll W.writes sink.old sink.new text.now result }
{
    let mut at = 0;
    while at < text.len() {
        match write_at(sink, text, at) {
            Ok(0) => return false,
            Ok(count) => at += count,
            Err(_) => return false,
        }
    }
    true
}

/// Says a message, on standard error, where a read or a write failed. That this write fails too is not told to anyone.
pub fn report<W: Sink>(errors: &mut W, failed: bool, message: &[u8])
    ensures { Reported W.writes errors.old errors.new failed message.now }
{
    if failed {
        write_all(errors, message);
    }
}
