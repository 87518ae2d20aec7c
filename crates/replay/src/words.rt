// What is still to be read of a line: numbers, timestamps and the splitter's state, each behind the byte that separates
// it from what stands before it. What answers `None` may have gone on in the line.
ghost use Rattle.std.specs.Prelude.{◌≤◌, IfSome};

use crate::buffers::{Ends, OUT_LEN, PENDING_LEN, ROWS_LEN};
use splitter::{Anchor, AudioFrameSplitter, Timing};
use text::{Parsed, number_after, parse_signed, skip};

/// A text, and the place in it from which on it is read.
#[derive(Drop)]
pub struct Words<'a> {
    text: &'a [u8],
    at: usize,
}

impl<'a> Words<'a> {
    pub fn new(text: &'a [u8]) -> Self {
        Words { text, at: 0 }
    }

    /// All that is left, which counts as read.
    pub fn rest(&mut self) -> &'a [u8] {
        let rest = self.text.get(self.at..).unwrap_or(&[]);
        self.at = self.text.len();
        rest
    }

    /// Nothing is left.
    pub fn end(&self) -> Option<()> {
        if self.at == self.text.len() {
            Some(())
        } else {
            None
        }
    }

    fn skip(&mut self, byte: u8) -> Option<()> {
        self.at = skip(self.text, self.at, byte)?;
        Some(())
    }

    fn number(&mut self, separator: u8, most: u64) -> Option<u64>
        ensures { IfSome result (λ n. n ≤ most) }
    {
        let Parsed { value, next } = number_after(self.text, self.at, separator, most)?;
        self.at = next;
        Some(value)
    }

    pub fn short(&mut self, separator: u8) -> Option<u32> {
        Some(self.number(separator, u32::MAX as u64)? as u32)
    }

    fn flag(&mut self, separator: u8) -> Option<bool> {
        Some(self.number(separator, 1)? == 1)
    }

    fn length(&mut self, most: usize) -> Option<usize>
        ensures { IfSome result (λ n. n ≤ most) }
    {
        Some(self.number(b' ', most as u64)? as usize)
    }

    /// How much of each buffer a call is lent.
    pub fn lent(&mut self) -> Option<Ends> {
        Some(Ends {
            pending: self.length(PENDING_LEN)?,
            out: self.length(OUT_LEN)?,
            rows: self.length(ROWS_LEN)?,
        })
    }

    /// A timestamp, or a minus sign alone where there is none. The sign of a number that does not fit is taken for one
    /// too; the digits behind it then stand where none can.
    pub fn time(&mut self) -> Option<Option<i64>> {
        self.skip(b' ')?;
        let Some(Parsed { value, next }) = parse_signed(self.text, self.at) else {
            self.skip(b'-')?;
            return Some(None);
        };
        self.at = next;
        Some(Some(value))
    }

    /// Code, pending bytes, timestamp, anchor, discarded bytes, and whether it is locked.
    pub fn splitter(&mut self) -> Option<AudioFrameSplitter> {
        Some(AudioFrameSplitter {
            syntax: self.short(b' ')?,
            pending: self.number(b' ', u64::MAX)? as usize,
            timing: self.timing()?,
            discarded: self.number(b' ', u64::MAX)?,
            locked: self.flag(b' ')?,
        })
    }

    fn timing(&mut self) -> Option<Timing> {
        Some(Timing {
            residual_pts: self.time()?,
            anchor: self.anchor()?,
        })
    }

    // A minus sign where there is no anchor, as where there is no timestamp.
    fn anchor(&mut self) -> Option<Option<Anchor>> {
        let Some(pts) = self.time()? else {
            return Some(None);
        };
        Some(Some(Anchor {
            pts,
            frames_since: self.short(b':')?,
            samples_per_frame: self.short(b':')?,
            sample_rate: self.short(b':')?,
            unread: self.flag(b':')?,
        }))
    }
}
