// The splitter's three buffers, as a program that makes sheets owns them.
ghost use Rattle.std.specs.Prelude.{◌≡◌};
ghost use Rattle.sheet.specs.Buffers.{no_buffers, lent_by};
ghost use Rattle.sheet.specs.Step.{PacedBy, push_of, sheet_answer, stepped, step};

use crate::payload::{OUT_LEN, PENDING_LEN, ROWS_LEN};
use crate::sheet::{CutLines, CutSheet};

/// What the steps of a sheet are lent besides the text: long enough for any payload, whatever is pending.
#[derive(Drop)]
pub struct Buffers {
    /// The bytes of a frame that is not complete yet.
    pub pending: [u8; PENDING_LEN],
    /// The frames of the last push, one behind the other.
    pub out: [u8; OUT_LEN],
    /// Their rows.
    pub rows: [i64; ROWS_LEN],
}

impl Buffers {
    /// Buffers that hold zeros.
    pub fn new() -> Buffers
        ensures { result ≡ no_buffers }
    {
        Buffers {
            pending: [0; PENDING_LEN],
            out: [0; OUT_LEN],
            rows: [0; ROWS_LEN],
        }
    }

    /// Lends them to the sheet for one payload, whose lines go to the front of the text (`CutSheet::cut`).
    pub fn cut(&mut self, sheet: CutSheet, payload: &[u8], text: &mut [u8]) -> CutLines
        ensures text_after { stepped (sheet_answer result.answer) result.sheet self.new.pending self.new.out self.new.rows text.new
            ≡ step sheet payload.now (lent_by self.old text.old) }
        ensures paced_by { PacedBy (sheet_answer result.answer) (push_of sheet payload.now (lent_by self.old text.old)).answer sheet.number self.new.rows }
    {
        sheet.cut(
            payload,
            &mut self.pending,
            &mut self.out,
            &mut self.rows,
            text,
        )
    }
}
