// Lines, collected in a block and written in large pieces.
ghost use Rattle.std.specs.Prelude.{◌≡◌, ◌+◌, ◌≤◌};
ghost use Rattle.sheet.specs.Step.{text_size};
ghost use Rattle.text.specs.Output.{Handed, collected};
ghost use Rattle.cutsheet.specs.Bounds.{text_length};

use crate::buffers::TEXT_LEN;
use sheet::LINES_MAX;
use text::{Output, Sink, report};

// Makes room for the lines of a payload.
pub fn make_room<W: Sink>(output: &mut Output<W, TEXT_LEN>)
    ensures text_size_bound { output.new.len + text_size ≤ text_length }
    ensures block { output.new.block ≡ output.old.block }
    ensures handed { Handed W.writes output.old.sink output.new.sink output.old.failed output.new.failed
        (collected output.old) (collected output.new) }
{
    output.make_room(LINES_MAX);
}

pub fn report_write<W: Sink>(errors: &mut W, failed: bool) {
    report(errors, failed, b"cutsheet: cannot write\n");
}

pub fn report_read<W: Sink>(errors: &mut W, failed: bool) {
    report(errors, failed, b"cutsheet: cannot read\n");
}
