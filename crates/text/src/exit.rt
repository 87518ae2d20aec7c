// How a program ends that reads and writes.
ghost use Rattle.std.specs.Prelude.{◌≡◌, ◌↔◌, IsTrue, cond};

use std::io::ErrorKind;
use std::process::ExitCode;

// That of a program that SIGPIPE ends.
const NOBODY_READS: u8 = 141;

/// Whether a write failed since nobody reads the output any more, by the kind of its error. A program says nothing of
/// it.
pub fn is_left(write_failed: bool, kind: Option<ErrorKind>) -> bool
    ensures { IsTrue result ↔ (IsTrue write_failed × (kind ≡ Some ErrorKind.BrokenPipe)) }
{
    write_failed && kind == Some(ErrorKind::BrokenPipe)
}

/// A program's status: 0, or 1 where a read or a write failed; where nobody reads its output any more, that of a
/// program that SIGPIPE ends.
pub fn ending(failed: bool, left: bool) -> ExitCode
    ensures { result.status ≡ cond left NOBODY_READS (cond failed 1 0) }
{
    if left {
        return ExitCode::from(NOBODY_READS);
    }
    if failed {
        return ExitCode::FAILURE;
    }
    ExitCode::SUCCESS
}
