//! What the program writes where `clap` refuses its command line.
//! Command lines and help: `tests/program.sh`. Wrong bodies: `must-fail-more/`.
ghost use Rattle.std.specs.Prelude.{◌≡◌, ◌≢◌, ◌⊎◌, IfOk, OnOk, codes};
ghost use Rattle.std.specs.Io.KnownBytes.{Appends};
ghost use Rattle.clap.specs.Words.{kind_of};
ghost use Rattle.rosterbook.specs.Program.{exit_status};
ghost use Rattle.rosterbook.specs.Refusal.{status_of_error};

use crate::program::end_of;
use crate::status::Status;
use crate::stop::Stop;
use clap::Error;
use clap::error::ErrorKind;
use std::io::Write;

/// Writes why `clap` refused a command line, and gives the exit status. Help and the version go to
/// `out` with status 0, and the text of a mistake goes to `err` with status 2. Out of memory gives
/// the line `refused 91 Memory` on `err` with status 3, and a writer that fails the line
/// `refused 92 Channel` with status 3.
pub fn tell_refusal<O: Write, E: Write>(error: &Error, out: &mut O, err: &mut E) -> u8
    ensures status { (result ≡ exit_status (status_of_error (kind_of error.now)))
        ⊎ (result ≡ exit_status Status.Failed) }
    ensures out { status_of_error (kind_of error.now) ≢ Status.Done → out.new ≡ out.old }
    ensures err { result ≡ exit_status Status.Done → err.new ≡ err.old }
{
    let done = write_refusal(error, out, err);
    end_of(done, err).status as u8
}

/// Writes the same, up to what stops it.
fn write_refusal<O: Write, E: Write>(
    error: &Error,
    out: &mut O,
    err: &mut E,
) -> Result<Status, Stop>
    ensures status { IfOk result (λ s. s ≡ status_of_error (kind_of error.now)) }
    ensures out { status_of_error (kind_of error.now) ≢ Status.Done → out.new ≡ out.old }
    ensures err { status_of_error (kind_of error.now) ≡ Status.Done → err.new ≡ err.old }
    ensures memory { kind_of error.now ≡ ErrorKind.OutOfMemory
        → OnOk result
        (Appends (E.contents err.old) (E.contents err.new) (codes "refused 91 Memory\n")) }
{
    match error.kind() {
        ErrorKind::DisplayHelp | ErrorKind::DisplayVersion => {
            write!(out, "{error}")?;
            out.flush()?;
            Ok(Status::Done)
        }
        ErrorKind::OutOfMemory => {
            writeln!(err, "refused 91 Memory")?;
            err.flush()?;
            Ok(Status::Failed)
        }
        _ => {
            write!(err, "{error}")?;
            err.flush()?;
            Ok(Status::Usage)
        }
    }
}
