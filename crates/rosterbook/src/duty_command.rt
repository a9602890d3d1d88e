//! `rosterbook duty`: one flight duty period against Tables A and B, without a book.
//! Transcript: `tests/transcripts/duty.txt`. Wrong bodies: `must-fail-more/`.
ghost use Rattle.std.specs.Prelude.{◌≡◌, ◌⊎◌, map, string_bytes, IfOk};
ghost use Rattle.rosterbook.specs.Program as spec;
ghost use Rattle.period_verdict.specs.Verdict.{line_of};

use crate::lines::{refuse, write_line};
use crate::status::Status;
use period_verdict::duty_line;
use std::alloc::Global;
use std::io;
use std::io::Write;

/// Answers `rosterbook duty`. An error is a writer's.
pub(crate) fn answer_duty<O: Write, E: Write>(
    alloc: Global,
    zone: &str,
    report: &str,
    times: &[String],
    out: &mut O,
    err: &mut E,
) -> io::Result<Status>
    ensures { IfOk result (λ status. spec.Gives
        (spec.duty_answer (line_of zone.now report.now (map string_bytes times.now))) status
        (O.contents out.old) (O.contents out.new) (E.contents err.old) (E.contents err.new)
        ⊎ spec.Gives spec.memory_answer status (O.contents out.old) (O.contents out.new)
        (E.contents err.old) (E.contents err.new)) }
{
    match duty_line(alloc, zone, report, times) {
        Ok((line, is_within)) => {
            write_line(out, &line)?;
            Ok(verdict_status(is_within))
        }
        Err(fault) => {
            refuse(err, &fault)?;
            Ok(Status::of_fault(fault))
        }
    }
}

/// Returns how the program ends after a verdict.
fn verdict_status(is_within: bool) -> Status
    ensures { result ≡ spec.verdict_status is_within }
{
    if is_within {
        Status::Done
    } else {
        Status::Refused
    }
}
