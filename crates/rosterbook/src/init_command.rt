//! `rosterbook init`: a book of a zone, made in a new or empty file.
//! Books that are made: `tests/program.sh`. Wrong bodies: `must-fail-more/`.
ghost use Rattle.std.specs.Prelude.{◌≡◌, ◌⊎◌, IfErr, IfOk, IfSome, IsOk, None};
ghost use Rattle.rosterbook.specs.ByFiles.{AreLeftEmpty, IsLeftEmpty};
ghost use Rattle.std.specs.Io.KnownBytes.{Appends};
ghost use Rattle.sqlite_wal.specs.Files.{image_at};
ghost use Rattle.time117.specs.Local.{is_zone_text};
ghost use Rattle.rosterbook.specs.Program as spec;

use crate::ended::{Ended, done_of};
use crate::lines::{refuse, write_line};
use crate::status::Status;
use book::{CreateFault, create_from};
use period_verdict::LineFault;
use sqlite::{FileFrom, Start};
use std::io;
use std::io::Write;
use time117::{Zone, ZoneFault};

/// Answers `rosterbook init`: reads the zone, makes the book and says so. An error is a writer's.
pub(crate) fn answer_init<S: Start, O: Write, E: Write>(
    rt: &HostRuntime,
    file: &str,
    start: S,
    zone: &str,
    out: &mut O,
    err: &mut E,
) -> Ended<FileFrom<S>>
    ensures answered { IfOk result.done (λ status.
        spec.Gives (spec.init_answer (is_zone_text zone.now)) status
        (O.contents out.old) (O.contents out.new) (E.contents err.old) (E.contents err.new)
        ⊎ ((status ≡ Status.Failed) × (out.new ≡ out.old))) }
    ensures unmade { IfOk result.done (λ status. status ≡ Status.Failed
        → spec.IsUnmade (is_zone_text zone.now) status (O.contents out.old) (O.contents out.new)
        (E.contents err.old) (E.contents err.new)) }
    ensures made { IfOk result.done
        (λ status. status ≡ Status.Done → AreLeftEmpty result.left (image_at S.Start) zone.now) }
    ensures left { IfSome result.left (IsLeftEmpty (image_at S.Start) zone.now) }
    ensures refused { result.refused ≡ None }
{
    match Zone::read(rt.alloc(), zone) {
        Ok(zone) => make_and_tell(rt, file, start, zone, out, err),
        Err(fault) => Ended::without_files(done_of(refuse_zone(fault, err))),
    }
}

/// Makes a book in a file, and reports how that went.
fn make_and_tell<S: Start, O: Write, E: Write>(
    rt: &HostRuntime,
    file: &str,
    start: S,
    zone: Zone,
    out: &mut O,
    err: &mut E,
) -> Ended<FileFrom<S>>
    ensures ready { IfOk result.done (λ status.
        (spec.Gives spec.ready status
        (O.contents out.old) (O.contents out.new) (E.contents err.old) (E.contents err.new)
        × AreLeftEmpty result.left (image_at S.Start) zone)
        ⊎ ((fault : CreateFault) × spec.Gives (spec.unmade fault) status (O.contents out.old)
        (O.contents out.new) (E.contents err.old) (E.contents err.new) × (out.new ≡ out.old))) }
    ensures left { IfSome result.left (IsLeftEmpty (image_at S.Start) zone) }
    ensures refused { result.refused ≡ None }
{
    match create_from(rt, file, zone, start) {
        Ok(left) => Ended {
            done: done_of(report_made(Ok(()), out, err)),
            left: Some(left),
            refused: None,
        },
        Err(fault) => Ended::without_files(done_of(report_made(Err(fault), out, err))),
    }
}

/// Tells how the making of a book went.
fn report_made<O: Write, E: Write>(
    made: Result<(), CreateFault>,
    out: &mut O,
    err: &mut E,
) -> io::Result<Status>
    ensures ready { IsOk made → IfOk result (λ status. spec.Gives spec.ready status
        (O.contents out.old) (O.contents out.new) (E.contents err.old) (E.contents err.new)) }
    ensures unmade { IfErr made
        (λ fault. IfOk result (λ status. spec.Gives (spec.unmade fault) status (O.contents out.old)
        (O.contents out.new) (E.contents err.old) (E.contents err.new)) × (out.new ≡ out.old)) }
{
    match made {
        Ok(()) => {
            write_line(out, "ready")?;
            Ok(Status::Done)
        }
        Err(fault) => {
            refuse(err, &fault)?;
            Ok(Status::Failed)
        }
    }
}

/// Tells why a zone was not read.
fn refuse_zone<E: Write>(fault: ZoneFault, err: &mut E) -> io::Result<Status>
    ensures text { fault ≡ ZoneFault.ZoneText → IfOk result (λ status. (status ≡ Status.Refused)
        × Appends (E.contents err.old) (E.contents err.new) (spec.refusal_line LineFault.Zone)) }
    ensures memory { fault ≡ ZoneFault.Memory → IfOk result (λ status. (status ≡ Status.Failed)
        × Appends (E.contents err.old) (E.contents err.new) (spec.refusal_line LineFault.Memory)) }
{
    let fault = LineFault::from(fault);
    refuse(err, &fault)?;
    Ok(Status::of_fault(fault))
}
