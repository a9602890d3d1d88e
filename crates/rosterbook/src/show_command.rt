//! The subcommands for reports, such as `rosterbook roster`: a text, or JSON, by what a book shows.
//! Worked texts: `tests/reports.py`, in JSON `tests/report_json.py`. Wrong bodies: `must-fail-more/`.
ghost use Rattle.std.specs.Prelude.{◌≡◌, IfErr, IfOk, IsErr, None};
ghost use Rattle.sqlite_wal.specs.Files.{image_at};
ghost use Rattle.std.specs.Io.KnownBytes.{Appends};
ghost use Rattle.report.specs.Faults.{report_fault_text};
ghost use Rattle.roster.specs.State.{State};
ghost use Rattle.book.specs.Calls.{IsAfterCalls};
ghost use Rattle.book.specs.Kept.{IsDurablyAt, IsClean};
ghost use Rattle.request.specs.Subjects.{subject_copied};
ghost use Rattle.rosterbook.specs.ByFiles.{AreLetGo, HaveSession, IsByFiles, IsRefusedAs, IsShownBy};
ghost use Rattle.rosterbook.specs.Showing as spec;
ghost use Rattle.rosterbook.specs.Streams.{IsOfChannel, refused_line};

use crate::ended::Ended;
use crate::lines::{refuse, write_text};
use crate::status::Status;
use crate::stop::Stop;
use asking::{Shown, ask_report};
use book::Book;
use report::ReportFault;
use request::{Form, Subject};
use sqlite::{Alter, FileFrom, Start};
use std::alloc::Global;
use std::io::Write;

/// Answers a subcommand for a report: opens a book and shows it, and lets go of its files as they are. To close them would copy
/// the log into the database.
pub(crate) fn answer_report<S: Start, O: Write, E: Write>(
    rt: &HostRuntime,
    file: &str,
    start: S,
    subject: &Subject<&str, &str>,
    form: Form,
    out: &mut O,
    err: &mut E,
) -> Ended<FileFrom<S>>
    ensures done { IfOk result.done
        (IsShownBy (IsByFiles result.left (image_at S.Start)) (subject_copied subject.now)
        form (O.contents out.old) (O.contents out.new) (E.contents err.old) (E.contents err.new)) }
    ensures left { AreLetGo result.left (image_at S.Start) }
    ensures session { HaveSession result.left (image_at S.Start) }
    ensures unopened { result.left ≡ None
        → IsErr result.done × (out.new ≡ out.old) × (err.new ≡ err.old) }
    ensures refused { IsRefusedAs result.left (image_at S.Start) result.refused result.done }
{
    match Book::open_from(rt, file, start) {
        Ok(mut book) => {
            let done = show_text(rt.alloc(), &mut book, subject, form, out, err);
            Ended {
                done,
                left: Some(book.leave()),
                refused: None,
            }
        }
        Err(refused) => Ended::of_refusal(refused),
    }
}

/// Prints a report in a form by what a book shows, or reports that the member or the pairing isn't there (2, 4). The book is as
/// it was.
pub fn show_text<S: Alter, O: Write, E: Write>(
    alloc: Global,
    book: &mut Book<S>,
    subject: &Subject<&str, &str>,
    form: Form,
    out: &mut O,
    err: &mut E,
) -> Result<Status, Stop>
    ensures some { IfOk result
        (λ status. (s : State) × spec.IsToldOf s (subject_copied subject.now) form status
        (O.contents out.old) (O.contents out.new) (E.contents err.old) (E.contents err.new)) }
    ensures told { (s : State) → IsDurablyAt S.Store book.old s → IsClean S.Store book.new
        → IfOk result (λ status. spec.IsToldOf s (subject_copied subject.now) form status
        (O.contents out.old) (O.contents out.new) (E.contents err.old) (E.contents err.new)) }
    ensures kept { (s : State) → IsDurablyAt S.Store book.old s → IsDurablyAt S.Store book.new s }
    ensures stopped { IfErr result
        (λ stop. spec.IsShowStopped book.new (O.contents out.old) (O.contents out.new) stop) }
    ensures calls { IsAfterCalls S.Store book.old book.new }
{
    let shown = ask_report(alloc, book, subject, form)?;
    print_shown(&shown, out, err)
}

/// Prints a text that is shown, or that the member or the pairing isn't there.
fn print_shown<O: Write, E: Write>(shown: &Shown, out: &mut O, err: &mut E) -> Result<Status, Stop>
    ensures printed { IfOk result (λ status. spec.PrintsShown shown.now status (O.contents out.old)
        (O.contents out.new) (E.contents err.old) (E.contents err.new)) }
    ensures stopped { IfErr result IsOfChannel }
{
    match shown {
        Shown::Text(text) => {
            write_text(out, text)?;
            Ok(Status::Done)
        }
        Shown::NoSuchCrew => tell_absence(ReportFault::NoSuchCrew, err),
        Shown::NoSuchPairing => tell_absence(ReportFault::NoSuchPairing, err),
    }
}

/// Tells that the member or the pairing isn't there.
fn tell_absence<E: Write>(fault: ReportFault, err: &mut E) -> Result<Status, Stop>
    ensures told { IfOk result (λ status. (status ≡ Status.Refused)
        × Appends (E.contents err.old) (E.contents err.new)
        (refused_line (report_fault_text fault))) }
    ensures stopped { IfErr result IsOfChannel }
{
    refuse(err, &fault)?;
    Ok(Status::Refused)
}
