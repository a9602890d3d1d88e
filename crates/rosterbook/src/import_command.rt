//! `rosterbook import`: a schedule on standard input, its pairings asked one after the other. The definitions are in
//! `specs/Asking.antt`.
//! Transcript: `tests/transcripts/import.txt`. Wrong bodies: `must-fail-more/`.
ghost use Rattle.std.specs.Prelude.{◌≡◌, IfErr, IfOk, IsErr, None, OnOk};
ghost use Rattle.sqlite_wal.specs.Files.{image_at};
ghost use Rattle.std.specs.Io.KnownBytes.{Appends};
ghost use Rattle.book.specs.Calls.{IsAfterCalls};
ghost use Rattle.book.specs.Kept.{result_of};
ghost use Rattle.rosterbook.specs.Asking as spec;
ghost use Rattle.rosterbook.specs.ByFiles.{AreLeftByImport, HaveSession, IsByFiles, IsImportedBy, IsRefusedAs};

use crate::ended::Ended;
use crate::lines::{read_input, refuse};
use crate::status::Status;
use crate::stop::Stop;
use asking::{Listener, NotAllAsked, ask_schedule};
use book::{Answer, Book};
use request::RequestNumber;
use sqlite::{Alter, FileFrom, Start};
use std::alloc::Global;
use std::io;
use std::io::{Read, Write};

/// Answers `rosterbook import`: opens the book, then reads a schedule and adds its pairings, and closes
/// the book.
pub(crate) fn answer_import<S: Start, R: Read, O: Write, E: Write>(
    rt: &HostRuntime,
    file: &str,
    start: S,
    number: RequestNumber,
    reader: &mut R,
    out: &mut O,
    err: &mut E,
) -> Ended<FileFrom<S>>
    ensures done { IfOk result.done
        (IsImportedBy (IsByFiles result.left (image_at S.Start)) number
        (R.remaining reader.old) (O.contents out.old) (O.contents out.new)
        (E.contents err.old) (E.contents err.new)) }
    ensures left { AreLeftByImport result.left (image_at S.Start) number
        (R.remaining reader.old) }
    ensures session { HaveSession result.left (image_at S.Start) }
    ensures unopened { result.left ≡ None → IsErr result.done × (reader.new ≡ reader.old)
        × (out.new ≡ out.old) × (err.new ≡ err.old) }
    ensures refused { IsRefusedAs result.left (image_at S.Start) result.refused result.done }
{
    match Book::open_from(rt, file, start) {
        Ok(mut book) => {
            let done = import_csv(rt.alloc(), &mut book, number, reader, out, err);
            Ended {
                done,
                left: Some(book.close()),
                refused: None,
            }
        }
        Err(refused) => Ended::of_refusal(refused),
    }
}

/// Adds the pairings of the schedule that a reader gives in CSV to a book, under the parts of a number, and writes a line for
/// each as it is answered. What stops it leaves the parts that were answered.
pub fn import_csv<S: Alter, R: Read, O: Write, E: Write>(
    alloc: Global,
    book: &mut Book<S>,
    number: RequestNumber,
    reader: &mut R,
    out: &mut O,
    err: &mut E,
) -> Result<Status, Stop>
    ensures imported { IfOk result
        (spec.IsImported S.Store book.old book.new number (R.remaining reader.old)
        (O.contents out.old) (O.contents out.new) (E.contents err.old) (E.contents err.new)) }
    ensures stopped { IfErr result
        (spec.IsImportStopped S.Store book.old book.new number (R.remaining reader.old)
        (O.contents out.old) (O.contents out.new) (E.contents err.old) (E.contents err.new)) }
    ensures calls { IsAfterCalls S.Store book.old book.new }
{
    let text = read_input(alloc, reader)?;
    let mut lines = PartLines {
        out,
        status: Status::Done,
    };
    match ask_schedule(alloc, book, number, &text, &mut lines) {
        Ok(()) => Ok(lines.status),
        Err(NotAllAsked::Unread(fault)) => {
            refuse(err, &fault)?;
            Ok(Status::Refused)
        }
        Err(NotAllAsked::Ask(fault)) => Err(Stop::from(fault)),
        Err(NotAllAsked::Unheard(error)) => Err(Stop::from(error)),
    }
}

/// Where the lines of the parts are written, and how the program ends after those so far.
#[derive(Drop)]
struct PartLines<'a, O: Write> {
    out: &'a mut O,
    status: Status,
}

impl<'a, O: Write> Listener for PartLines<'a, O> {
    ghost use Rattle.rosterbook.specs.Asking.{IsPartTold};

    type Fault = io::Error;

    ghost hears = { λ old new part answer result.
        IsPartTold O.contents old new part answer result };

    fn hear(&mut self, _alloc: Global, part: u16, answer: &Answer) -> io::Result<()> {
        tell_part(&mut *self.out, part, answer)?;
        self.status = status_with(self.status, answer);
        Ok(())
    }
}

/// Writes the line of a part at once.
fn tell_part<O: Write>(out: &mut O, part: u16, answer: &Answer) -> io::Result<()>
    ensures { OnOk result (Appends (O.contents out.old) (O.contents out.new)
        (spec.answered_part part (result_of answer.now))) }
{
    match answer {
        Answer::Accepted(_) => writeln!(out, "{part} accepted")?,
        Answer::Refused(refusal) => writeln!(out, "{part} refused {refusal}")?,
    }
    out.flush()
}

/// Returns how the program ends after a part more: as refused after any that is refused.
fn status_with(status: Status, answer: &Answer) -> Status
    ensures { result ≡ spec.status_with status (result_of answer.now) }
{
    match answer {
        Answer::Accepted(_) => status,
        Answer::Refused(_) => Status::Refused,
    }
}
