//! `rosterbook do`: a request on standard input, asked of a book, or one a line. The definitions are in `specs/Asking.antt` and
//! `specs/Doing.antt`.
//! Transcripts: `tests/transcripts/requests.txt` and `all_commands.txt`. Wrong bodies: `must-fail-more/`.
ghost use Rattle.std.specs.Prelude.{◌≡◌, true, IfErr, IfOk, IsErr, None};
ghost use Rattle.sqlite_wal.specs.Files.{image_at};
ghost use Rattle.sqlite.specs.Files.{over_files};
ghost use Rattle.roster.specs.State.{State};
ghost use Rattle.http_exchange.specs.Exchange.{ChannelBytes};
ghost use Rattle.asking.specs.Requests.{IsRequestAsked};
ghost use Rattle.book.specs.Calls.{IsAfterCalls};
ghost use Rattle.book.specs.Found.{IsCleanLeft, IsUnclosed, LeavesBook, LeavesByCrash};
ghost use Rattle.book.specs.Kept.{IsClean, IsDurablyAt};
ghost use Rattle.rosterbook.specs.Asking as spec;
ghost use Rattle.rosterbook.specs.Asking.{left_by_request};
ghost use Rattle.rosterbook.specs.ByFiles.{AreLeftByDo, HaveSession, IsByFiles, IsDoneAs, IsRefusedAs};
ghost use Rattle.rosterbook.specs.Doing.{IsInputAnswered, IsInputStopped};

use crate::check_command::{check_json, check_lines};
use crate::ended::Ended;
use crate::lines::{read_input, write_line};
use crate::lines_command::ask_lines;
use crate::status::Status;
use crate::stop::Stop;
use asking::{AnswerKind, ask_request};
use book::{Book, FilesLeft};
use sqlite::{Alter, FileFrom, FileStore, Start};
use sqlite_disk::Disk;
use std::alloc::Global;
use std::io::{Read, Write};

/// Answers `rosterbook do`: opens the book, then reads a command, or one a line, which is done or only checked. Then it closes
/// the book; after a dry run it lets go of the files as they are.
pub(crate) fn answer_do<S: Start, R: Read, O: Write>(
    rt: &HostRuntime,
    file: &str,
    start: S,
    dry_run: bool,
    lines: bool,
    reader: &mut R,
    out: &mut O,
) -> Ended<FileFrom<S>>
    ensures done { (err : ChannelBytes) → IfOk result.done
        (IsDoneAs (IsByFiles result.left (image_at S.Start)) dry_run lines
        (R.remaining reader.old) (O.contents out.old) (O.contents out.new) err err) }
    ensures left { AreLeftByDo result.left (image_at S.Start) dry_run lines
        (R.remaining reader.old) }
    ensures session { HaveSession result.left (image_at S.Start) }
    ensures unopened { result.left ≡ None
        → IsErr result.done × (reader.new ≡ reader.old) × (out.new ≡ out.old) }
    ensures refused { IsRefusedAs result.left (image_at S.Start) result.refused result.done }
{
    match Book::open_from(rt, file, start) {
        Ok(mut book) => {
            let done = ask_input(rt.alloc(), &mut book, dry_run, lines, reader, out);
            Ended {
                done,
                left: Some(let_go(book, dry_run)),
                refused: None,
            }
        }
        Err(refused) => Ended::of_refusal(refused),
    }
}

/// Closes a book, or after a dry run lets go of its files as they are.
fn let_go<D: Disk + Drop>(book: Book<FileStore<D>>, dry_run: bool) -> FilesLeft<D>
    ensures disk { IsCleanLeft result → IsClean over_files book }
    ensures kept { (s : State) → IsDurablyAt over_files book s → IsCleanLeft result
        → LeavesBook result s }
    ensures crash { IsCleanLeft result → LeavesByCrash book result }
    ensures unclosed { dry_run ≡ true → IsUnclosed result }
{
    if dry_run { book.leave() } else { book.close() }
}

/// Asks a book the command that a reader gives, or those that it gives one a line, or only how it would answer them, and writes the
/// lines of the answers.
fn ask_input<S: Alter, R: Read, O: Write>(
    alloc: Global,
    book: &mut Book<S>,
    dry_run: bool,
    lines: bool,
    reader: &mut R,
    out: &mut O,
) -> Result<Status, Stop>
    ensures answered { IfOk result (IsInputAnswered S.Store book.old book.new
        (R.remaining reader.old) (O.contents out.old) (O.contents out.new) dry_run lines) }
    ensures stopped { IfErr result (IsInputStopped S.Store book.old book.new
        (R.remaining reader.old) (O.contents out.old) (O.contents out.new) dry_run lines) }
    ensures kept { dry_run ≡ true → (s : State) → IsDurablyAt S.Store book.old s
        → IsDurablyAt S.Store book.new s }
    ensures calls { IsAfterCalls S.Store book.old book.new }
{
    match (dry_run, lines) {
        (false, false) => ask_json(alloc, book, reader, out),
        (true, false) => check_json(alloc, book, reader, out),
        (false, true) => ask_lines(alloc, book, reader, out),
        (true, true) => check_lines(alloc, book, reader, out),
    }
}

/// Asks a book the command that a reader gives in JSON, and writes the line of its answer, or why it isn't read. Where the
/// answer finds no memory (91) or isn't written (92), the command may be kept; asked again under its number, it is answered
/// as it was.
pub fn ask_json<S: Alter, R: Read, O: Write>(
    alloc: Global,
    book: &mut Book<S>,
    reader: &mut R,
    out: &mut O,
) -> Result<Status, Stop>
    ensures asked { IfOk result (λ status. spec.IsRequestAnswered S.Store left_by_request
        book.old book.new (R.remaining reader.old) (O.contents out.old) (O.contents out.new)
        status) }
    ensures stopped { IfErr result (λ stop. spec.IsAskStopped S.Store book.old book.new
        (R.remaining reader.old) (O.contents out.old) (O.contents out.new) stop) }
    ensures calls { IsAfterCalls S.Store book.old book.new }
{
    let body = read_input(alloc, reader)?;
    ask_body(alloc, book, &body, out)
}

/// Asks a book the command of a body, and writes the line of its answer, or why it isn't read.
pub(crate) fn ask_body<S: Alter, O: Write>(
    alloc: Global,
    book: &mut Book<S>,
    body: &[u8],
    out: &mut O,
) -> Result<Status, Stop>
    ensures told { IfOk result
        (spec.IsBodyTold (IsRequestAsked S.Store book.old book.new body.now)
        (O.contents out.old) (O.contents out.new)) }
    ensures untold { IfErr result
        (spec.IsBodyUntold (IsRequestAsked S.Store book.old book.new body.now)
        (O.contents out.old) (O.contents out.new)) }
    ensures calls { IsAfterCalls S.Store book.old book.new }
{
    let answer = ask_request(alloc, book, body)?;
    write_line(out, &answer.text)?;
    Ok(status_of(answer.kind))
}

/// Returns how the program ends after an answer of this kind.
pub(crate) fn status_of(kind: AnswerKind) -> Status
    ensures { result ≡ spec.exit_status_of_kind kind }
{
    match kind {
        AnswerKind::Accepted => Status::Done,
        AnswerKind::Refused | AnswerKind::Unfit => Status::Refused,
    }
}
