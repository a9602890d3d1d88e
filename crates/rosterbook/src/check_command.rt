//! `rosterbook do --dry-run`: a request on standard input, or one a line, of which a book is asked how it would answer now. The
//! definitions are in `specs/Asking.antt` and `specs/InLines.antt`.
//! Wrong bodies: `must-fail-more/`.
ghost use Rattle.std.specs.Prelude.{◌∷◌, [], IfErr, IfOk};
ghost use Rattle.roster.specs.State.{State};
ghost use Rattle.asking.specs.Requests.{IsRequestChecked};
ghost use Rattle.asking.specs.Lines as lines;
ghost use Rattle.book.specs.Calls.{IsAfterCalls};
ghost use Rattle.book.specs.Kept.{IsDurablyAt};
ghost use Rattle.rosterbook.specs.Asking.{IsBodyTold, IsBodyUntold, IsRequestAnswered, left_by_check};
ghost use Rattle.rosterbook.specs.InLines as spec;
ghost use Rattle.rosterbook.specs.Showing.{IsShowStopped};

use crate::do_command::status_of;
use crate::lines::{read_input, write_line};
use crate::lines_command::status_after;
use crate::status::Status;
use crate::stop::Stop;
use asking::check_request;
use book::Book;
use sqlite::Alter;
use std::alloc::Global;
use std::io::{BufRead, BufReader, Read, Write};

/// Asks a book how it would answer the command that a reader gives in JSON now, and writes the line of that answer, or why it
/// isn't read. The book is as it was.
pub fn check_json<S: Alter, R: Read, O: Write>(
    alloc: Global,
    book: &mut Book<S>,
    reader: &mut R,
    out: &mut O,
) -> Result<Status, Stop>
    ensures checked { IfOk result (λ status. IsRequestAnswered S.Store left_by_check
        book.old book.new (R.remaining reader.old) (O.contents out.old) (O.contents out.new)
        status) }
    ensures stopped { IfErr result
        (IsShowStopped book.new (O.contents out.old) (O.contents out.new)) }
    ensures kept { (s : State) → IsDurablyAt S.Store book.old s
        → IsDurablyAt S.Store book.new s }
    ensures calls { IsAfterCalls S.Store book.old book.new }
{
    let body = read_input(alloc, reader)?;
    check_body(alloc, book, &body, out)
}

/// Asks a book how it would answer the command of a body, and writes the line of that answer, or why it isn't read.
pub(crate) fn check_body<S: Alter, O: Write>(
    alloc: Global,
    book: &mut Book<S>,
    body: &[u8],
    out: &mut O,
) -> Result<Status, Stop>
    ensures told { IfOk result
        (IsBodyTold (IsRequestChecked S.Store book.old book.new body.now)
        (O.contents out.old) (O.contents out.new)) }
    ensures untold { IfErr result
        (IsBodyUntold (IsRequestChecked S.Store book.old book.new body.now)
        (O.contents out.old) (O.contents out.new)) }
    ensures kept { (s : State) → IsDurablyAt S.Store book.old s
        → IsDurablyAt S.Store book.new s }
    ensures calls { IsAfterCalls S.Store book.old book.new }
{
    let answer = check_request(alloc, book, body)?;
    write_line(out, &answer.text)?;
    Ok(status_of(answer.kind))
}

/// Asks a book how it would answer each of the commands that a reader gives in JSON, one a line, if it were asked that one
/// alone now, and writes the line of each answer, or why a command isn't read. An empty line is passed over. The book is as it
/// was. It ends as refused if one would be refused or isn't read.
pub fn check_lines<S: Alter, R: Read, O: Write>(
    alloc: Global,
    book: &mut Book<S>,
    reader: &mut R,
    out: &mut O,
) -> Result<Status, Stop>
    ensures checked { IfOk result (spec.AreLinesChecked S.Store book.old book.new
        (R.remaining reader.old) (O.contents out.old) (O.contents out.new)) }
    ensures stopped { IfErr result (spec.AreChecksStopped S.Store book.old book.new
        (R.remaining reader.old) (O.contents out.old) (O.contents out.new)) }
    ensures kept { (s : State) → IsDurablyAt S.Store book.old s
        → IsDurablyAt S.Store book.new s }
    ensures calls { IsAfterCalls S.Store book.old book.new }
{
    let reader = BufReader::new(alloc, reader)?;
    let mut status = Status::Done;
    for line in reader.split(alloc, b'\n') {
        let line = line?;
        status = status_after(status, check_line(alloc, book, &line, out)?);
    }
    Ok(status)
}

/// Asks a book how it would answer the command of a line, and writes the line of that answer. An empty line asks nothing.
fn check_line<S: Alter, O: Write>(
    alloc: Global,
    book: &mut Book<S>,
    line: &[u8],
    out: &mut O,
) -> Result<Status, Stop>
    ensures checked { let requests = lines.requests_of (lines.not_empty (line.now ∷ [])) in
        IfOk result (spec.AreRequestsChecked S.Store book.old book.new (O.contents out.old)
        (O.contents out.new) requests) }
    ensures stopped { IfErr result
        (IsShowStopped book.new (O.contents out.old) (O.contents out.new)) }
    ensures kept { (s : State) → IsDurablyAt S.Store book.old s
        → IsDurablyAt S.Store book.new s }
    ensures calls { IsAfterCalls S.Store book.old book.new }
{
    if line.is_empty() {
        return Ok(Status::Done);
    }
    check_body(alloc, book, line, out)
}
