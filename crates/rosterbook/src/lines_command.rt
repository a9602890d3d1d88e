//! `rosterbook do --lines`: requests on standard input, one a line, asked of a book one after the other. The definitions are in
//! `specs/InLines.antt`. Wrong bodies: `must-fail-more/`.
ghost use Rattle.std.specs.Prelude.{◌≡◌, ◌∷◌, [], IfErr, IfOk};
ghost use Rattle.asking.specs.Lines as lines;
ghost use Rattle.book.specs.Calls.{IsAfterCalls};
ghost use Rattle.rosterbook.specs.InLines as spec;

use crate::do_command::ask_body;
use crate::status::Status;
use crate::stop::Stop;
use book::Book;
use sqlite::Alter;
use std::alloc::Global;
use std::io::{BufRead, BufReader, Read, Write};

/// Asks a book the commands that a reader gives in JSON, one a line, and writes the line of each answer, or why a command
/// isn't read, before it reads the next line. An empty line is passed over. It ends as refused if one was refused or isn't
/// read. What stops it leaves the commands that were answered; where the last answer finds no memory (91) or isn't
/// written (92), its command may be kept too.
pub fn ask_lines<S: Alter, R: Read, O: Write>(
    alloc: Global,
    book: &mut Book<S>,
    reader: &mut R,
    out: &mut O,
) -> Result<Status, Stop>
    ensures answered { IfOk result (spec.AreLinesAnswered S.Store book.old book.new
        (R.remaining reader.old) (O.contents out.old) (O.contents out.new)) }
    ensures stopped { IfErr result (spec.AreLinesStopped S.Store book.old book.new
        (R.remaining reader.old) (O.contents out.old) (O.contents out.new)) }
    ensures calls { IsAfterCalls S.Store book.old book.new }
{
    let reader = BufReader::new(alloc, reader)?;
    let mut status = Status::Done;
    for line in reader.split(alloc, b'\n') {
        let line = line?;
        status = status_after(status, ask_line(alloc, book, &line, out)?);
    }
    Ok(status)
}

/// Asks a book the command of a line, and writes the line of its answer. An empty line asks nothing.
fn ask_line<S: Alter, O: Write>(
    alloc: Global,
    book: &mut Book<S>,
    line: &[u8],
    out: &mut O,
) -> Result<Status, Stop>
    ensures answered { let requests = lines.requests_of (lines.not_empty (line.now ∷ [])) in
        IfOk result (spec.AreRequestsAnswered S.Store book.old book.new (O.contents out.old)
        (O.contents out.new) requests) }
    ensures stopped { let requests = lines.requests_of (lines.not_empty (line.now ∷ [])) in
        IfErr result (spec.AreStoppedAtLast S.Store book.old book.new (O.contents out.old)
        (O.contents out.new) requests) }
    ensures calls { IsAfterCalls S.Store book.old book.new }
{
    if line.is_empty() {
        return Ok(Status::Done);
    }
    ask_body(alloc, book, line, out)
}

/// Returns how the program ends after a line more: as refused after any that is refused.
pub(crate) fn status_after(status: Status, told: Status) -> Status
    ensures { result ≡ spec.status_after status told }
{
    match told {
        Status::Refused => Status::Refused,
        _ => status,
    }
}
