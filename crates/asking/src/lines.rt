//! Lines: each is the body of a request, and a book is asked the commands of all in turn. The definitions are in
//! `specs/Lines.antt`.
//! What clients of the server are answered: `tests/lines_http.py`. Wrong bodies: `must-fail/` and `must-fail-more/`.
ghost use Rattle.std.specs.Prelude.{◌≡◌, IfOk, map};
ghost use Rattle.book.specs.Answered.{IsAnswered};
ghost use Rattle.book.specs.Calls.{IsAfterCalls};
ghost use Rattle.asking.specs.Requests.{HasChecked};
ghost use Rattle.asking.specs.Lines as spec;

use crate::answers::AskFault;
use crate::answers_text::AnswersText;
use crate::checks::check_request;
use crate::requests::ask_request;
use book::Book;
use sqlite::Alter;
use std::alloc::{AllocError, Global};

/// Asks a book the commands of a body in turn, one a line, and answers in JSON, as `{"answers":[..]}`, what it answered to each, or
/// why a line isn't read. An empty line is passed over. A fault leaves the commands that were answered; after one of the store
/// (90), or where there is no memory for an answer (91), the next may be kept too. The lines asked again under their numbers,
/// those that were kept are answered as they were.
pub fn ask_lines<S: Alter>(
    alloc: Global,
    book: &mut Book<S>,
    body: &[u8],
) -> Result<String, AskFault>
    ensures asked { spec.IsEachAsked S.Store book.old book.new body.now result }
    ensures calls { IsAfterCalls S.Store book.old book.new }
{
    let lines = lines_of(alloc, body)?;
    ask_each(alloc, book, &lines)
}

/// Asks a book how it would answer each command of a body, one a line, if it were asked that one alone now, and answers in JSON
/// as `ask_lines` does. Nothing is kept.
pub fn check_lines<S: Alter>(
    alloc: Global,
    book: &mut Book<S>,
    body: &[u8],
) -> Result<String, AskFault>
    ensures checked { spec.IsEachChecked S.Store book.old book.new body.now result }
    ensures calls { IsAfterCalls S.Store book.old book.new }
{
    let lines = lines_of(alloc, body)?;
    check_each(alloc, book, &lines)
}

/// Cuts a body at its line feeds.
fn lines_of(alloc: Global, body: &[u8]) -> Result<Vec<&[u8]>, AllocError>
    ensures { IfOk result (λ lines. map (λ line. line.now) lines.items ≡ spec.all_lines body.now) }
{
    body.split(|byte| *byte == b'\n').collect(alloc)
}

/// Asks a book the commands of these lines. An empty line is passed over.
fn ask_each<S: Alter>(
    alloc: Global,
    book: &mut Book<S>,
    lines: &[&[u8]],
) -> Result<String, AskFault>
    ensures asked { spec.AreTaken (IsAnswered S.Store) book.old book.new
        (spec.requests_of (spec.not_empty (map (λ line. line.now) lines.now))) result }
    ensures calls { IsAfterCalls S.Store book.old book.new }
{
    let mut answers = AnswersText::begin(alloc)?;
    for line in lines {
        if line.is_empty() {
            continue;
        }
        let answer = ask_request(alloc, book, line)?;
        answers.add(&answer.text)?;
    }
    Ok(answers.end()?)
}

/// Asks a book how it would answer each command of these lines. An empty line is passed over.
fn check_each<S: Alter>(
    alloc: Global,
    book: &mut Book<S>,
    lines: &[&[u8]],
) -> Result<String, AskFault>
    ensures checked { spec.AreTaken (HasChecked S.Store) book.old book.new
        (spec.requests_of (spec.not_empty (map (λ line. line.now) lines.now))) result }
    ensures calls { IsAfterCalls S.Store book.old book.new }
{
    let mut answers = AnswersText::begin(alloc)?;
    for line in lines {
        if line.is_empty() {
            continue;
        }
        let answer = check_request(alloc, book, line)?;
        answers.add(&answer.text)?;
    }
    Ok(answers.end()?)
}
