//! Requests that are only checked: how a book would answer the command of a body now. The definition is `IsRequestChecked`
//! (`specs/Requests.antt`).
//! What clients of the server are answered: `tests/exchanges.py`. Wrong bodies: `must-fail/`.
ghost use Rattle.book.specs.Calls.{IsAfterCalls};
ghost use Rattle.asking.specs.Requests as spec;

use crate::answers::{AskFault, JsonAnswer, refuse_unread, report_answer};
use book::Book;
use codec::{CodecFault, command_of_json};
use command::Key;
use sqlite::Alter;
use std::alloc::Global;

/// Asks a book how it would answer a request's body now, and answers in JSON what it answered, or why the body isn't read.
/// Nothing is kept.
pub fn check_request<S: Alter>(
    alloc: Global,
    book: &mut Book<S>,
    body: &[u8],
) -> Result<JsonAnswer, AskFault>
    ensures checked { spec.IsRequestChecked S.Store book.old book.new body.now result }
    ensures calls { IsAfterCalls S.Store book.old book.new }
{
    match command_of_json(alloc, body) {
        Ok((number, command)) => {
            let answer = book.check(alloc, Key::new(number, 0), &command);
            drop(command);
            report_answer(alloc, answer)
        }
        Err(CodecFault::Memory) => Err(AskFault::Memory),
        Err(fault) => refuse_unread(alloc, fault),
    }
}
