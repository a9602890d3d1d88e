//! Requests: the command of a body, asked of a book. The definition is `IsRequestAsked` (`specs/Requests.antt`).
//! Requests of `do`: `tests/answers.py`; of the server: `tests/exchanges.py`. Wrong bodies: `must-fail/` and `must-fail-more/`.
ghost use Rattle.book.specs.Calls.{IsAfterCalls};
ghost use Rattle.asking.specs.Requests as spec;

use crate::answers::{AskFault, JsonAnswer, refuse_unread, report_answer};
use book::Book;
use codec::{CodecFault, command_of_json};
use command::Key;
use sqlite::Alter;
use std::alloc::Global;

/// Asks a book the command of a request's body, and answers in JSON what it answered, or why the body isn't read. After a
/// fault the command may be kept; asked again under its number, it is answered as it was.
pub fn ask_request<S: Alter>(
    alloc: Global,
    book: &mut Book<S>,
    body: &[u8],
) -> Result<JsonAnswer, AskFault>
    ensures asked { spec.IsRequestAsked S.Store book.old book.new body.now result }
    ensures calls { IsAfterCalls S.Store book.old book.new }
{
    match command_of_json(alloc, body) {
        Ok((number, command)) => {
            // It has no fault, as the commands of a call have none.
            let _made = command.instruction();
            let answer = book.ask(alloc, Key::new(number, 0), &command);
            drop(command);
            report_answer(alloc, answer)
        }
        Err(CodecFault::Memory) => Err(AskFault::Memory),
        Err(fault) => refuse_unread(alloc, fault),
    }
}
