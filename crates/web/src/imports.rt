//! Schedules that are posted.
//! What clients send and are answered: `tests/exchanges.py`. Wrong bodies: `must-fail-more/`.
ghost use Rattle.http_message.specs.declared.plan.Submission.TheVariants as submission;
ghost use Rattle.http_exchange.specs.Handler.{answer_or_fault, submit};
ghost use Rattle.web.specs.Handling as spec;

use crate::answers::{fault_of, in_json, respond_unread};
use crate::parts::PartsText;
use asking::{NotAllAsked, ask_schedule};
use book::Book;
use http::StatusCode;
use http_exchange::{HandlerFault, Response};
use request::RequestNumber;
use sqlite::Alter;
use std::alloc::Global;

/// Answers a schedule that is posted under a number: each pairing is a command, and so a part of the answer. A book that has failed
/// answers none, also where there is no pairing.
pub(crate) fn answer_schedule<S: Alter>(
    alloc: Global,
    book: &mut Book<S>,
    number: RequestNumber,
    body: &[u8],
) -> Result<Response, HandlerFault>
    ensures { spec.IsHandled S.Store book.old book.new (submit (submission.Import number) body.now)
        (answer_or_fault result) }
{
    let Ok(mut parts) = PartsText::begin(alloc) else {
        return Err(HandlerFault::Memory);
    };
    match ask_schedule(alloc, book, number, body, &mut parts) {
        Ok(()) if book.has_failed() => Err(HandlerFault::Store),
        Ok(()) => in_json(StatusCode::OK, parts.end()),
        Err(NotAllAsked::Unread(fault)) => respond_unread(alloc, fault),
        Err(NotAllAsked::Ask(fault)) => Err(fault_of(fault)),
        Err(NotAllAsked::Unheard(_)) => Err(HandlerFault::Memory),
    }
}
