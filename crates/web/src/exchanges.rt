//! One exchange with a book. The response to an input in a state is `specs/Response.antt`.
//! What clients send and are answered: `tests/exchanges.py`. Wrong bodies: `must-fail/` and `must-fail-more/`.
ghost use Rattle.std.specs.Prelude.{◌≡◌, IfErr, IfOk, IsTrue};
ghost use Rattle.roster.specs.Honest.{Honest};
ghost use Rattle.roster.specs.State.{State};
ghost use Rattle.sqlite.specs.Held.{state};
ghost use Rattle.writing.specs.Beside.{KeepOthers};
ghost use Rattle.state_rows.specs.Outcomes.{CrashAddsOnly, CrashLeaves};
ghost use Rattle.book.specs.Calls.{IsAfterCalls};
ghost use Rattle.book.specs.Kept.{IsDurablyAt, IsClean};
ghost use Rattle.web.specs.Serving as spec;

use crate::answers::{respond, respond_lines, show, show_count, show_desk};
use crate::imports::answer_schedule;
use asking::{ask_count, ask_lines, ask_report, ask_request, check_lines, check_request};
use book::Book;
use http_exchange::{ChannelFault, Handler, HandlerFault, Request, Response, Served};
use http_message::Submission;
use sqlite::Alter;
use std::alloc::Global;
use std::io::{Read, Write};

/// Answers the requests of exchanges by a book.
struct BookHandler;

impl<S: Alter> Handler<Book<S>> for BookHandler {
    ghost use Rattle.web.specs.Handling.{IsHandled};

    ghost handles = { λ old new asked result. IsHandled S.Store old new asked result };

    fn handle(
        &self,
        alloc: Global,
        book: &mut Book<S>,
        request: &Request<'_>,
    ) -> Result<Response, HandlerFault> {
        match request {
            Request::Submit(Submission::Command, body) => respond(ask_request(alloc, book, body)),
            Request::Submit(Submission::Check, body) => respond(check_request(alloc, book, body)),
            Request::Submit(Submission::Lines, body) => {
                respond_lines(ask_lines(alloc, book, body))
            }
            Request::Submit(Submission::LineChecks, body) => {
                respond_lines(check_lines(alloc, book, body))
            }
            Request::Submit(Submission::Import(number), body) => {
                answer_schedule(alloc, book, *number, body)
            }
            Request::Show(subject, form) => {
                show(alloc, *form, ask_report(alloc, book, subject, *form))
            }
            Request::ShowDesk => show_desk(alloc),
            Request::ShowCount => show_count(alloc, ask_count(alloc, book)),
        }
    }
}

/// Reads a request, has the book answer it, and writes the response (RFC 9112): a command, or commands, one a line, which may
/// only be checked, a schedule to be imported, a report, the count of requests, or the page of the desk.
/// Nothing is read past the head and the body that it announces. Where the book's store fails (90) or no memory is found (91), 503
/// says so; after 91 the request may be made again, under its number. A book that has failed does nothing more: a body of which
/// nothing is read is answered all the same, the page is shown, and what is read gets 503 (90).
pub fn exchange<R: Read, W: Write, S: Alter>(
    alloc: Global,
    reader: &mut R,
    writer: &mut W,
    book: &mut Book<S>,
) -> Result<Served, ChannelFault>
    // The response, or where the exchange is broken off; and that the book is asked once.
    ensures served { (s : State) → IsDurablyAt S.Store book.old s → IsClean S.Store book.new
        → IfOk result
        (λ it. spec.IsServed S.Store s (R.remaining reader.old) (R.remaining reader.new)
        (W.contents writer.old) (W.contents writer.new) book.old book.new it) }
    ensures broken_off { (s : State) → IsDurablyAt S.Store book.old s → IfErr result
        (λ fault. spec.IsBrokenOff S.Store s (R.remaining reader.old)
        (W.contents writer.old) (W.contents writer.new) book.old book.new fault) }
    ensures once { (s : State) → IsDurablyAt S.Store book.old s
        → spec.AsksOnce S.Store s book.old book.new }

    // A book that has failed, the disk, and an honest book.
    ensures shut { IsTrue book.old.failed → (book.new ≡ book.old) × IfOk result
        (λ it. spec.IsServedShut (R.remaining reader.old) (R.remaining reader.new)
        (W.contents writer.old) (W.contents writer.new) book.old book.new it) }
    ensures disk { IsClean S.Store book.new → IsClean S.Store book.old }
    ensures honest { (s : State) → IsDurablyAt S.Store book.old s → Honest s
        → CrashLeaves (state S.Store book.new.held) Honest }

    // What stands beside the book in the database.
    ensures others_left { CrashAddsOnly (state S.Store book.old.held) (state S.Store book.new.held)
        (KeepOthers (state S.Store book.old.held).now) }

    // What was done to the book is a list of calls, of which a life is made.
    ensures calls { IsAfterCalls S.Store book.old book.new }
{
    http_exchange::exchange(alloc, reader, writer, &BookHandler, book)
}
