//! What a request whose head was read asks for: a body that is taken in, a report, the page of the desk, the count of requests, or
//! nothing.
//! What clients send and are answered: `tests/exchanges.py`. Wrong bodies: `must-fail-more/`.
ghost use Rattle.std.specs.Prelude.{◌≡◌, MatchResult};
ghost use Rattle.std.specs.Io.KnownBytes.{Appends};
ghost use Rattle.http_message.specs.Plan.{plan_for_head};
ghost use Rattle.http_exchange.specs.Exchange.{interim_bytes, receiving};
ghost use Rattle.http_exchange.specs.Receiving as spec;
ghost use Rattle.http_exchange.specs.declared.sending.ChannelFault.TheVariants.{Writer};

use crate::body::{BodyRead, read_body};
use crate::sending::{ChannelFault, send, send_fault, send_no_memory};
use http::StatusCode;
use http_message::{CONTINUE, ExpectedBody, Head, HeadAction, RequestFault, Submission, plan_of};
use request::{Form, Subject};
use std::alloc::Global;
use std::io::{Read, Write};

/// What a request asks for.
#[derive(Drop)]
pub(crate) enum Received<'h> {
    /// To do what this body says.
    Body(Submission, Vec<u8>),
    /// To show the report on this, in this form.
    Report(Subject<&'h str, &'h str>, Form),
    /// To show the page of the desk.
    Desk,
    /// To show how many requests are kept.
    Count,
    /// Nothing: it was answered under this status.
    Answered(StatusCode),
}

/// Takes in what a head announces. A request that asks for nothing is refused.
pub(crate) fn receive<'h, R: Read, W: Write>(
    alloc: Global,
    reader: &mut R,
    writer: &mut W,
    head: &'h Head,
) -> Result<Received<'h>, ChannelFault>
    ensures { spec.IsReceivedOrFails (plan_for_head head.now) (R.remaining reader.old)
        (R.remaining reader.new) (W.contents writer.old) (W.contents writer.new) result }
{
    let is_head = head.is_for_head();
    let Ok(plan) = plan_of(alloc, head) else {
        return Ok(Received::Answered(send_no_memory(writer, is_head)?));
    };
    match plan.action {
        HeadAction::Refuse(fault) => {
            let status = send_fault(alloc, writer, fault, is_head)?;
            Ok(Received::Answered(status))
        }
        HeadAction::Show(subject, form) => Ok(Received::Report(subject, form)),
        HeadAction::ShowDesk => Ok(Received::Desk),
        HeadAction::ShowCount => Ok(Received::Count),
        HeadAction::Receive(expected) => receive_body(alloc, reader, writer, expected, is_head),
    }
}

/// Takes in a body. Room for it is made before a client is told to go on.
fn receive_body<'h, R: Read, W: Write>(
    alloc: Global,
    reader: &mut R,
    writer: &mut W,
    expected: ExpectedBody,
    is_head: bool,
) -> Result<Received<'h>, ChannelFault>
    ensures { spec.IsReceivedOrFails (receiving expected is_head) (R.remaining reader.old)
        (R.remaining reader.new) (W.contents writer.old) (W.contents writer.new) result }
{
    let Ok(room) = Vec::with_capacity(alloc, expected.length) else {
        return Ok(Received::Answered(send_no_memory(writer, is_head)?));
    };
    go_on(writer, expected.continues)?;
    match read_body(reader, room, expected.length) {
        Ok(BodyRead::Whole(body)) => Ok(Received::Body(expected.to, body)),
        Ok(BodyRead::Cut) => {
            let status = send_fault(alloc, writer, RequestFault::CutBody, is_head)?;
            Ok(Received::Answered(status))
        }
        Err(_) => Err(ChannelFault::Reader),
    }
}

/// Tells a client that waits for it to go on and send the body.
fn go_on<W: Write>(writer: &mut W, waits: bool) -> Result<(), ChannelFault>
    ensures { MatchResult result
        (λ _. Appends (W.contents writer.old) (W.contents writer.new) (interim_bytes waits))
        (λ fault. fault ≡ Writer) }
{
    if waits {
        send(writer, CONTINUE)?;
    }
    Ok(())
}
