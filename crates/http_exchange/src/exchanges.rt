//! One exchange: a head is read, then a body, then the handler is asked, and then its answer is written. The definitions
//! are in `specs/Exchange.antt`.
//! What clients send and are answered: `tests/exchanges.py`. Wrong bodies: `must-fail/` and `must-fail-more/`.
ghost use Rattle.std.specs.Prelude.{IfErr, IfOk};
ghost use Rattle.http_exchange.specs.Exchange as spec;

use crate::handler::{Handler, Request};
use crate::receiving::{Received, receive};
use crate::sending::{ChannelFault, send_answer, send_fault, send_no_memory};
use http::StatusCode;
use http_message::{HeadRead, ReadFault, RequestFault, read_head};
use std::alloc::Global;
use std::io::{Read, Write};

/// What was served.
#[derive(Clone, Copy, Debug, PartialEq, Eq)]
pub enum Served {
    /// A response, of this status in the end.
    Answered(StatusCode),
    /// Nothing: the input ended before its first byte.
    Nothing,
}

/// Reads a request, has the handler answer it by what is kept, and writes the response. Nothing is read past the head and the body that
/// it announces, so that a second request on the connection is not read. A client that waits is told to go on before its body is read:
/// where the reader fails, no more than that is written.
pub fn exchange<R: Read, W: Write, K, H: Handler<K>>(
    alloc: Global,
    reader: &mut R,
    writer: &mut W,
    handler: &H,
    kept: &mut K,
) -> Result<Served, ChannelFault>
    ensures served { IfOk result
        (λ it. spec.IsExchangeServed H.handles (R.remaining reader.old) (R.remaining reader.new)
        (W.contents writer.old) (W.contents writer.new) kept.old kept.new it) }
    ensures failed { IfErr result
        (λ fault. spec.IsExchangeBrokenOff H.handles (R.remaining reader.old)
        (W.contents writer.old) (W.contents writer.new) kept.old kept.new fault) }
    ensures once { spec.AsksHandlerOnce H.handles kept.old kept.new }
{
    let head = match read_head(alloc, reader) {
        Ok(HeadRead::Whole(head)) => head,
        Ok(HeadRead::Nothing) => return Ok(Served::Nothing),
        Ok(HeadRead::NoHead) => {
            let status = send_fault(alloc, writer, RequestFault::NoHead, false)?;
            return Ok(Served::Answered(status));
        }
        Err(ReadFault::Memory) => return Ok(Served::Answered(send_no_memory(writer, false)?)),
        Err(ReadFault::Reader) => return Err(ChannelFault::Reader),
    };
    let answer = match receive(alloc, reader, writer, &head)? {
        Received::Body(to, body) => handler.handle(alloc, kept, &Request::Submit(to, &body)),
        Received::Report(subject, form) => {
            handler.handle(alloc, kept, &Request::Show(subject, form))
        }
        Received::Desk => handler.handle(alloc, kept, &Request::ShowDesk),
        Received::Count => handler.handle(alloc, kept, &Request::ShowCount),
        Received::Answered(status) => return Ok(Served::Answered(status)),
    };
    let status = send_answer(alloc, writer, answer, head.is_for_head())?;
    Ok(Served::Answered(status))
}
