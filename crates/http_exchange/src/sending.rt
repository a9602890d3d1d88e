//! Final responses, as they are written.
//! What clients are answered: `tests/exchanges.py`. Wrong bodies: `must-fail-more/`.
ghost use Rattle.std.specs.Prelude.{◌≡◌, [], IfErr, IfOk, MatchResult};
ghost use Rattle.std.specs.Io.KnownBytes.{Appends};
ghost use Rattle.http_exchange.specs.Handler.{answer_or_fault};
ghost use Rattle.http_exchange.specs.Final as spec;
ghost use Rattle.http_exchange.specs.declared.sending.ChannelFault.TheVariants.{Writer};

use crate::handler::{HandlerFault, Response};
use http::StatusCode;
use http_message::{RequestFault, fault_response, no_memory_response, no_store_response, response};
use std::alloc::Global;
use std::io::Write;

/// What of the channel failed.
#[derive(Clone, Copy, Debug, PartialEq, Eq)]
pub enum ChannelFault {
    /// The reader. Nothing was asked, and nothing but 100 (Continue) is written.
    Reader,
    /// The writer.
    Writer,
}

/// Writes all bytes, and hands them on at once.
pub(crate) fn send<W: Write>(writer: &mut W, bytes: &[u8]) -> Result<(), ChannelFault>
    ensures { MatchResult result
        (λ _. Appends (W.contents writer.old) (W.contents writer.new) bytes.now)
        (λ fault. fault ≡ Writer) }
{
    if writer.write_all(bytes).is_err() || writer.flush().is_err() {
        return Err(ChannelFault::Writer);
    }
    Ok(())
}

/// Writes that a request is refused, or that there is no memory to report it.
pub(crate) fn send_fault<W: Write>(
    alloc: Global,
    writer: &mut W,
    fault: RequestFault,
    is_head: bool,
) -> Result<StatusCode, ChannelFault>
    ensures { spec.OrFails result (λ code. spec.IsFinalTold [] (W.contents writer.old)
        (W.contents writer.new) code (spec.of_fault fault is_head) is_head) }
{
    match fault_response(alloc, fault, is_head) {
        Ok(bytes) => {
            send(writer, bytes.as_bytes())?;
            Ok(fault.status())
        }
        Err(_) => send_no_memory(writer, is_head),
    }
}

/// Writes that there is no memory.
pub(crate) fn send_no_memory<W: Write>(
    writer: &mut W,
    is_head: bool,
) -> Result<StatusCode, ChannelFault>
    ensures { spec.OrFails result (λ code. spec.IsSent [] (W.contents writer.old)
        (W.contents writer.new) code (spec.of_no_memory is_head)) }
{
    send(writer, no_memory_response(is_head))?;
    Ok(StatusCode::SERVICE_UNAVAILABLE)
}

/// Writes that the store failed.
fn send_no_store<W: Write>(writer: &mut W, is_head: bool) -> Result<StatusCode, ChannelFault>
    ensures { spec.OrFails result (λ code. spec.IsSent [] (W.contents writer.old)
        (W.contents writer.new) code (spec.of_no_store is_head)) }
{
    send(writer, no_store_response(is_head))?;
    Ok(StatusCode::SERVICE_UNAVAILABLE)
}

/// Writes a response, or that there is no memory for it.
fn send_response<W: Write>(
    alloc: Global,
    writer: &mut W,
    answer: &Response,
    is_head: bool,
) -> Result<StatusCode, ChannelFault>
    ensures { spec.OrFails result (λ code. spec.IsFinalTold [] (W.contents writer.old)
        (W.contents writer.new) code (spec.of_response answer.now is_head) is_head) }
{
    match response(
        alloc,
        answer.status,
        answer.media_type,
        answer.advice,
        &answer.text,
        is_head,
    ) {
        Ok(bytes) => {
            send(writer, bytes.as_bytes())?;
            Ok(answer.status)
        }
        Err(_) => send_no_memory(writer, is_head),
    }
}

/// Writes what a handler answered.
pub(crate) fn send_answer<W: Write>(
    alloc: Global,
    writer: &mut W,
    answer: Result<Response, HandlerFault>,
    is_head: bool,
) -> Result<StatusCode, ChannelFault>
    ensures { spec.OrFails result (λ code. spec.IsAnswerTold [] (W.contents writer.old)
        (W.contents writer.new) code (answer_or_fault answer) is_head) }
{
    match answer {
        Ok(answer) => send_response(alloc, writer, &answer, is_head),
        Err(HandlerFault::Store) => send_no_store(writer, is_head),
        Err(HandlerFault::Memory) => send_no_memory(writer, is_head),
    }
}
