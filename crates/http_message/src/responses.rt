//! A response as bytes. The definitions are in `specs/Response.antt`.
//! What clients are answered: `tests/exchanges.py`. Wrong bodies: `must-fail/` and `must-fail-more/`.
ghost use Rattle.std.specs.Prelude.{◌≡◌, ◌++◌, IfOk, string_bytes};
ghost use Rattle.http_message.specs.Response as spec;

use crate::refusals::{Methods, RequestFault};
use http::StatusCode;
use std::alloc::Global;
use values::MemoryFault;

/// The interim response that asks for a body (RFC 9110, section 15.2.1).
pub const CONTINUE: &[u8] = b"HTTP/1.1 100 Continue\r\n\r\n";

/// What a text is (RFC 9110, section 8.3).
#[derive(Clone, Copy, Debug, PartialEq, Eq)]
pub enum MediaType {
    /// JSON.
    Json,
    /// A report.
    PlainText,
    /// A page.
    Html,
}

/// How a browser is to treat a text.
#[derive(Clone, Copy)]
pub enum BrowserAdvice {
    /// Nothing is said of it.
    Nothing,
    /// It isn't kept (RFC 9111, section 5.2.2.5), taken for another type, or given to a page of another site.
    Unkept,
    /// It is a page under this policy (Content Security Policy, level 3), which is asked for anew each time.
    Page(&'static str),
}

/// Writes a response with a text, which to `HEAD` is left out.
pub fn response(
    alloc: Global,
    status: StatusCode,
    media_type: MediaType,
    advice: BrowserAdvice,
    text: &str,
    is_head: bool,
) -> Result<String, MemoryFault>
    ensures { IfOk result (λ it. string_bytes it
        ≡ spec.response status media_type (spec.advice_lines advice) text.now is_head) }
{
    message(alloc, status, media_type, None, advice, text, is_head)
}

/// Writes the response to a request that is refused: its status, in JSON too.
pub fn fault_response(
    alloc: Global,
    fault: RequestFault,
    is_head: bool,
) -> Result<String, MemoryFault>
    ensures { IfOk result (λ it. string_bytes it ≡ spec.fault_response fault is_head) }
{
    let status = fault.status();
    let text = fault_text(alloc, status.as_u16())?;
    message(
        alloc,
        status,
        MediaType::Json,
        fault.allow(),
        BrowserAdvice::Nothing,
        &text,
        is_head,
    )
}

/// Returns the response where no memory is left, which takes none.
pub fn no_memory_response(is_head: bool) -> &'static [u8]
    ensures { result.now ≡ spec.no_memory is_head }
{
    if is_head {
        b"HTTP/1.1 503 Service Unavailable\r\nContent-Type: application/json\r\nContent-Length: 49\r\nConnection: close\r\n\r\n"
    } else {
        b"HTTP/1.1 503 Service Unavailable\r\nContent-Type: application/json\r\nContent-Length: 49\r\nConnection: close\r\n\r\n{\"name\":\"Memory\",\"refusal\":91,\"result\":\"refused\"}"
    }
}

/// Returns the response where the store failed, which takes no memory either: out of memory, 91 would be reported of a
/// store that failed.
pub fn no_store_response(is_head: bool) -> &'static [u8]
    ensures { result.now ≡ spec.no_store is_head }
{
    if is_head {
        b"HTTP/1.1 503 Service Unavailable\r\nContent-Type: application/json\r\nContent-Length: 48\r\nConnection: close\r\n\r\n"
    } else {
        b"HTTP/1.1 503 Service Unavailable\r\nContent-Type: application/json\r\nContent-Length: 48\r\nConnection: close\r\n\r\n{\"name\":\"Store\",\"refusal\":90,\"result\":\"refused\"}"
    }
}

/// Writes head and text of a response.
fn message(
    alloc: Global,
    status: StatusCode,
    media_type: MediaType,
    allow: Option<Methods>,
    advice: BrowserAdvice,
    text: &str,
    is_head: bool,
) -> Result<String, MemoryFault>
    ensures { IfOk result (λ it. string_bytes it
        ≡ spec.message status media_type allow (spec.advice_lines advice) text.now is_head) }
{
    let mut out = head(alloc, status, media_type, allow, advice, text.len())?;
    if !is_head {
        out.push_str(text)?;
    }
    Ok(out)
}

/// Writes the head of a response to a text of this many bytes.
fn head(
    alloc: Global,
    status: StatusCode,
    media_type: MediaType,
    allow: Option<Methods>,
    advice: BrowserAdvice,
    length: usize,
) -> Result<String, MemoryFault>
    ensures { IfOk result (λ it. string_bytes it
        ≡ spec.head status media_type allow (spec.advice_lines advice) length) }
{
    let mut out = status_line(alloc, status)?;
    out.push_str(type_line(media_type))?;
    out.push_str(&length_line(alloc, length)?)?;
    out.push_str(allow_line(allow))?;
    out.push_str(&advice_lines(alloc, advice)?)?;
    out.push_str(close_line())?;
    Ok(out)
}

/// Writes the status with its phrase (RFC 9112, section 4).
#[tactic(auto, unfolding(crate::specs::Response::status_line))]
fn status_line(alloc: Global, status: StatusCode) -> Result<String, MemoryFault>
    ensures { IfOk result (λ it. string_bytes it ≡ spec.status_line status) }
{
    Ok(format!(in alloc; "HTTP/1.1 {status}\r\n")?)
}

#[tactic(auto, unfolding(crate::specs::Response::type_line))]
fn type_line(media_type: MediaType) -> &'static str
    ensures { result.now ≡ spec.type_line media_type }
{
    match media_type {
        MediaType::Json => "Content-Type: application/json\r\n",
        MediaType::PlainText => "Content-Type: text/plain; charset=utf-8\r\n",
        MediaType::Html => "Content-Type: text/html; charset=utf-8\r\n",
    }
}

#[tactic(auto, unfolding(crate::specs::Response::length_line))]
fn length_line(alloc: Global, length: usize) -> Result<String, MemoryFault>
    ensures { IfOk result (λ it. string_bytes it ≡ spec.length_line length) }
{
    Ok(format!(in alloc; "Content-Length: {length}\r\n")?)
}

#[tactic(auto, unfolding(crate::specs::Response::allow_line))]
fn allow_line(allow: Option<Methods>) -> &'static str
    ensures { result.now ≡ spec.allow_line allow }
{
    match allow {
        None => "",
        Some(Methods::Post) => "Allow: POST\r\n",
        Some(Methods::GetAndHead) => "Allow: GET, HEAD\r\n",
    }
}

/// Writes the fields that say how a browser is to treat a text.
fn advice_lines(alloc: Global, advice: BrowserAdvice) -> Result<String, MemoryFault>
    ensures { IfOk result (λ it. string_bytes it ≡ spec.advice_lines advice) }
{
    match advice {
        BrowserAdvice::Nothing => Ok(String::new(alloc)),
        BrowserAdvice::Unkept => Ok(String::from_str(alloc, unkept_lines())?),
        BrowserAdvice::Page(policy) => {
            let mut out = policy_line(alloc, policy)?;
            out.push_str(page_lines())?;
            Ok(out)
        }
    }
}

#[tactic(auto, unfolding(crate::specs::Response::unkept_lines, crate::specs::Response::own_lines))]
fn unkept_lines() -> &'static str
    ensures { result.now ≡ spec.unkept_lines }
{
    "Cache-Control: no-store\r\nX-Content-Type-Options: nosniff\r\nCross-Origin-Resource-Policy: same-origin\r\n"
}

#[tactic(auto, unfolding(crate::specs::Response::policy_line))]
fn policy_line(alloc: Global, policy: &str) -> Result<String, MemoryFault>
    ensures { IfOk result (λ it. string_bytes it ≡ spec.policy_line policy.now) }
{
    Ok(format!(in alloc; "Content-Security-Policy: {policy}\r\n")?)
}

#[tactic(auto, unfolding(crate::specs::Response::page_lines, crate::specs::Response::own_lines))]
fn page_lines() -> &'static str
    ensures { result.now ≡ spec.page_lines }
{
    "Cache-Control: no-cache\r\nX-Frame-Options: DENY\r\nReferrer-Policy: no-referrer\r\nCross-Origin-Opener-Policy: same-origin\r\nX-Content-Type-Options: nosniff\r\nCross-Origin-Resource-Policy: same-origin\r\n"
}

/// Returns the last field, and the empty line that ends the head.
#[tactic(auto, unfolding(crate::specs::Response::close_line))]
fn close_line() -> &'static str
    ensures { result.now ≡ spec.close_line ++ spec.crlf }
{
    "Connection: close\r\n\r\n"
}

/// Writes the text that reports a status in JSON.
#[tactic(auto, unfolding(crate::specs::Response::status_error_text))]
fn fault_text(alloc: Global, status: u16) -> Result<String, MemoryFault>
    ensures { IfOk result (λ it. string_bytes it ≡ spec.status_error_text status) }
{
    Ok(format!(in alloc; "{{\"result\":\"error\",\"status\":{status}}}")?)
}
