//! What answers the requests of exchanges.
ghost use Rattle.std.specs.Prelude.{Result};
ghost use Rattle.http_exchange.specs.Handler as spec;

use http::StatusCode;
use http_message::{BrowserAdvice, MediaType, Submission};
use request::{Form, Subject};
use std::alloc::Global;

/// What is asked of a handler.
#[derive(Clone, Copy)]
pub enum Request<'a> {
    /// To do what a body says.
    Submit(Submission, &'a [u8]),
    /// To show the report on this, in this form.
    Show(Subject<&'a str, &'a str>, Form),
    /// To show the page of the desk.
    ShowDesk,
    /// To show how many requests are kept.
    ShowCount,
}

/// What a handler answers.
#[derive(Drop)]
pub struct Response {
    /// The status, which is not an interim one (RFC 9110, section 15).
    pub status: StatusCode,
    /// What the text is.
    pub media_type: MediaType,
    /// How a browser is to treat the text.
    pub advice: BrowserAdvice,
    /// The text.
    pub text: String,
}

/// Why a handler doesn't answer. Either is reported as 503.
#[derive(Clone, Copy, Debug, PartialEq, Eq)]
pub enum HandlerFault {
    /// Its store failed.
    Store,
    /// There was no memory.
    Memory,
}

/// What answers the requests of exchanges by what is kept, which it may change.
pub trait Handler<K> {
    ghost use Rattle.http_exchange.specs.declared.handler.HandlerFault.{HandlerFault};

    // what is kept was so before, and so after it was asked this and gave this answer
    ghost handles: { K → K → spec.HandlerRequest → Result spec.StatusText HandlerFault → Type 0 };

    /// Answers a request.
    fn handle(
        &self,
        alloc: Global,
        kept: &mut K,
        request: &Request<'_>,
    ) -> Result<Response, HandlerFault>
        ensures { handles kept.old kept.new (spec.handler_request request.now)
            (spec.answer_or_fault result) };
}
