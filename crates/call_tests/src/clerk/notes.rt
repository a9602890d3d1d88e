//! A handler for tests.
use http::StatusCode;
use http_exchange::{Handler, HandlerFault, Request, Response};
use http_message::{BrowserAdvice, MediaType, Submission};
use std::alloc::{AllocError, Global};
use std::str::from_utf8;

/// A handler that notes what it is asked, and answers as a book without crew does.
#[derive(Drop)]
pub struct Clerk;

impl Handler<String> for Clerk {
    ghost use Rattle.std.specs.Prelude.{⊤};

    ghost handles = { λ _ _ _ _. ⊤ };

    fn handle(
        &self,
        alloc: Global,
        notes: &mut String,
        request: &Request<'_>,
    ) -> Result<Response, HandlerFault> {
        let Ok(note) = note_of(alloc, request) else {
            return Err(HandlerFault::Memory);
        };
        if notes.push_str(&note).is_err() {
            return Err(HandlerFault::Memory);
        }
        answer_to(alloc, &note)
    }
}

/// What is asked, in words.
fn note_of(alloc: Global, request: &Request<'_>) -> Result<String, AllocError> {
    match request {
        Request::Submit(Submission::Command, body) => {
            format!(in alloc; "command {}", text_of(body))
        }
        Request::Submit(Submission::Check, body) => { format!(in alloc; "check {}", text_of(body)) }
        Request::Submit(Submission::Lines, body) => { format!(in alloc; "lines {}", text_of(body)) }
        Request::Submit(Submission::LineChecks, body) => {
            format!(in alloc; "line checks {}", text_of(body))
        }
        Request::Submit(Submission::Import(number), body) => {
            format!(in alloc; "import {} {}", number.get(), text_of(body))
        }
        Request::Show(subject, form) => format!(in alloc; "{form:?} of {subject:?}"),
        Request::ShowDesk => String::from_str(alloc, "desk"),
        Request::ShowCount => String::from_str(alloc, "count"),
    }
}

fn text_of(bytes: &[u8]) -> &str {
    from_utf8(bytes).unwrap_or("no text")
}

fn answer_to(alloc: Global, note: &str) -> Result<Response, HandlerFault> {
    match note {
        "desk" => answer_of(
            alloc,
            StatusCode::OK,
            MediaType::Html,
            BrowserAdvice::Page("default-src 'none'"),
            "<!DOCTYPE html>\n",
        ),
        "Json of Exceedances" => answer_of(
            alloc,
            StatusCode::OK,
            MediaType::Json,
            BrowserAdvice::Unkept,
            "{\"exceedances\":[]}",
        ),
        "Text of Exceedances" => answer_of(
            alloc,
            StatusCode::OK,
            MediaType::PlainText,
            BrowserAdvice::Nothing,
            "EXCEEDANCES 0\n",
        ),
        "Text of Crew(\"C9\")" => answer_of(
            alloc,
            StatusCode::NOT_FOUND,
            MediaType::Json,
            BrowserAdvice::Nothing,
            "{\"name\":\"NoSuchCrew\",\"refusal\":2,\"result\":\"refused\"}",
        ),
        "command {\"number\":1,\"do\":\"cancel-ground\",\"ground\":\"G1\"}" => answer_of(
            alloc,
            StatusCode::CONFLICT,
            MediaType::Json,
            BrowserAdvice::Nothing,
            "{\"name\":\"NoSuchGround\",\"refusal\":15,\"result\":\"refused\"}",
        ),
        "command " => answer_of(
            alloc,
            StatusCode::UNPROCESSABLE_ENTITY,
            MediaType::Json,
            BrowserAdvice::Nothing,
            "{\"field\":\"body\",\"name\":\"BadJson\",\"refusal\":31,\"result\":\"refused\"}",
        ),
        "command store" => Err(HandlerFault::Store),
        "command memory" => Err(HandlerFault::Memory),
        _ => answer_of(
            alloc,
            StatusCode::OK,
            MediaType::Json,
            BrowserAdvice::Nothing,
            "{\"exceedances\":[],\"result\":\"accepted\"}",
        ),
    }
}

fn answer_of(
    alloc: Global,
    status: StatusCode,
    media_type: MediaType,
    advice: BrowserAdvice,
    text: &str,
) -> Result<Response, HandlerFault> {
    match String::from_str(alloc, text) {
        Ok(text) => Ok(Response {
            status,
            media_type,
            advice,
            text,
        }),
        Err(_) => Err(HandlerFault::Memory),
    }
}
