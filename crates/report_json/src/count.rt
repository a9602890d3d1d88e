//! How many requests are kept, and which number is free for the next, as JSON. The definition is `count_json`
//! (`specs/CountJson.antt`).
//! Worked texts: `tests/exchanges.py`. Wrong bodies: `must-fail/` and `must-fail-more/`.
ghost use Rattle.std.specs.Prelude.{◌≡◌, IfOk, string_bytes};
ghost use Rattle.serde_json.specs.View.{view};
ghost use Rattle.report_json.specs.CountJson as spec;
ghost use Rattle.report_json.specs.Objects.{json_text};

use crate::objects::{text_or_null, with, written};
use request::RequestNumber;
use serde_json::Value;
use std::alloc::Global;
use stored_json::{Scalar, object_of};
use values::MemoryFault;

/// Writes how many requests are kept, and which number is free for the next, or null if none is. Both are texts, since they may be
/// more than a reader of JSON keeps exactly. The one error is out of memory (91).
#[tactic(auto, using(crate::proofs::PlainCount::count_plain))]
pub fn count_json(
    alloc: Global,
    kept: u64,
    next: Option<RequestNumber>,
) -> Result<String, MemoryFault>
    ensures { IfOk result (λ text. string_bytes text ≡ json_text (spec.count_json kept next)) }
{
    written(alloc, count_value(alloc, kept, next)?)
}

fn count_value(alloc: Global, kept: u64, next: Option<RequestNumber>) -> Result<Value, MemoryFault>
    ensures { IfOk result (λ value. view value ≡ spec.count_json kept next) }
{
    let text = format!(in alloc; "{kept}")?;
    let object = object_of(alloc, &[("count", Scalar::Text(&text))])?;
    let next = next_value(alloc, next)?;
    with(alloc, object, "next", next)
}

fn next_value(alloc: Global, next: Option<RequestNumber>) -> Result<Value, MemoryFault>
    ensures { IfOk result (λ value. view value ≡ spec.next_json next) }
{
    match next {
        Some(number) => {
            let text = format!(in alloc; "{}", number.get())?;
            text_or_null(alloc, Some(&text))
        }
        None => text_or_null(alloc, None),
    }
}
