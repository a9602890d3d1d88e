//! What is kept under the number of a request, as JSON. The definition is `request_json` (`specs/RequestJson.antt`).
//! Worked texts: `tests/report_json.py`. Wrong bodies: `must-fail/` and `must-fail-more/`.
ghost use Rattle.std.specs.Prelude.{◌≡◌, IfOk, map, string_bytes};
ghost use Rattle.serde_json.specs.View.{view};
ghost use Rattle.report_json.specs.Objects.{json_text};
ghost use Rattle.report_json.specs.RequestJson as spec;

use crate::objects::{with, written};
use request::RequestNumber;
use roster::{LoggedCommand, Roster};
use serde_json::Value;
use std::alloc::Global;
use stored_json::{Scalar, instruction_value, object_of, reply_value};
use values::MemoryFault;

/// Writes what is kept under the number of a request: each part in turn, with its command and the reply to it. The number
/// is a text, since it may be more than a reader of JSON keeps exactly. A number under which nothing is kept has no part.
/// The one error is out of memory (91).
#[tactic(auto, using(crate::proofs::PlainBoard::request_plain))]
pub fn request_json(
    alloc: Global,
    roster: &Roster,
    number: RequestNumber,
) -> Result<String, MemoryFault>
    ensures { IfOk result
        (λ text. string_bytes text ≡ json_text (spec.request_json roster.now number)) }
{
    written(alloc, request_value(alloc, roster, number)?)
}

fn request_value(
    alloc: Global,
    roster: &Roster,
    number: RequestNumber,
) -> Result<Value, MemoryFault>
    ensures { IfOk result (λ value. view value ≡ spec.request_json roster.now number) }
{
    let parts = parts_of(alloc, roster, number)?;
    let text = format!(in alloc; "{}", number.get())?;
    let object = object_of(alloc, &[("number", Scalar::Text(&text))])?;
    with(alloc, object, "parts", Value::Array(parts))
}

/// Makes an object of each part.
fn parts_of(
    alloc: Global,
    roster: &Roster,
    number: RequestNumber,
) -> Result<Vec<Value>, MemoryFault>
    ensures { IfOk result
        (λ rows. map view rows.items ≡ spec.kept_parts_json roster.now number) }
{
    let mut rows = Vec::new(alloc);
    for (key, kept) in roster.requests.iter() {
        if key.number() == number {
            rows.push(part(alloc, key.part(), kept)?)?;
        }
    }
    Ok(rows)
}

fn part(alloc: Global, part: u16, kept: &LoggedCommand) -> Result<Value, MemoryFault>
    ensures { IfOk result (λ value. view value ≡ spec.kept_part_json part kept.now) }
{
    let object = object_of(alloc, &[("part", Scalar::Number(u64::from(part)))])?;
    let command = instruction_value(alloc, kept.command.instruction())?;
    let object = with(alloc, object, "command", command)?;
    let reply = reply_value(alloc, &kept.reply)?;
    with(alloc, object, "reply", reply)
}
