//! Objects of JSON with members of any kind, and the text of a report.
//! Worked texts: `tests/report_json.py`. Wrong bodies: `must-fail-more/`.
ghost use Rattle.std.specs.Prelude.{◌≡◌, false, map, IfOk, string_bytes};
ghost use Rattle.std.specs.Option.{option_copied};
ghost use Rattle.serde_json.specs.View.{view};
ghost use Rattle.serde_json.specs.Written.{has_float};
ghost use Rattle.report_json.specs.Objects as spec;

use serde_json::{Map, Value, put};
use std::alloc::Global;
use values::MemoryFault;

/// Adds a member to an object, or gives the member of that name this value.
pub(crate) fn with(
    alloc: Global,
    object: Value,
    name: &str,
    value: Value,
) -> Result<Value, MemoryFault>
    ensures { IfOk result
        (λ made. view made ≡ spec.with_member name.now (view value) (view object)) }
{
    match object {
        Value::Object(members) => {
            let mut members = members;
            put(&mut members, alloc, name, value)?;
            Ok(Value::Object(members))
        }
        other => Ok(other),
    }
}

/// Makes an object of one member, a list.
pub(crate) fn list_of(alloc: Global, name: &str, values: Vec<Value>) -> Result<Value, MemoryFault>
    ensures { IfOk result
        (λ made. view made ≡ spec.list_json name.now (map view values.items)) }
{
    with(
        alloc,
        Value::Object(Map::new(alloc)),
        name,
        Value::Array(values),
    )
}

/// Makes a value of a text, or null.
pub(crate) fn text_or_null(alloc: Global, text: Option<&str>) -> Result<Value, MemoryFault>
    ensures { IfOk result (λ value. view value ≡ spec.text_or_null (option_copied text.entry)) }
{
    match text {
        Some(text) => Ok(Value::try_from_str(alloc, text)?),
        None => Ok(Value::Null),
    }
}

/// Makes a value of a length in minutes, or null.
pub(crate) fn length_or_null(length: Option<u32>) -> Value
    ensures { view result ≡ spec.length_or_null length }
{
    match length {
        Some(length) => Value::from(u64::from(length)),
        None => Value::Null,
    }
}

/// Writes the text of a report, which is compact and ends with a line end.
#[tactic(auto, unfolding(crate::specs::Objects::json_text))]
pub(crate) fn written(alloc: Global, value: Value) -> Result<String, MemoryFault>
    requires { has_float (view value) ≡ false }
    ensures { IfOk result (λ text. string_bytes text ≡ spec.json_text (view value)) }
{
    let mut text = value.to_string(alloc)?;
    text.push_str("\n")?;
    Ok(text)
}
