//! Commands that clients write, with their numbers. The definition is `read_request` (`specs/Requests.antt`).
//! Bodies that are refused: `tests/texts.py`. Wrong bodies: `must-fail-more/`.
ghost use Rattle.std.specs.Prelude.{◌≡◌, ◌⊎◌, Ok, Err, IfOk, IfErr};
ghost use Rattle.serde_json.specs.View.{view};
ghost use Rattle.codec.specs.Requests.{read_body, read_request};
ghost use Rattle.stored_json.specs.declared.fault.CodecFault.TheVariants.{Memory};

use crate::MOST_BYTES;
use crate::number_member::NumberMember;
use command::Command;
use request::RequestNumber;
use serde_json::Value;
use std::alloc::Global;
use stored_json::{CodecFault, JsonField, command_of, json_field, object};

/// Reads the command of a request's body, under its number. Members are read as of
/// a text that the book keeps. A fault is the first of: a body of over 1,048,576 bytes, one that isn't UTF-8 or no
/// object of JSON; `number`; and then what `read_canonical` looks for. Out of memory comes wherever memory is refused.
pub fn command_of_json(alloc: Global, body: &[u8]) -> Result<(RequestNumber, Command), CodecFault>
    ensures command { IfOk result (λ asked. read_request body.now ≡ Ok asked) }
    ensures refused { IfErr result
        (λ fault. (fault ≡ Memory) ⊎ (read_request body.now ≡ Err fault)) }
{
    let object = body_object(alloc, body)?;
    let number: NumberMember = json_field(alloc, &object, JsonField::Number)?;
    let command = command_of(alloc, &object)?;
    Ok((number.get(), command))
}

/// Reads the object that a request's body is.
fn body_object(alloc: Global, body: &[u8]) -> Result<Value, CodecFault>
    ensures object { IfOk result (λ object. read_body body.now ≡ Ok (view object)) }
    ensures refused { IfErr result (λ fault. (fault ≡ Memory) ⊎ (read_body body.now ≡ Err fault)) }
{
    if body.len() > MOST_BYTES {
        return Err(CodecFault::BadJson(JsonField::Body));
    }
    match str::from_utf8(body) {
        Ok(text) => object(alloc, text),
        Err(_) => Err(CodecFault::BadJson(JsonField::Body)),
    }
}
