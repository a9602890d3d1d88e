//! Texts as values of JSON.
//! Texts that are no JSON: `tests/texts.py`. Wrong bodies: `must-fail-more/`.
ghost use Rattle.std.specs.Prelude.{◌≡◌, ◌⊎◌, Some, None, IfOk, IfErr};
ghost use Rattle.serde_json.specs.Read.{read};
ghost use Rattle.serde_json.specs.View.{view};
ghost use Rattle.stored_json.specs.declared.fault.CodecFault.TheVariants.{BadJson, Memory};
ghost use Rattle.stored_json.specs.declared.field.JsonField.TheVariants.{Body};

use crate::fault::CodecFault;
use crate::field::JsonField;
use serde_json::{Category, Value};
use std::alloc::Global;

/// Reads the value that a text is.
pub fn body(alloc: Global, text: &str) -> Result<Value, CodecFault>
    ensures read { IfOk result (λ value. read text.now ≡ Some (view value)) }
    ensures refused { IfErr result
        (λ fault. (fault ≡ Memory) ⊎ ((fault ≡ BadJson Body) × (read text.now ≡ None))) }
{
    match Value::from_str(alloc, text) {
        Ok(value) => Ok(value),
        Err(error) => {
            if error.classify() == Category::Memory {
                Err(CodecFault::Memory)
            } else {
                Err(CodecFault::BadJson(JsonField::Body))
            }
        }
    }
}
