//! Reading parts of a command.
//! Members that are missing or wrong: `tests/texts.py`. Wrong bodies: `must-fail-more/`.
ghost use Rattle.std.specs.Prelude.{◌≡◌, ◌⊎◌, Ok, Some, None, Err, IfOk, IfErr};
ghost use Rattle.serde_json.specs.View.{view, items_view};
ghost use Rattle.stored_json.specs.CommandJson.{field_of};
ghost use Rattle.stored_json.specs.Parts.{read_named_part, read_each, read_list};
ghost use Rattle.stored_json.specs.declared.fault.CodecFault.TheVariants as codec_fault;
ghost use Rattle.stored_json.specs.declared.part.Unread.TheVariants.{Memory};

use crate::fault::CodecFault;
use crate::field::JsonField;
use serde_json::Value;
use std::alloc::{AllocError, AllocFailed, Global};
use values::MemoryFault;

/// Why a value isn't read.
#[derive(Clone, Copy, Debug, PartialEq, Eq)]
pub enum Unread {
    /// It isn't such a part.
    Refused,
    /// There was no memory.
    Memory,
}

impl Unread {
    ghost use Rattle.stored_json.specs.declared.part.Unread.TheVariants.{Refused};

    /// Names the fault of the member that holds the value.
    pub fn of(self, field: JsonField) -> CodecFault
        ensures memory { self ≡ Memory → result ≡ codec_fault.Memory }
        ensures refused { self ≡ Refused → result ≡ codec_fault.BadJson field }
    {
        match self {
            Unread::Refused => CodecFault::BadJson(field),
            Unread::Memory => CodecFault::Memory,
        }
    }
}

impl From<MemoryFault> for Unread {
    ghost use Rattle.std.specs.Prelude.{◌≡◌};
    ghost use Rattle.stored_json.specs.declared.part.Unread.TheVariants.{Memory};

    ghost from_gives = { λ _ fault. fault ≡ Memory };

    fn from(_fault: MemoryFault) -> Unread {
        Unread::Memory
    }
}

impl From<AllocError> for Unread {
    ghost use Rattle.std.specs.Prelude.{◌≡◌};
    ghost use Rattle.stored_json.specs.declared.part.Unread.TheVariants.{Memory};

    ghost from_gives = { λ _ fault. fault ≡ Memory };

    fn from(_error: AllocError) -> Unread {
        Unread::Memory
    }
}

impl<T: Drop> From<AllocFailed<T>> for Unread {
    ghost use Rattle.std.specs.Prelude.{◌≡◌};
    ghost use Rattle.stored_json.specs.declared.part.Unread.TheVariants.{Memory};

    ghost from_gives = { λ _ fault. fault ≡ Memory };

    fn from(_failed: AllocFailed<T>) -> Unread {
        Unread::Memory
    }
}

/// What is read of a JSON value.
pub trait JsonPart: Drop {
    ghost use Rattle.std.specs.Prelude.{◌≡◌, ◌⊎◌, Option, Some, None, IfOk, IfErr};
    ghost use Rattle.serde_json.specs.Data.{Data};
    ghost use Rattle.serde_json.specs.View.{view};
    ghost use Rattle.stored_json.specs.declared.part.Unread.TheVariants.{Memory};

    ghost reads: { Data → Option Self };

    /// Reads the part that a value is.
    fn of_json(alloc: Global, value: &Value) -> Result<Self, Unread>
        ensures read { IfOk result (λ part. reads (view value.now) ≡ Some part) }
        ensures refused { IfErr result
            (λ fault. (fault ≡ Memory) ⊎ (reads (view value.now) ≡ None)) };
}

/// Reads a member of an object, by its name.
pub fn member<T: JsonPart>(alloc: Global, object: &Value, name: &str) -> Result<T, Unread>
    ensures read { IfOk result
        (λ part. read_named_part T.reads name.now (view object.now) ≡ Some part) }
    ensures refused { IfErr result
        (λ fault. (fault ≡ Memory) ⊎ (read_named_part T.reads name.now (view object.now) ≡ None)) }
{
    let value = object.get(name).ok_or(Unread::Refused)?;
    T::of_json(alloc, value)
}

/// Reads a member that is a list of parts.
pub fn member_list<T: JsonPart>(alloc: Global, object: &Value, name: &str) -> Result<Vec<T>, Unread>
    ensures read { IfOk result
        (λ parts. read_named_part (read_list T.reads) name.now (view object.now)
        ≡ Some parts.items) }
    ensures refused { IfErr result (λ fault. (fault ≡ Memory)
        ⊎ (read_named_part (read_list T.reads) name.now (view object.now) ≡ None)) }
{
    let value = object.get(name).ok_or(Unread::Refused)?;
    let values = value.as_array().ok_or(Unread::Refused)?;
    each(alloc, values)
}

/// Reads the part that each value is.
fn each<T: JsonPart>(alloc: Global, values: &[Value]) -> Result<Vec<T>, Unread>
    ensures read { IfOk result
        (λ parts. read_each T.reads (items_view values.now) ≡ Some parts.items) }
    ensures refused { IfErr result
        (λ fault. (fault ≡ Memory) ⊎ (read_each T.reads (items_view values.now) ≡ None)) }
{
    let mut parts = Vec::new(alloc);
    for value in values {
        parts.push(T::of_json(alloc, value)?)?;
    }
    Ok(parts)
}

/// Reads a member of a command.
pub fn field<T: JsonPart>(alloc: Global, object: &Value, field: JsonField) -> Result<T, CodecFault>
    ensures read { IfOk result (λ part. field_of T.reads field (view object.now) ≡ Ok part) }
    ensures refused { IfErr result (λ fault. (fault ≡ codec_fault.Memory)
        ⊎ (field_of T.reads field (view object.now) ≡ Err fault)) }
{
    match member(alloc, object, field.name()) {
        Ok(part) => Ok(part),
        Err(unread) => Err(unread.of(field)),
    }
}

/// Reads a member of a command that is a list.
pub fn field_list<T: JsonPart>(
    alloc: Global,
    object: &Value,
    field: JsonField,
) -> Result<Vec<T>, CodecFault>
    ensures read { IfOk result
        (λ parts. field_of (read_list T.reads) field (view object.now) ≡ Ok parts.items) }
    ensures refused { IfErr result (λ fault. (fault ≡ codec_fault.Memory)
        ⊎ (field_of (read_list T.reads) field (view object.now) ≡ Err fault)) }
{
    match member_list(alloc, object, field.name()) {
        Ok(parts) => Ok(parts),
        Err(unread) => Err(unread.of(field)),
    }
}
