//! Objects in JSON, made of lists of their members.
//! Kept texts: `tests/texts.py`. Wrong bodies: `must-fail-more/`.
ghost use Rattle.std.specs.Prelude.{◌≡◌, true, map, IfOk, OnOk};
ghost use Rattle.std.specs.List.{list_all};
ghost use Rattle.serde_json.specs.Data.{no_members};
ghost use Rattle.serde_json.specs.View.{view, members_view};
ghost use Rattle.stored_json.specs.Instants.{is_instant};
ghost use Rattle.stored_json.specs.Objects as spec;
ghost use Rattle.stored_json.specs.Values.{array_of, instant_json};
ghost use Rattle.stored_json.specs.declared.objects.Scalar.TheVariants as scalar;

use crate::encoded::{Encoded, array};
use command::Seat;
use limits::Section;
use serde_json::{Map, Value, put};
use std::alloc::Global;
use time117::Minute;
use values::MemoryFault;

/// The value of a member that is no list.
#[derive(Clone, Copy)]
pub enum Scalar<'a> {
    Text(&'a str),
    Number(u64),
    /// Written in the first form of an instant.
    Instant(Minute),
    Seat(Seat),
    Section(Section),
}

impl Scalar<'_> {
    /// Takes an instant, which is a minute of the years 2000 to 2099.
    pub fn instant(minute: Minute) -> Self
        ensures scalar { result ≡ scalar.Instant minute }
        ensures instant { is_instant minute ≡ true }
    {
        // The clause of this call says that the minute is in range.
        let _in_range = minute.number();
        Scalar::Instant(minute)
    }

    fn to_json(&self, alloc: Global) -> Result<Value, MemoryFault>
        ensures { IfOk result (λ value. view value ≡ spec.scalar_json self.now) }
    {
        match *self {
            Scalar::Text(text) => Ok(Value::try_from_str(alloc, text)?),
            Scalar::Number(number) => Ok(Value::from(number)),
            Scalar::Instant(minute) => instant(alloc, minute),
            Scalar::Seat(seat) => Ok(Value::String(format!(in alloc; "{seat}")?)),
            Scalar::Section(section) => Ok(Value::String(format!(in alloc; "{section}")?)),
        }
    }
}

/// Makes an object of these members, given in any order; of two under one name the last counts.
pub fn object_of(alloc: Global, given: &[(&str, Scalar<'_>)]) -> Result<Value, MemoryFault>
    ensures { IfOk result (λ value. view value ≡ spec.object_json given.now) }
{
    Ok(Value::Object(members(alloc, given)?))
}

/// Makes an object of these members, and of a list under a name of its own.
pub fn object_with_list<T: Encoded>(
    alloc: Global,
    given: &[(&str, Scalar<'_>)],
    name: &str,
    parts: &[T],
) -> Result<Value, MemoryFault>
    ensures json { IfOk result (λ value. view value
        ≡ spec.object_with_list_json given.now name.now (array_of (map T.json parts.now))) }
    ensures instants { OnOk result (list_all T.has_instants parts.now ≡ true) }
{
    let list = array(alloc, parts)?;
    let mut members = members(alloc, given)?;
    put(&mut members, alloc, name, list)?;
    Ok(Value::Object(members))
}

fn members(alloc: Global, given: &[(&str, Scalar<'_>)]) -> Result<Map<String, Value>, MemoryFault>
    ensures { IfOk result
        (λ made. members_view made.entries ≡ spec.with_members given.now no_members) }
{
    let mut made = Map::new(alloc);
    for (name, scalar) in given {
        put(&mut made, alloc, name, scalar.to_json(alloc)?)?;
    }
    Ok(made)
}

/// Writes an instant in its first form.
fn instant(alloc: Global, minute: Minute) -> Result<Value, MemoryFault>
    ensures { IfOk result (λ value. view value ≡ instant_json minute) }
{
    // The clause of this call says that the minute is in range: so what is written is UTF-8.
    let _in_range = minute.number();
    let mut text = Vec::new(alloc);
    minute.write(&mut text)?;
    let text = String::from_utf8(text).unwrap();
    Ok(Value::String(text))
}
