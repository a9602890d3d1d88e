//! The exceedances as JSON. The definition is `IsExceedancesJson` (`specs/ExceedancesJson.antt`).
//! Worked texts: `tests/report_json.py`. Wrong bodies: `must-fail/` and `must-fail-more/`.
ghost use Rattle.std.specs.Prelude.{◌≡◌, [], ◌∷◌, IfOk, codes, map, string_bytes};
ghost use Rattle.limits.specs.SectionText.{section_text};
ghost use Rattle.serde_json.specs.Data.{string, unsigned, number as number_json};
ghost use Rattle.serde_json.specs.View.{view};
ghost use Rattle.stored_json.specs.Values.{object_of};
ghost use Rattle.report_json.specs.ExceedancesJson as spec;
ghost use Rattle.report_json.specs.Objects.{with_member};

use crate::objects::{list_of, with, written};
use duty::OutsideId;
use roster::{DutyId, ExceedanceId, PeriodId, Roster};
use serde_json::Value;
use std::alloc::Global;
use stored_json::{Scalar, object_of};
use values::MemoryFault;

/// Writes the exceedances, in order of the number and the part of the command that recorded it, the member's id in byte
/// order, and the section. A number is a text, since it may be more than a reader of JSON keeps exactly. The one error is
/// out of memory (91).
pub fn exceedances_json(alloc: Global, roster: &Roster) -> Result<String, MemoryFault>
    ensures { IfOk result (λ text. spec.IsExceedancesJson roster.now (string_bytes text)) }
{
    written(alloc, exceedances_value(alloc, roster)?)
}

fn exceedances_value(alloc: Global, roster: &Roster) -> Result<Value, MemoryFault>
    ensures { IfOk result (λ value. spec.IsExceedancesValue roster.now (view value)) }
{
    let rows = rows_of(alloc, roster)?;
    list_of(alloc, "exceedances", rows)
}

/// Makes an object of each exceedance.
fn rows_of(alloc: Global, roster: &Roster) -> Result<Vec<Value>, MemoryFault>
    ensures { IfOk result (λ rows. spec.AreExceedanceValues roster.now (map view rows.items)) }
{
    let mut rows = Vec::new(alloc);
    for (id, named) in roster.exceedances.iter() {
        rows.push(row(alloc, id, named)?)?;
    }
    Ok(rows)
}

fn row(alloc: Global, id: &ExceedanceId, named: &DutyId) -> Result<Value, MemoryFault>
    ensures { IfOk result (λ value. view value ≡ spec.exceedance_row_json (id.now, named.now)) }
{
    let number = format!(in alloc; "{}", id.key.number().get())?;
    let object = recorded(alloc, id, &number)?;
    match named {
        DutyId::Period(period) => in_period(alloc, object, period),
        DutyId::Outside(outside) => in_outside(alloc, object, outside),
    }
}

/// Makes an object of what an exceedance is known by; `number` is the number of its request as a text.
fn recorded<'a>(alloc: Global, id: &'a ExceedanceId, number: &'a str) -> Result<Value, MemoryFault>
    ensures { IfOk result (λ value. view value ≡ object_of ((codes "crew", string id.now.crew)
        ∷ (codes "number", string number.now)
        ∷ (codes "part", number_json (unsigned id.now.key.part))
        ∷ (codes "section", string (section_text id.now.section)) ∷ [])) }
{
    let members = [
        ("crew", Scalar::Text(id.crew.as_str())),
        ("number", Scalar::Text(number)),
        ("part", Scalar::Number(u64::from(id.key.part()))),
        ("section", Scalar::Section(id.section)),
    ];
    object_of(alloc, &members)
}

/// Adds the period of a pairing that an exceedance names.
fn in_period(alloc: Global, object: Value, period: &PeriodId) -> Result<Value, MemoryFault>
    ensures { IfOk result (λ value. view value
        ≡ with_member (codes "period") (number_json (unsigned period.now.number))
        (with_member (codes "pairing") (string period.now.pairing)
        (with_member (codes "kind") (string (codes "pairing")) (view object)))) }
{
    let kind = Value::try_from_str(alloc, "pairing")?;
    let object = with(alloc, object, "kind", kind)?;
    let pairing = Value::try_from_str(alloc, period.pairing.as_str())?;
    let object = with(alloc, object, "pairing", pairing)?;
    with(
        alloc,
        object,
        "period",
        Value::from(u64::from(period.number)),
    )
}

/// Adds the outside period that an exceedance names.
fn in_outside(alloc: Global, object: Value, outside: &OutsideId) -> Result<Value, MemoryFault>
    ensures { IfOk result (λ value. view value
        ≡ with_member (codes "outside") (string outside.now)
        (with_member (codes "kind") (string (codes "outside")) (view object))) }
{
    let kind = Value::try_from_str(alloc, "outside")?;
    let object = with(alloc, object, "kind", kind)?;
    let outside = Value::try_from_str(alloc, outside.as_str())?;
    with(alloc, object, "outside", outside)
}
