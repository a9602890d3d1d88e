//! A pairing as JSON. The definition is `pairing_json` (`specs/PairingJson.antt`).
//! Worked texts: `tests/report_json.py`. Wrong bodies: `must-fail-more/`.
ghost use Rattle.std.specs.Prelude.{◌≡◌, ◌≤◌, ◌↔◌, ◌⊎◌, Err, None, Some, IfErr, IfOk, length, map, string_bytes};
ghost use Rattle.std.specs.FinMap as fin;
ghost use Rattle.std.specs.Option.{option_map};
ghost use Rattle.serde_json.specs.View.{view};
ghost use Rattle.report_json.specs.Objects.{json_text, text_or_null};
ghost use Rattle.report_json.specs.PairingJson as spec;

use crate::objects::{text_or_null, with, written};
use crate::periods::actual_value;
use duty::{CrewId, PairingId};
use report::{PeriodInForce, ReportFault, periods_of};
use roster::{PairingEntry, Roster};
use serde_json::Value;
use std::alloc::Global;
use stored_json::{Scalar, object_of, object_with_list};
use values::MemoryFault;

/// Writes a pairing: who holds its seats, and its periods in turn, each as planned and as flown. Refused is a pairing that
/// isn't there (4), and out of memory (91).
pub fn pairing_json(alloc: Global, roster: &Roster, id: &PairingId) -> Result<String, ReportFault>
    ensures text { IfOk result (λ text. option_map json_text (spec.pairing_json roster.now id.now)
        ≡ Some (string_bytes text)) }
    ensures absent { (result ≡ Err ReportFault.NoSuchPairing)
        ↔ (fin.get roster.now.pairings id.now ≡ None) }
    ensures refused { IfErr result
        (λ fault. (fault ≡ ReportFault.NoSuchPairing) ⊎ (fault ≡ ReportFault.Memory)) }
{
    let Some(entry) = roster.pairings.get(id) else {
        return Err(ReportFault::NoSuchPairing);
    };
    Ok(entry_text(alloc, id, entry)?)
}

fn entry_text(alloc: Global, id: &PairingId, entry: &PairingEntry) -> Result<String, MemoryFault>
    ensures { IfOk result
        (λ text. string_bytes text ≡ json_text (spec.entry_json id.now entry.now)) }
{
    written(alloc, entry_value(alloc, id, entry)?)
}

fn entry_value(alloc: Global, id: &PairingId, entry: &PairingEntry) -> Result<Value, MemoryFault>
    ensures { IfOk result (λ value. view value ≡ spec.entry_json id.now entry.now) }
{
    let periods = rows_of(alloc, entry)?;
    pairing_value(alloc, id, entry, periods)
}

/// Makes an object of a pairing, with these objects of its periods.
pub(crate) fn pairing_value(
    alloc: Global,
    id: &PairingId,
    entry: &PairingEntry,
    periods: Vec<Value>,
) -> Result<Value, MemoryFault>
    ensures { IfOk result (λ value. view value
        ≡ spec.pairing_of_json id.now entry.now (map view periods.items)) }
{
    let object = object_of(alloc, &[("pairing", Scalar::Text(id.as_str()))])?;
    let captain = holder(alloc, &entry.captain)?;
    let object = with(alloc, object, "captain", captain)?;
    let first_officer = holder(alloc, &entry.first_officer)?;
    let object = with(alloc, object, "first_officer", first_officer)?;
    with(alloc, object, "periods", Value::Array(periods))
}

/// Makes a value of who holds a seat, null if it is free.
fn holder(alloc: Global, holder: &Option<CrewId>) -> Result<Value, MemoryFault>
    ensures { IfOk result (λ value. view value ≡ text_or_null holder.now) }
{
    match holder {
        Some(crew) => text_or_null(alloc, Some(crew.as_str())),
        None => Ok(Value::Null),
    }
}

/// Makes an object of each period.
fn rows_of(alloc: Global, entry: &PairingEntry) -> Result<Vec<Value>, MemoryFault>
    ensures { IfOk result (λ rows. map view rows.items ≡ spec.pairing_periods_json entry.now) }
{
    let periods = periods_of(alloc, entry)?;
    let mut rows = Vec::new(alloc);
    for (index, period) in periods.iter().enumerate() {
        rows.push(row(alloc, index + 1, period)?)?;
    }
    Ok(rows)
}

fn row(alloc: Global, number: usize, period: &PeriodInForce) -> Result<Value, MemoryFault>
    requires { length period.now.fdp.segments ≤ 12 }
    ensures { IfOk result
        (λ value. view value ≡ spec.pairing_period_json (number, period.now)) }
{
    let members = [
        ("fdp", Scalar::Number(u64::from(period.length()))),
        ("flight", Scalar::Number(u64::from(period.flight_time()))),
        ("period", Scalar::Number(number as u64)),
        ("release", Scalar::Instant(period.plan.release)),
        ("report", Scalar::Instant(period.plan.report)),
    ];
    let object = object_with_list(alloc, &members, "segments", period.plan.segments.as_slice())?;
    let actual = actual_value(alloc, &period.actual)?;
    with(alloc, object, "actual", actual)
}
