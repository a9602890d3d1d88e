//! The pairings as JSON. The definition is `pairings_json` (`specs/PairingsJson.antt`).
//! Worked texts: `tests/report_json.py`. Wrong bodies: `must-fail-more/`.
ghost use Rattle.std.specs.Prelude.{◌≡◌, ◌≤◌, IfOk, length, map, string_bytes};
ghost use Rattle.serde_json.specs.View.{view};
ghost use Rattle.report_json.specs.Objects.{json_text};
ghost use Rattle.report_json.specs.PairingsJson as spec;

use crate::objects::{list_of, with, written};
use crate::pairing::pairing_value;
use crate::periods::actual_ends;
use duty::PairingId;
use report::{PeriodInForce, is_listed, periods_of};
use request::Listed;
use roster::{PairingEntry, Roster};
use serde_json::Value;
use std::alloc::Global;
use stored_json::{Scalar, object_of};
use values::MemoryFault;

/// Writes the pairings that are listed, in byte order of the ids: who holds their seats, and their periods in turn, each as
/// planned and as flown, without segments. The one error is out of memory (91).
pub fn pairings_json(alloc: Global, roster: &Roster, which: Listed) -> Result<String, MemoryFault>
    ensures { IfOk result (λ text.
        string_bytes text ≡ json_text (spec.pairings_json roster.now which)) }
{
    written(alloc, pairings_value(alloc, roster, which)?)
}

fn pairings_value(alloc: Global, roster: &Roster, which: Listed) -> Result<Value, MemoryFault>
    ensures { IfOk result (λ value. view value ≡ spec.pairings_json roster.now which) }
{
    let pairings = pairings_of(alloc, roster, which)?;
    list_of(alloc, "pairings", pairings)
}

/// Makes an object of each pairing that is listed.
fn pairings_of(alloc: Global, roster: &Roster, which: Listed) -> Result<Vec<Value>, MemoryFault>
    ensures { IfOk result
        (λ rows. map view rows.items ≡ spec.listed_pairings_json roster.now which) }
{
    let mut rows = Vec::new(alloc);
    for (id, entry) in roster.pairings.iter() {
        if is_listed(which, entry) {
            rows.push(pairing(alloc, id, entry)?)?;
        }
    }
    Ok(rows)
}

/// Makes an object of a pairing in the list.
pub(crate) fn pairing(
    alloc: Global,
    id: &PairingId,
    entry: &PairingEntry,
) -> Result<Value, MemoryFault>
    ensures { IfOk result
        (λ value. view value ≡ spec.listed_pairing_json (id.now, entry.now)) }
{
    let periods = rows_of(alloc, entry)?;
    pairing_value(alloc, id, entry, periods)
}

/// Makes an object of each period.
fn rows_of(alloc: Global, entry: &PairingEntry) -> Result<Vec<Value>, MemoryFault>
    ensures { IfOk result (λ rows. map view rows.items ≡ spec.listed_periods_json entry.now) }
{
    let periods = periods_of(alloc, entry)?;
    let mut rows = Vec::new(alloc);
    for (index, period) in periods.iter().enumerate() {
        rows.push(row(alloc, index + 1, period)?)?;
    }
    Ok(rows)
}

fn row(alloc: Global, number: usize, period: &PeriodInForce) -> Result<Value, MemoryFault>
    requires { length period.now.fdp.segments ≤ 12 }
    ensures { IfOk result (λ value. view value ≡ spec.listed_period_json (number, period.now)) }
{
    let members = [
        ("fdp", Scalar::Number(u64::from(period.length()))),
        ("flight", Scalar::Number(u64::from(period.flight_time()))),
        ("period", Scalar::Number(number as u64)),
        ("release", Scalar::Instant(period.plan.release)),
        ("report", Scalar::Instant(period.plan.report)),
    ];
    let object = object_of(alloc, &members)?;
    let actual = actual_ends(alloc, &period.actual)?;
    with(alloc, object, "actual", actual)
}
