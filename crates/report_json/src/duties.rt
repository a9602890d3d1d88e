//! The duties of a member as JSON. The definition is `duties_json` (`specs/RosterJson.antt`).
//! Worked texts: `tests/report_json.py`. Wrong bodies: `must-fail/` and `must-fail-more/`.
ghost use Rattle.std.specs.Prelude.{◌≡◌, ◌≤◌, ◌++◌, IfOk, OnOk, length, map};
ghost use Rattle.serde_json.specs.View.{view};
ghost use Rattle.report_json.specs.RosterJson as spec;

use crate::objects::with;
use crate::periods::actual_value;
use duty::{CrewId, Ground, GroundId, OutsideId, PairingId, flight_minutes};
use report::{PeriodInForce, periods_of};
use roster::{OutsideEntry, PairingEntry, Roster};
use serde_json::Value;
use std::alloc::Global;
use stored_json::{Scalar, object_of, object_with_list};
use values::MemoryFault;

/// Makes an object of each duty of the member: the periods of the pairings that the member holds, the ground duties and
/// the outside periods, each in byte order of the ids.
pub(crate) fn duties_of(
    alloc: Global,
    roster: &Roster,
    who: &CrewId,
) -> Result<Vec<Value>, MemoryFault>
    ensures { IfOk result (λ duties. map view duties.items ≡ spec.duties_json roster.now who.now) }
{
    let mut duties = Vec::new(alloc);
    for (id, entry) in roster.pairings.iter() {
        if entry.holds(who) {
            add_periods(alloc, id, entry, &mut duties)?;
        }
    }
    add_grounds(alloc, roster, who, &mut duties)?;
    add_outsides(alloc, roster, who, &mut duties)?;
    Ok(duties)
}

/// Adds an object for each period of a pairing.
fn add_periods(
    alloc: Global,
    id: &PairingId,
    entry: &PairingEntry,
    duties: &mut Vec<Value>,
) -> Result<(), MemoryFault>
    ensures { OnOk result (map view duties.new.items
        ≡ map view duties.old.items ++ spec.period_duties_json (id.now, entry.now)) }
{
    let periods = periods_of(alloc, entry)?;
    for (index, period) in periods.iter().enumerate() {
        duties.push(period_value(alloc, id, index + 1, period)?)?;
    }
    Ok(())
}

/// Adds an object for each ground duty of the member.
fn add_grounds(
    alloc: Global,
    roster: &Roster,
    who: &CrewId,
    duties: &mut Vec<Value>,
) -> Result<(), MemoryFault>
    ensures { OnOk result (map view duties.new.items
        ≡ map view duties.old.items ++ spec.ground_duties_json roster.now who.now) }
{
    for (id, duty) in roster.grounds.iter() {
        if duty.crew() == who {
            duties.push(ground_value(alloc, id, duty)?)?;
        }
    }
    Ok(())
}

/// Adds an object for each outside period of the member.
fn add_outsides(
    alloc: Global,
    roster: &Roster,
    who: &CrewId,
    duties: &mut Vec<Value>,
) -> Result<(), MemoryFault>
    ensures { OnOk result (map view duties.new.items
        ≡ map view duties.old.items ++ spec.outside_duties_json roster.now who.now) }
{
    for (id, outside) in roster.outsides.iter() {
        if outside.crew == *who {
            duties.push(outside_value(alloc, id, outside)?)?;
        }
    }
    Ok(())
}

pub(crate) fn period_value(
    alloc: Global,
    id: &PairingId,
    number: usize,
    period: &PeriodInForce,
) -> Result<Value, MemoryFault>
    requires { length period.now.fdp.segments ≤ 12 }
    ensures { IfOk result
        (λ value. view value ≡ spec.period_duty_json id.now (number, period.now)) }
{
    let members = [
        ("begin", Scalar::Instant(period.fdp.report)),
        ("end", Scalar::Instant(period.fdp.release)),
        ("fdp", Scalar::Number(u64::from(period.length()))),
        ("flight", Scalar::Number(u64::from(period.flight_time()))),
        ("kind", Scalar::Text("pairing")),
        ("pairing", Scalar::Text(id.as_str())),
        ("period", Scalar::Number(number as u64)),
        ("release", Scalar::Instant(period.plan.release)),
        ("report", Scalar::Instant(period.plan.report)),
    ];
    let object = object_with_list(alloc, &members, "segments", period.plan.segments.as_slice())?;
    with(
        alloc,
        object,
        "actual",
        actual_value(alloc, &period.actual)?,
    )
}

pub(crate) fn ground_value<'a>(
    alloc: Global,
    id: &'a GroundId,
    duty: &'a Ground,
) -> Result<Value, MemoryFault>
    ensures { IfOk result (λ value. view value ≡ spec.ground_duty_json (id.now, duty.now)) }
{
    let members = [
        ("begin", Scalar::Instant(duty.begin())),
        ("end", Scalar::Instant(duty.end())),
        ("ground", Scalar::Text(id.as_str())),
        ("kind", Scalar::Text("ground")),
        ("task", Scalar::Text(duty.task().as_str())),
    ];
    object_of(alloc, &members)
}

pub(crate) fn outside_value(
    alloc: Global,
    id: &OutsideId,
    outside: &OutsideEntry,
) -> Result<Value, MemoryFault>
    ensures { IfOk result (λ value. view value ≡ spec.outside_duty_json (id.now, outside.now)) }
{
    // The clause of this call says that an outside period has no fault, and so few segments.
    let _sound = outside.period.id();
    let times = outside.period.in_force(alloc)?;
    let members = [
        ("begin", Scalar::Instant(times.report())),
        ("end", Scalar::Instant(times.release())),
        ("fdp", Scalar::Number(u64::from(times.length()))),
        (
            "flight",
            Scalar::Number(u64::from(flight_minutes(times.segments()))),
        ),
        ("kind", Scalar::Text("outside")),
        ("outside", Scalar::Text(id.as_str())),
    ];
    object_with_list(alloc, &members, "segments", outside.period.segments())
}
