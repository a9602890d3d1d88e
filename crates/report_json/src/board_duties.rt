//! The duties of a member on the board of some days as JSON. The definition is `board_duties_json` (`specs/BoardJson.antt`).
//! Worked texts: `tests/report_json.py`. Wrong bodies: `must-fail-more/`.
ghost use Rattle.std.specs.Prelude.{◌≡◌, ◌≤◌, ◌++◌, [], ◌∷◌, IfOk, OnOk, length, map};
ghost use Rattle.std.specs.List.{filter};
ghost use Rattle.serde_json.specs.View.{view};
ghost use Rattle.report.specs.Board.{grounds_in, outsides_in, period_meets};
ghost use Rattle.report_json.specs.BoardJson as spec;
ghost use Rattle.report_json.specs.RosterJson.{ground_duty_json};

use crate::duties::{ground_value, outside_value, period_value};
use crate::exceeded::{Exceeded, outside_sections, period_sections};
use crate::objects::with;
use duty::{CrewId, OutsideId, PairingId};
use report::{PeriodInForce, ground_meets, outside_meets, periods_of};
use request::Days;
use roster::{OutsideEntry, PairingEntry, Roster};
use serde_json::Value;
use std::alloc::Global;
use values::MemoryFault;

/// Makes an object of each duty of the member that meets the days: the periods of the pairings that the member holds, the
/// ground duties and the outside periods, each in byte order of the ids.
pub(crate) fn duties_in(
    alloc: Global,
    roster: &Roster,
    days: Days,
    who: &CrewId,
    exceeded: &[Exceeded],
) -> Result<Vec<Value>, MemoryFault>
    ensures { IfOk result (λ duties. map view duties.items
        ≡ spec.board_duties_json days roster.now who.now exceeded.now) }
{
    let mut duties = Vec::new(alloc);
    for (id, entry) in roster.pairings.iter() {
        if entry.holds(who) {
            add_periods(alloc, days, exceeded, id, entry, &mut duties)?;
        }
    }
    add_grounds(alloc, roster, days, who, &mut duties)?;
    add_outsides(alloc, roster, days, who, exceeded, &mut duties)?;
    Ok(duties)
}

/// Adds an object for each period of a pairing that meets the days.
fn add_periods(
    alloc: Global,
    days: Days,
    exceeded: &[Exceeded],
    id: &PairingId,
    entry: &PairingEntry,
    duties: &mut Vec<Value>,
) -> Result<(), MemoryFault>
    ensures { OnOk result (map view duties.new.items
        ≡ map view duties.old.items
        ++ spec.board_periods_json days exceeded.now (id.now, entry.now)) }
{
    let periods = periods_of(alloc, entry)?;
    for (index, period) in periods.iter().enumerate() {
        if period.meets(days) {
            duties.push(board_period(alloc, exceeded, id, index + 1, period)?)?;
        }
    }
    Ok(())
}

/// Adds an object for each ground duty of the member that meets the days.
fn add_grounds(
    alloc: Global,
    roster: &Roster,
    days: Days,
    who: &CrewId,
    duties: &mut Vec<Value>,
) -> Result<(), MemoryFault>
    ensures { OnOk result (map view duties.new.items
        ≡ map view duties.old.items
        ++ map ground_duty_json (grounds_in days roster.now who.now)) }
{
    for (id, duty) in roster.grounds.iter() {
        if duty.crew() == who && ground_meets(days, duty) {
            duties.push(ground_value(alloc, id, duty)?)?;
        }
    }
    Ok(())
}

/// Adds an object for each outside period of the member that meets the days.
fn add_outsides(
    alloc: Global,
    roster: &Roster,
    days: Days,
    who: &CrewId,
    exceeded: &[Exceeded],
    duties: &mut Vec<Value>,
) -> Result<(), MemoryFault>
    ensures { OnOk result (map view duties.new.items
        ≡ map view duties.old.items
        ++ map (spec.board_outside_json exceeded.now) (outsides_in days roster.now who.now)) }
{
    for (id, outside) in roster.outsides.iter() {
        if outside.crew == *who && outside_meets(days, outside) {
            duties.push(board_outside(alloc, exceeded, id, outside)?)?;
        }
    }
    Ok(())
}

fn board_period(
    alloc: Global,
    exceeded: &[Exceeded],
    id: &PairingId,
    number: usize,
    period: &PeriodInForce,
) -> Result<Value, MemoryFault>
    requires { length period.now.fdp.segments ≤ 12 }
    ensures { IfOk result (λ value. view value
        ≡ spec.board_period_json exceeded.now id.now (number, period.now)) }
{
    let object = period_value(alloc, id, number, period)?;
    let sections = period_sections(alloc, exceeded, id, number)?;
    with(alloc, object, "exceeds", sections)
}

fn board_outside(
    alloc: Global,
    exceeded: &[Exceeded],
    id: &OutsideId,
    outside: &OutsideEntry,
) -> Result<Value, MemoryFault>
    ensures { IfOk result
        (λ value. view value ≡ spec.board_outside_json exceeded.now (id.now, outside.now)) }
{
    let object = outside_value(alloc, id, outside)?;
    let sections = outside_sections(alloc, exceeded, id)?;
    with(alloc, object, "exceeds", sections)
}
