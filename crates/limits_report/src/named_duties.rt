//! A member's duties in force, each with its name.
//! Wrong bodies: `must-fail-more/`.
ghost use Rattle.std.specs.Prelude.{◌≡◌, ◌++◌, ℕ, IfOk, OnOk, map};
ghost use Rattle.std.specs.Option.{option_copied};
ghost use Rattle.roster.specs.Places.{period, periods_at, periods_of, grounds_of, outsides_of, history_of};
ghost use Rattle.limits_report.specs.Listing.{all_but_pairing, is_of, named_duty, times_of};
ghost use Rattle.limits_report.specs.NearestLimits.{place_text};

use duty::{CrewId, DutyInForce, History, PairingId, Span};
use roster::{PairingEntry, Roster};
use std::alloc::Global;
use time117::Zone;
use values::{MemoryFault, Text, TryClone};

/// A duty in force, and its name: `B101/2`, `ground G7` or `outside X1`.
#[derive(Drop)]
pub(crate) struct NamedDuty {
    pub(crate) name: Text,
    pub(crate) duty: DutyInForce,
}

/// Lists a member's duties: the periods of the pairings that the member holds, but for one that is left out, the
/// member's ground duties, and the member's outside periods.
pub(crate) fn duties_of(
    alloc: Global,
    roster: &Roster,
    who: &CrewId,
    out: Option<&PairingId>,
) -> Result<Vec<NamedDuty>, MemoryFault>
    ensures { IfOk result
        (λ list. list.items
        ≡ all_but_pairing (option_copied out.entry) (history_of roster.now who.now)) }
{
    let mut list = Vec::new(alloc);
    add_held(alloc, roster, who, out, &mut list)?;
    add_grounds(alloc, roster, who, &mut list)?;
    add_outsides(alloc, roster, who, &mut list)?;
    Ok(list)
}

/// Returns whether the pairing is the one that is left out.
fn is_left_out(out: Option<&PairingId>, id: &PairingId) -> bool
    ensures { (number : ℕ) → result ≡ is_of (option_copied out.entry) (period id.now number) }
{
    match out {
        Some(other) => other == id,
        None => false,
    }
}

/// Adds the periods of the pairings that the member holds, but for one that is left out.
fn add_held(
    alloc: Global,
    roster: &Roster,
    who: &CrewId,
    out: Option<&PairingId>,
    list: &mut Vec<NamedDuty>,
) -> Result<(), MemoryFault>
    ensures { OnOk result (list.new.items
        ≡ list.old.items
        ++ all_but_pairing (option_copied out.entry) (periods_of roster.now who.now)) }
{
    for (id, entry) in roster.pairings.iter() {
        if entry.holds(who) && !is_left_out(out, id) {
            add_pairing(alloc, roster.zone_of(who), id, entry, list)?;
        }
    }
    Ok(())
}

/// Adds the periods of a pairing.
pub(crate) fn add_pairing(
    alloc: Global,
    zone: &Zone,
    id: &PairingId,
    entry: &PairingEntry,
    list: &mut Vec<NamedDuty>,
) -> Result<(), MemoryFault>
    ensures { OnOk result (list.new.items
        ≡ list.old.items ++ map named_duty (periods_at zone.now (id.now, entry.now))) }
{
    let fdps = entry.periods_in_force(alloc)?;
    for (index, fdp) in fdps.iter().enumerate() {
        list.push(NamedDuty {
            name: period_name(alloc, id, index + 1)?,
            duty: DutyInForce::Fdp(fdp.in_force(alloc, zone)?),
        })?;
    }
    Ok(())
}

/// Names a period by its pairing and its number.
fn period_name(alloc: Global, id: &PairingId, number: usize) -> Result<Text, MemoryFault>
    ensures { IfOk result (λ name. name ≡ place_text (period id.now number)) }
{
    Ok(Text::new(format!(in alloc; "{}/{number}", id.as_str())?))
}

/// Adds the member's ground duties.
fn add_grounds(
    alloc: Global,
    roster: &Roster,
    who: &CrewId,
    list: &mut Vec<NamedDuty>,
) -> Result<(), MemoryFault>
    ensures { OnOk result
        (list.new.items ≡ list.old.items ++ map named_duty (grounds_of roster.now who.now)) }
{
    for (id, ground) in roster.grounds.iter() {
        if ground.crew() == who {
            list.push(NamedDuty {
                name: Text::new(format!(in alloc; "ground {}", id.as_str())?),
                duty: DutyInForce::Ground(Span {
                    from: ground.begin(),
                    to: ground.end(),
                }),
            })?;
        }
    }
    Ok(())
}

/// Adds the member's outside periods.
fn add_outsides(
    alloc: Global,
    roster: &Roster,
    who: &CrewId,
    list: &mut Vec<NamedDuty>,
) -> Result<(), MemoryFault>
    ensures { OnOk result
        (list.new.items ≡ list.old.items ++ map named_duty (outsides_of roster.now who.now)) }
{
    for (id, outside) in roster.outsides.iter() {
        if outside.crew == *who {
            list.push(NamedDuty {
                name: Text::new(format!(in alloc; "outside {}", id.as_str())?),
                duty: DutyInForce::Fdp(outside.period.in_force(alloc)?),
            })?;
        }
    }
    Ok(())
}

/// Copies the duties of a list into a history, without their names.
pub(crate) fn history_of(alloc: Global, list: &[NamedDuty]) -> Result<History, MemoryFault>
    ensures { IfOk result (λ history. history ≡ times_of list.now) }
{
    let mut duties = Vec::new(alloc);
    for named in list {
        duties.push(named.duty.try_clone(alloc)?)?;
    }
    History::of(alloc, duties)
}
