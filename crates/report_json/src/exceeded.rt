//! What a member has exceeded: the sections, and the duties in which.
//! Worked texts: `tests/report_json.py`. Wrong bodies: `must-fail/` and `must-fail-more/`.
ghost use Rattle.std.specs.Prelude.{◌≡◌, IfOk};
ghost use Rattle.serde_json.specs.View.{view};
ghost use Rattle.report_json.specs.BoardJson as spec;

use duty::{CrewId, OutsideId, PairingId};
use limits::Section;
use roster::{DutyId, Roster};
use serde_json::Value;
use std::alloc::Global;
use values::{MemoryFault, TryClone};

/// An exceedance, of a member who is known.
#[derive(Drop)]
pub struct Exceeded {
    pub section: Section,
    /// The duty that the exceedance names.
    pub duty: DutyId,
}

/// Copies the exceedances of a member, in the order of all exceedances.
pub(crate) fn exceeded_by(
    alloc: Global,
    roster: &Roster,
    who: &CrewId,
) -> Result<Vec<Exceeded>, MemoryFault>
    ensures { IfOk result (λ exceeded. exceeded.items ≡ spec.exceeded_by roster.now who.now) }
{
    let mut exceeded = Vec::new(alloc);
    for (id, named) in roster.exceedances.iter() {
        if id.crew == *who {
            exceeded.push(Exceeded {
                section: id.section,
                duty: named.try_clone(alloc)?,
            })?;
        }
    }
    Ok(exceeded)
}

/// Makes an array of the sections that a period of a pairing exceeds.
pub(crate) fn period_sections(
    alloc: Global,
    exceeded: &[Exceeded],
    id: &PairingId,
    number: usize,
) -> Result<Value, MemoryFault>
    ensures { IfOk result
        (λ value. view value ≡ spec.period_sections_json exceeded.now id.now number) }
{
    let mut sections = Vec::new(alloc);
    for one in exceeded {
        if is_period(&one.duty, id, number) {
            sections.push(section_value(alloc, one)?)?;
        }
    }
    Ok(Value::Array(sections))
}

/// Makes an array of the sections that an outside period exceeds.
pub(crate) fn outside_sections(
    alloc: Global,
    exceeded: &[Exceeded],
    id: &OutsideId,
) -> Result<Value, MemoryFault>
    ensures { IfOk result
        (λ value. view value ≡ spec.outside_sections_json exceeded.now id.now) }
{
    let mut sections = Vec::new(alloc);
    for one in exceeded {
        if is_outside(&one.duty, id) {
            sections.push(section_value(alloc, one)?)?;
        }
    }
    Ok(Value::Array(sections))
}

fn section_value(alloc: Global, exceeded: &Exceeded) -> Result<Value, MemoryFault>
    ensures { IfOk result (λ value. view value ≡ spec.section_json exceeded.now) }
{
    Ok(Value::String(format!(in alloc; "{}", exceeded.section)?))
}

/// Returns whether a duty is this period of a pairing.
fn is_period(duty: &DutyId, id: &PairingId, number: usize) -> bool
    ensures { result ≡ spec.is_period id.now number duty.now }
{
    match duty {
        DutyId::Period(period) => period.pairing == *id && usize::from(period.number) == number,
        DutyId::Outside(_) => false,
    }
}

/// Returns whether a duty is this outside period.
fn is_outside(duty: &DutyId, id: &OutsideId) -> bool
    ensures { result ≡ spec.is_outside id.now duty.now }
{
    match duty {
        DutyId::Period(_) => false,
        DutyId::Outside(other) => other == id,
    }
}
