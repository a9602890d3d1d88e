//! What the columns of a row of `exceedance` are read as: a section, and the duty that it names.
//! Through the program: `tests/answers.py`. Wrong bodies: `must-fail-more/`.

ghost use Rattle.std.specs.Prelude.{◌≡◌, ◌≤◌, IfOk, MatchOption};
ghost use Rattle.limits.specs.SectionText.{section_number};
ghost use Rattle.limits.specs.declared.section.Section as spec_section;
ghost use Rattle.entries.specs.Exceedances.{IsDutyOf};

use duty::{OutsideId, PairingId};
use limits::Section;
use roster::{DutyId, PeriodId};
use std::alloc::Global;
use values::{MemoryFault, Text};

/// Returns the section of a number in the tables.
pub fn section_of(number: u32) -> Option<Section>
    ensures { MatchOption result
        ((section : spec_section.Section) → number ≡ section_number section → ⊥)
        (λ section. number ≡ section_number section) }
{
    match number {
        1 => Some(Section::FlightTime),
        2 => Some(Section::FlightDutyPeriod),
        3 => Some(Section::FlightTime672Hours),
        4 => Some(Section::FlightTime365Days),
        5 => Some(Section::FlightDutyPeriods168Hours),
        6 => Some(Section::FlightDutyPeriods672Hours),
        7 => Some(Section::ThirtyHourRest),
        8 => Some(Section::TenHourRest),
        _ => None,
    }
}

/// Returns the duty that the columns `pairing` and `period` name: with 0 as the number an outside period, and with a
/// higher one a period of a pairing, if it has eight bits.
pub fn duty_of(alloc: Global, id: &Text, number: u32) -> Result<Option<DutyId>, MemoryFault>
    ensures { IfOk result (λ it. MatchOption it (256 ≤ number) (IsDutyOf id.now number)) }
{
    let Ok(number) = u8::try_from(number) else {
        return Ok(None);
    };
    let id = Text::new(String::from_str(alloc, id.as_str())?);
    if number == 0 {
        return Ok(Some(DutyId::Outside(OutsideId::new(id))));
    }
    let pairing = PairingId::new(id);
    Ok(Some(DutyId::Period(PeriodId { pairing, number })))
}
