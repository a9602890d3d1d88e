//! The judgement: which of the eight limits new duties break. Its definition is `Broken` (`specs/Judgement.antt`).
//! Worked rows: `tests/answers.py`; against a slow count: `tests/judgement.py`. Wrong bodies: `must-fail-more/`.
ghost use Rattle.std.specs.Prelude.{◌≡◌, ◌↔◌, ◌++◌, ◌∷◌, [], IfOk, OnOk, Contains};
ghost use Rattle.std.specs.List.{filter};
ghost use Rattle.limits.specs.Judgement.{Broken};
ghost use Rattle.limits.specs.Rules.{Rule};
ghost use Rattle.limits.specs.Laws.Decisions.{breaks};
ghost use Rattle.limits.specs.declared.section.Section.{Section as Sectioned};

use super::limit::Limit;
use super::rest_limits::{TenHourRest, ThirtyHourRest};
use super::section::Section;
use super::table_limits::{FlightDutyPeriod, FlightTime};
use super::window_limits::{
    FlightDutyPeriods168Hours, FlightDutyPeriods672Hours, FlightTime672Hours,
};
use super::year_limit::FlightTime365Days;
use duty::History;
use std::alloc::Global;
use std::marker::Model;
use values::MemoryFault;

/// The sections whose limits new duties break. Contracts see their list, in the order of [`Section`].
#[derive(Clone, Copy)]
pub struct Sections {
    flight_time: bool,
    flight_duty_period: bool,
    flight_time_672_hours: bool,
    flight_time_365_days: bool,
    flight_duty_periods_168_hours: bool,
    flight_duty_periods_672_hours: bool,
    thirty_hour_rest: bool,
    ten_hour_rest: bool,
}

impl Model for Sections {
    ghost use Rattle.std.specs.Prelude.{List};
    ghost use Rattle.limits.specs.declared.section.Section.{Section};

    ghost Value = { List Section };

    ghost use Rattle.limits.specs.Laws.Truths.{listed, unlisted, listed_back};

    ghost view = { listed };

    ghost inverse = { unlisted };

    ghost inverse_ok = { λ a _. listed_back a };
}

impl Sections {
    /// Lists the sections, in the order of [`Section`].
    pub fn list(&self, alloc: Global) -> Result<Vec<Section>, MemoryFault>
        ensures { IfOk result (λ list. list.items ≡ self.now) }
    {
        let mut list = Vec::new(alloc);
        push_if(&mut list, self.flight_time, Section::FlightTime)?;
        push_if(
            &mut list,
            self.flight_duty_period,
            Section::FlightDutyPeriod,
        )?;
        push_if(
            &mut list,
            self.flight_time_672_hours,
            Section::FlightTime672Hours,
        )?;
        push_if(
            &mut list,
            self.flight_time_365_days,
            Section::FlightTime365Days,
        )?;
        push_if(
            &mut list,
            self.flight_duty_periods_168_hours,
            Section::FlightDutyPeriods168Hours,
        )?;
        push_if(
            &mut list,
            self.flight_duty_periods_672_hours,
            Section::FlightDutyPeriods672Hours,
        )?;
        push_if(&mut list, self.thirty_hour_rest, Section::ThirtyHourRest)?;
        push_if(&mut list, self.ten_hour_rest, Section::TenHourRest)?;
        Ok(list)
    }
}

/// Appends the section if it is found broken.
fn push_if(list: &mut Vec<Section>, is_broken: bool, section: Section) -> Result<(), MemoryFault>
    ensures { OnOk result
        (list.new.items ≡ list.old.items ++ filter (λ _. is_broken) (section ∷ [])) }
{
    if is_broken {
        list.push(section)?;
    }
    Ok(())
}

/// Returns whether the limit is broken. It serves the prover alone: that the answer is the test of the limit's section is
/// proved once, for all eight.
fn is_broken<L: Limit>(limit: &L, history: &History, new: &History) -> bool
    ensures { result ≡ breaks L.SECTION history.now new.now }
{
    limit.is_broken_by(history, new)
}

/// Judges new duties by the eight limits. `history` has the member's duties in force with the new ones in it; a window
/// or a rest that the new duties don't touch is not judged.
#[tactic(auto, unfolding(crate::specs::Judgement::Broken))]
pub fn judge(history: &History, new: &History) -> Sections
    ensures list { result ≡ Broken history.now new.now }
    ensures each { (s : Sectioned) → (Contains result s ↔ Rule s history.now new.now) }
{
    Sections {
        flight_time: is_broken(&FlightTime, history, new),
        flight_duty_period: is_broken(&FlightDutyPeriod, history, new),
        flight_time_672_hours: is_broken(&FlightTime672Hours, history, new),
        flight_time_365_days: is_broken(&FlightTime365Days, history, new),
        flight_duty_periods_168_hours: is_broken(&FlightDutyPeriods168Hours, history, new),
        flight_duty_periods_672_hours: is_broken(&FlightDutyPeriods672Hours, history, new),
        thirty_hour_rest: is_broken(&ThirtyHourRest, history, new),
        ten_hour_rest: is_broken(&TenHourRest, history, new),
    }
}
