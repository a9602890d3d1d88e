//! The limits on windows of hours: 117.23(b)(1), and 117.23(c)(1) and (2).
//! Both sides of each: `tests/answers.py`; against a slow count: `tests/judgement.py`. Wrong bodies: `must-fail/` and `must-fail-more/`.
use super::limit::Limit;
use super::section::Section;
use super::window_rule::is_over;
use duty::{History, Kind};

/// 117.23(b)(1): at most 100 hours of flight time in 672 hours in a row.
#[derive(Clone, Copy)]
pub struct FlightTime672Hours;

impl Limit for FlightTime672Hours {
    const SECTION: Section = Section::FlightTime672Hours;

    ghost use Rattle.limits.specs.declared.section.Section.TheVariants as section;
    ghost use Rattle.limits.specs.Laws.Growth.{rule_grows};
    ghost use Rattle.limits.specs.Laws.Splitting.{rule_splits};

    ghost SECTION = { section.FlightTime672Hours };

    ghost grows = { rule_grows section.FlightTime672Hours };

    ghost splits = { rule_splits section.FlightTime672Hours };

    fn is_broken_by(&self, history: &History, new: &History) -> bool {
        is_over(history, new, Kind::Flight, 40_320, 6_000)
    }
}

/// 117.23(c)(1): at most 60 hours of flight duty periods in 168 hours in a row.
#[derive(Clone, Copy)]
pub struct FlightDutyPeriods168Hours;

impl Limit for FlightDutyPeriods168Hours {
    const SECTION: Section = Section::FlightDutyPeriods168Hours;

    ghost use Rattle.limits.specs.declared.section.Section.TheVariants as section;
    ghost use Rattle.limits.specs.Laws.Growth.{rule_grows};
    ghost use Rattle.limits.specs.Laws.Splitting.{rule_splits};

    ghost SECTION = { section.FlightDutyPeriods168Hours };

    ghost grows = { rule_grows section.FlightDutyPeriods168Hours };

    ghost splits = { rule_splits section.FlightDutyPeriods168Hours };

    fn is_broken_by(&self, history: &History, new: &History) -> bool {
        is_over(history, new, Kind::FlightDuty, 10_080, 3_600)
    }
}

/// 117.23(c)(2): at most 190 hours of flight duty periods in 672 hours in a row.
#[derive(Clone, Copy)]
pub struct FlightDutyPeriods672Hours;

impl Limit for FlightDutyPeriods672Hours {
    const SECTION: Section = Section::FlightDutyPeriods672Hours;

    ghost use Rattle.limits.specs.declared.section.Section.TheVariants as section;
    ghost use Rattle.limits.specs.Laws.Growth.{rule_grows};
    ghost use Rattle.limits.specs.Laws.Splitting.{rule_splits};

    ghost SECTION = { section.FlightDutyPeriods672Hours };

    ghost grows = { rule_grows section.FlightDutyPeriods672Hours };

    ghost splits = { rule_splits section.FlightDutyPeriods672Hours };

    fn is_broken_by(&self, history: &History, new: &History) -> bool {
        is_over(history, new, Kind::FlightDuty, 40_320, 11_400)
    }
}
