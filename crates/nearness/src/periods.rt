//! The flight duty period nearest to a limit on each of them, of those that new duties touch: 117.11(a)(1) by Table A,
//! 117.13(a) by Table B, and the rests of 117.25(b) and 117.25(e).
//! Wrong bodies: `must-fail/` and `must-fail-more/`.
ghost use Rattle.std.specs.Prelude.{◌≡◌, ◌<◌, ◌+◌, ◌^◌, ◌-◌, ◌↔◌, ◌<ℤ◌, ℕ, length, IsTrue, IfSome, IfNone};
ghost use Rattle.std.specs.List.{sum_by};
ghost use Rattle.duty.specs.Minutes.{minutes_in};
ghost use Rattle.duty.specs.declared.kind.Kind.TheVariants.{Duty};
ghost use Rattle.nearness.specs.Nearest.{Counts, minutes_set as set_for, minutes_left, Touches, IsMeasured, IsNearest, HasNone};

use super::rests::{free_before, longest_free_run};
use duty::{DutyInForce, FdpInForce, History, Kind, Span};
use limits::{table_a, table_b};

/// A limit on each flight duty period.
#[derive(Clone, Copy, Debug, PartialEq, Eq)]
pub enum PeriodLimit {
    /// 117.11(a)(1): the flight time in it, by Table A.
    TableA,
    /// 117.13(a): its length, by Table B.
    TableB,
    /// 117.25(b): the longest rest in the 168 hours before its report.
    ThirtyHours,
    /// 117.25(e): the rest just before its report.
    TenHours,
}

/// How near a flight duty period is to a limit.
#[derive(Clone, Copy, Debug, PartialEq, Eq)]
pub struct MeasuredPeriod {
    /// Which duty of the history it is, from 0 on.
    pub index: usize,
    /// The minutes that the limit counts: of flight time, of the period's length, or of rest. Of the rest just before
    /// the report at most 168 hours are counted.
    pub minutes: u128,
    /// The minutes that the regulation sets: at most these by a table, at least these of rest.
    pub limit: u32,
}

impl PeriodLimit {
    /// Returns how many minutes the regulation sets for a period: none where the limit is a table, and the period has
    /// no start.
    fn minutes_set(self, fdp: &FdpInForce) -> Option<u32>
        ensures { result ≡ set_for self fdp.now }
    {
        match self {
            PeriodLimit::TableA => Some(table_a(fdp.start()?)),
            PeriodLimit::TableB => Some(table_b(fdp.start()?, fdp.segments().len())),
            PeriodLimit::ThirtyHours => Some(1_800),
            PeriodLimit::TenHours => Some(600),
        }
    }

    /// Returns whether less is left to the limit by one period than by the other.
    fn is_nearer(self, one: MeasuredPeriod, other: MeasuredPeriod) -> bool
        requires one { one.minutes < 2 ^ 100 }
        requires other { other.minutes < 2 ^ 100 }
        ensures { IsTrue result
            ↔ (minutes_left self one.minutes one.limit
            <ℤ minutes_left self other.minutes other.limit) }
    {
        let over = one.minutes + other.limit as u128;
        let under = other.minutes + one.limit as u128;
        match self {
            PeriodLimit::TableA | PeriodLimit::TableB => under < over,
            PeriodLimit::ThirtyHours | PeriodLimit::TenHours => over < under,
        }
    }
}

/// Counts the minutes of the span.
fn length_of(span: Span) -> u32
    ensures { result ≡ span.to - span.from }
{
    span.to.number().saturating_sub(span.from.number())
}

/// Counts the minutes of the segments.
fn flight_time(segments: &[Span]) -> u128
    ensures value { result ≡ sum_by (λ segment. segment.to - segment.from) segments.now }
    ensures small { result < 2 ^ 100 }
{
    let mut total = 0u128;
    for segment in segments {
        total += length_of(*segment) as u128;
    }
    total
}

/// The flight duty periods of a history that new duties touch, as one limit measures them. `all` has `others` other
/// duties, and then the new ones.
#[derive(Drop)]
struct Periods<'a> {
    limit: PeriodLimit,
    all: &'a History,
    new: &'a History,
    others: usize,
}

impl Periods<'_> {
    /// Returns whether new duties touch the period at that index: it is new, or the limit is on rest, and they have a
    /// minute where it looks before the report.
    fn touches(&self, fdp: &FdpInForce, index: usize) -> bool
        ensures { IsTrue result
            ↔ Touches self.now.limit self.now.others index
            (minutes_in Duty self.now.new.now) fdp.now }
    {
        let report = fdp.report().number() as u64;
        self.others <= index
            || match self.limit {
                PeriodLimit::TableA | PeriodLimit::TableB => false,
                PeriodLimit::ThirtyHours => self.new.meets(Kind::Duty, report, 10_080),
                PeriodLimit::TenHours => self.new.meets(Kind::Duty, report, 600),
            }
    }

    /// Counts the minutes of a period that the limit counts.
    fn minutes(&self, fdp: &FdpInForce) -> u128
        ensures counts { Counts self.now.limit (minutes_in Duty self.now.all.now) fdp.now result }
        ensures small { result < 2 ^ 100 }
    {
        match self.limit {
            PeriodLimit::TableA => flight_time(fdp.segments()),
            PeriodLimit::TableB => fdp.length() as u128,
            PeriodLimit::ThirtyHours => longest_free_run(self.all, fdp.report()) as u128,
            PeriodLimit::TenHours => free_before(self.all, fdp.report()) as u128,
        }
    }

    /// Measures the duty at that index, if it is a flight duty period that new duties touch and that has the limit.
    fn measure(&self, index: usize) -> Option<MeasuredPeriod>
        requires { index < length self.now.all.now }
        ensures index { IfSome result (λ period. period.index ≡ index) }
        ensures some { IfSome result (λ period. IsMeasured self.now.limit self.now.all.now
            self.now.new.now self.now.others index period.minutes period.limit) }
        ensures small { IfSome result (λ period. period.minutes < 2 ^ 100) }
        ensures none { IfNone result ((minutes limit : ℕ) → IsMeasured self.now.limit
            self.now.all.now self.now.new.now self.now.others index minutes limit → ⊥) }
    {
        let DutyInForce::Fdp(fdp) = &self.all.duties()[index] else {
            return None;
        };
        if !self.touches(fdp, index) {
            return None;
        }
        let limit = self.limit.minutes_set(fdp)?;
        Some(MeasuredPeriod {
            index,
            minutes: self.minutes(fdp),
            limit,
        })
    }

    /// Returns the nearest of the periods before `index` and the one there, if there is one.
    fn nearer(&self, index: usize, best: Option<MeasuredPeriod>) -> Option<MeasuredPeriod>
        requires index { index < length self.now.all.now }
        requires best { IfSome best (λ period. IsNearest index self.now.limit self.now.all.now
            self.now.new.now self.now.others period) }
        requires small { IfSome best (λ period. period.minutes < 2 ^ 100) }
        requires none { IfNone best (HasNone index self.now.limit self.now.all.now
            self.now.new.now self.now.others) }
        ensures best { IfSome result (λ period. IsNearest (index + 1) self.now.limit
            self.now.all.now self.now.new.now self.now.others period) }
        ensures small { IfSome result (λ period. period.minutes < 2 ^ 100) }
        ensures none { IfNone result (HasNone (index + 1) self.now.limit self.now.all.now
            self.now.new.now self.now.others) }
    {
        let Some(period) = self.measure(index) else {
            return best;
        };
        match best {
            Some(best) if !self.limit.is_nearer(period, best) => Some(best),
            _ => Some(period),
        }
    }
}

/// Finds the flight duty period that has the least left to the limit, of those that new duties touch, and of several
/// the first in the history. `all` has `others` other duties, and then the new ones.
pub(crate) fn nearest_period(
    limit: PeriodLimit,
    all: &History,
    new: &History,
    others: usize,
) -> Option<MeasuredPeriod>
    ensures some { IfSome result
        (λ period. IsNearest (length all.now) limit all.now new.now others period) }
    ensures none { IfNone result (HasNone (length all.now) limit all.now new.now others) }
{
    let periods = Periods {
        limit,
        all,
        new,
        others,
    };
    let mut best = None;
    for index in 0..all.duties().len() {
        best = periods.nearer(index, best);
    }
    best
}
