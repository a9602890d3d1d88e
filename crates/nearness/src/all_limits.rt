//! How near the duties of a member are to each of the eight limits, and whether they exceed it. That an answer exceeds
//! its limit if and only if `limits` has the rule broken is a clause of both functions.
//! Wrong bodies: `must-fail/` and `must-fail-more/`.
ghost use Rattle.std.specs.Prelude.{◌≡◌, drop};
ghost use Rattle.nearness.specs.Nearness.{IsNearness, ExceedsIsRule, exceeds as is_exceeded, holds_over as holds_over_it, is_over_table as is_over_it, has_too_little_rest as lacks_it};

use super::periods::{MeasuredPeriod, PeriodLimit, nearest_period};
use super::windows::{FullestWindow, fullest_window};
use super::year::fullest_year;
use duty::{History, Kind};
use limits::Section;

/// What is nearest to each limit: a flight duty period, or a window of minutes. There is none where new duties touch no
/// period for which the regulation sets minutes, or have no minute of the kind that the limit counts.
#[derive(Clone, Copy, Debug, PartialEq, Eq)]
pub struct Nearness {
    /// 117.11(a)(1): the flight time in a flight duty period, by Table A.
    pub flight_time: Option<MeasuredPeriod>,
    /// 117.13(a): the length of a flight duty period, by Table B.
    pub flight_duty_period: Option<MeasuredPeriod>,
    /// 117.23(b)(1): flight time in 672 hours, of 100 hours.
    pub flight_time_672_hours: Option<FullestWindow>,
    /// 117.23(b)(2): flight time in 365 days, of 1,000 hours.
    pub flight_time_365_days: Option<FullestWindow>,
    /// 117.23(c)(1): flight duty periods in 168 hours, of 60 hours.
    pub flight_duty_periods_168_hours: Option<FullestWindow>,
    /// 117.23(c)(2): flight duty periods in 672 hours, of 190 hours.
    pub flight_duty_periods_672_hours: Option<FullestWindow>,
    /// 117.25(b): the longest rest in the 168 hours before a report, of 30 hours.
    pub thirty_hour_rest: Option<MeasuredPeriod>,
    /// 117.25(e): the rest just before a report, of 10 hours.
    pub ten_hour_rest: Option<MeasuredPeriod>,
}

impl Nearness {
    /// Returns whether what is nearest to the section's limit exceeds it.
    pub fn exceeds(self, section: Section) -> bool
        ensures { result ≡ is_exceeded section self }
    {
        match section {
            Section::FlightTime => is_over_table(self.flight_time),
            Section::FlightDutyPeriod => is_over_table(self.flight_duty_period),
            Section::FlightTime672Hours => holds_over(6_000, self.flight_time_672_hours),
            Section::FlightTime365Days => holds_over(60_000, self.flight_time_365_days),
            Section::FlightDutyPeriods168Hours => {
                holds_over(3_600, self.flight_duty_periods_168_hours)
            }
            Section::FlightDutyPeriods672Hours => {
                holds_over(11_400, self.flight_duty_periods_672_hours)
            }
            Section::ThirtyHourRest => lacks_rest(self.thirty_hour_rest),
            Section::TenHourRest => lacks_rest(self.ten_hour_rest),
        }
    }
}

/// Returns whether the window holds more than `most` minutes.
fn holds_over(most: u64, window: Option<FullestWindow>) -> bool
    ensures { result ≡ holds_over_it most window }
{
    match window {
        Some(window) => most < window.minutes,
        None => false,
    }
}

/// Returns whether the period has more minutes than a table gives.
fn is_over_table(period: Option<MeasuredPeriod>) -> bool
    ensures { result ≡ is_over_it period }
{
    match period {
        Some(period) => (period.limit as u128) < period.minutes,
        None => false,
    }
}

/// Returns whether the period has less rest before it than it needs.
fn lacks_rest(period: Option<MeasuredPeriod>) -> bool
    ensures { result ≡ lacks_it period }
{
    match period {
        Some(period) => period.minutes < period.limit as u128,
        None => false,
    }
}

/// Finds what of a member's duties is nearest to each limit: of all their flight duty periods, and of all windows that
/// hold a minute of the kind that is counted.
pub fn nearest(history: &History) -> Nearness
    ensures nearness { IsNearness history.now history.now 0 result }
    ensures rules { ExceedsIsRule history.now history.now result }
{
    nearest_of_new(history, history, 0)
}

/// Finds what is nearest to each limit of what new duties touch. So it says by how much a command that is refused for a
/// limit would have exceeded it, and where. `all` has `others` other duties of the member, and then the new ones.
#[tactic(auto, using(crate::proofs::PeriodRules::new_within))]
pub fn nearest_of_new(all: &History, new: &History, others: usize) -> Nearness
    requires { drop others all.now ≡ new.now }
    ensures nearness { IsNearness all.now new.now others result }
    ensures rules { ExceedsIsRule all.now new.now result }
{
    Nearness {
        flight_time: nearest_period(PeriodLimit::TableA, all, new, others),
        flight_duty_period: nearest_period(PeriodLimit::TableB, all, new, others),
        flight_time_672_hours: fullest_window(all, new, Kind::Flight, 40_320),
        flight_time_365_days: fullest_year(all, new),
        flight_duty_periods_168_hours: fullest_window(all, new, Kind::FlightDuty, 10_080),
        flight_duty_periods_672_hours: fullest_window(all, new, Kind::FlightDuty, 40_320),
        thirty_hour_rest: nearest_period(PeriodLimit::ThirtyHours, all, new, others),
        ten_hour_rest: nearest_period(PeriodLimit::TenHours, all, new, others),
    }
}
