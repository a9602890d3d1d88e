//! The periods of a pairing with their times in force.
//! Worked texts: `tests/reports.py`. Wrong bodies: `must-fail-more/`.
ghost use Rattle.std.specs.Prelude.{◌≡◌, ◌≤◌, IfOk, length};
ghost use Rattle.std.specs.List.{All};
ghost use Rattle.report.specs.Board.{period_meets};
ghost use Rattle.report.specs.Periods as spec;

use duty::{Actual, Fdp, flight_minutes, last_block_in};
use request::Days;
use roster::{PairingEntry, with_times_in_force};
use std::alloc::Global;
use values::{MemoryFault, TryClone};

/// A flight duty period (14 CFR 117.3) as it is planned, as it was flown, and with its times in force: those of its actual, if it
/// has one, else the planned ones.
#[derive(Drop)]
pub struct PeriodInForce {
    /// As it is planned.
    pub plan: Fdp,
    /// As it was flown, if it was.
    pub actual: Option<Actual>,
    /// With its times in force.
    pub fdp: Fdp,
    /// Whether it has an actual.
    pub is_flown: bool,
}

impl PeriodInForce {
    /// Returns `actual` or `plan`, by where the period's times come from.
    pub fn word(&self) -> &'static str
        ensures { result.now ≡ spec.times_word self.now }
    {
        if self.is_flown { "actual" } else { "plan" }
    }

    /// Returns the length in minutes, from report to the last block-in.
    pub fn length(&self) -> u32
        ensures { result ≡ spec.length_to_last_block_in self.now.fdp }
    {
        let end = last_block_in(self.fdp.report, self.fdp.segments.as_slice());
        end.number().saturating_sub(self.fdp.report.number())
    }

    /// Counts the minutes of flight time, from block-out to block-in of each segment (14 CFR 1.1).
    pub fn flight_time(&self) -> u32
        requires { length self.now.fdp.segments ≤ 12 }
        ensures { result ≡ spec.flight_time_of self.now.fdp }
    {
        flight_minutes(self.fdp.segments.as_slice())
    }

    /// Returns whether the period has a minute in these days, from its report to its release in force.
    pub fn meets(&self, days: Days) -> bool
        ensures { result ≡ period_meets days self.now }
    {
        days.meets(self.fdp.report, self.fdp.release)
    }
}

/// Copies the periods of a pairing in turn, with their times in force.
pub fn periods_of(alloc: Global, entry: &PairingEntry) -> Result<Vec<PeriodInForce>, MemoryFault>
    ensures periods { IfOk result (λ periods. periods.items ≡ spec.pairing_periods entry.now) }
    ensures few { IfOk result
        (λ periods. All (λ period. length period.fdp.segments ≤ 12) periods.items) }
{
    let mut periods = Vec::new(alloc);
    for (period, actual) in entry.plan.periods().iter().zip(entry.actuals.as_slice()) {
        periods.push(PeriodInForce {
            plan: period.try_clone(alloc)?,
            actual: actual.try_clone(alloc)?,
            fdp: with_times_in_force(alloc, period, actual)?,
            is_flown: actual.is_some(),
        })?;
    }
    Ok(periods)
}
