//! What meets some days: ground duties, outside periods, and open pairings by their periods.
//! Worked texts: `tests/reports.py`. Wrong bodies: `must-fail-more/`.
ghost use Rattle.std.specs.Prelude.{◌≡◌, IfOk};
ghost use Rattle.report.specs.Board as spec;

use crate::pairings::is_listed;
use crate::periods::periods_of;
use duty::Ground;
use request::{Days, Listed};
use roster::{OutsideEntry, PairingEntry};
use std::alloc::Global;
use values::MemoryFault;

/// Returns whether a ground duty has a minute in these days.
pub fn ground_meets(days: Days, duty: &Ground) -> bool
    ensures { result ≡ spec.ground_meets days duty.now }
{
    days.meets(duty.begin(), duty.end())
}

/// Returns whether an outside period has a minute in these days, from its report to its release.
pub fn outside_meets(days: Days, outside: &OutsideEntry) -> bool
    ensures { result ≡ spec.outside_meets days outside.now }
{
    days.meets(outside.period.report(), outside.period.release())
}

/// Returns whether a pairing has a free seat, and a period with a minute in these days. The one error is out of memory (91).
pub fn is_open_in(alloc: Global, days: Days, entry: &PairingEntry) -> Result<bool, MemoryFault>
    ensures { IfOk result (λ is. is ≡ spec.is_open_in days entry.now) }
{
    if !is_listed(Listed::Open, entry) {
        return Ok(false);
    }
    has_period_in(alloc, days, entry)
}

/// Returns whether a pairing has a period with a minute in these days. The one error is out of memory (91).
pub fn has_period_in(alloc: Global, days: Days, entry: &PairingEntry) -> Result<bool, MemoryFault>
    ensures { IfOk result (λ has. has ≡ spec.has_period_in days entry.now) }
{
    let periods = periods_of(alloc, entry)?;
    Ok(periods.iter().any(|period| period.meets(days)))
}
