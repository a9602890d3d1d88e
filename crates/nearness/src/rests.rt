//! How much rest a member has before a report, for 117.25(b) and 117.25(e).
//! Wrong bodies: `must-fail-more/`.
ghost use Rattle.std.specs.Prelude.{pos, ◌-ℤ◌};
ghost use Rattle.duty.specs.Minutes.{minutes_in};
ghost use Rattle.duty.specs.declared.kind.Kind.TheVariants.{Duty};
ghost use Rattle.nearness.specs.Rests.{IsLongestFreeRun, IsFreeBefore};

use duty::{History, Kind};
use time117::Minute;

/// The minutes before a report that are looked at: 168 hours.
const LOOK_BACK: u32 = 10_080;

/// Counts the minutes of the longest time free from duty among the 168 hours before a report (117.25(b)).
pub(crate) fn longest_free_run(history: &History, report: Minute) -> u32
    ensures { IsLongestFreeRun (minutes_in Duty history.now) (pos report -ℤ pos 10_080) 10_080
        result }
{
    let end = report.number() as u64;
    let mut long = 0;
    let mut too_long = LOOK_BACK + 1;
    while 1 < too_long - long {
        let middle = long + (too_long - long) / 2;
        if history.has_free_run(Kind::Duty, end, LOOK_BACK as u64, middle as u64) {
            long = middle;
        } else {
            too_long = middle;
        }
    }
    long
}

/// Counts the minutes free from duty just before a report (117.25(e)), up to 168 hours.
pub(crate) fn free_before(history: &History, report: Minute) -> u32
    ensures { IsFreeBefore (minutes_in Duty history.now) (pos report) 10_080 result }
{
    let end = report.number() as u64;
    let mut free = 0;
    let mut too_long = LOOK_BACK + 1;
    while 1 < too_long - free {
        let middle = free + (too_long - free) / 2;
        if history.meets(Kind::Duty, end, middle as u64) {
            too_long = middle;
        } else {
            free = middle;
        }
    }
    free
}
