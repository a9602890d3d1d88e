//! The fullest 365 days of UTC, for 117.23(b)(2). Those suffice that end with a day from that of the first new flight
//! minute up to the 364th after that of the last one, which `proofs/Years.antt` proves.
//! Wrong bodies: `must-fail/` and `must-fail-more/`.
ghost use Rattle.std.specs.Prelude.{IfSome, IfNone};
ghost use Rattle.duty.specs.Minutes.{minutes_in};
ghost use Rattle.duty.specs.declared.kind.Kind.TheVariants.{Flight};
ghost use Rattle.limits.specs.Judgement.{IsWithin};
ghost use Rattle.nearness.specs.Fullest.{IsFullestYear, HasNoMinute};

use super::windows::{FullestWindow, Window, Windows};
use duty::{History, Kind};

/// The minutes of 365 days.
const YEAR: u32 = 525_600;

/// The minutes of a day.
const DAY: u32 = 1_440;

/// Finds the fullest 365 days of UTC in a row of those that meet a new flight minute: those that hold the most flight
/// minutes of all, and of these the first. They begin with the first minute of a day. There are none where no new duty
/// has a flight minute.
pub(crate) fn fullest_year(all: &History, new: &History) -> Option<FullestWindow>
    requires { IsWithin new.now all.now }
    ensures some { IfSome result (λ year. IsFullestYear (minutes_in Flight all.now)
        (minutes_in Flight new.now) year.minutes year.start) }
    ensures none { IfNone result (HasNoMinute (minutes_in Flight new.now)) }
{
    let Some(flown) = new.intervals(Kind::Flight).hull() else {
        return None;
    };
    let years = Windows {
        all,
        new,
        kind: Kind::Flight,
        width: YEAR,
    };
    let mut best = Window { minutes: 0, end: 0 };
    let first = flown.from.number() / DAY;
    let last = flown.to.number() / DAY + 365;
    for day in first..last {
        best = years.better(best, (day as u64 + 1) * DAY as u64);
    }
    if best.minutes == 0 {
        return None;
    }
    Some(best.by_start(YEAR))
}
