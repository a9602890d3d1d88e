//! Whole days, of which a report is asked.
//! Texts that aren't days, and too many days: `tests/program.sh`. Wrong bodies: `must-fail-more/`.
ghost use Rattle.std.specs.Prelude.{◌≡◌, ◌≤◌, ◌-◌, IfSome};
ghost use Rattle.request.specs.Days as spec;

use std::marker::Model;
use time117::Minute;

/// What lies between the first minutes of the first and the last day, in minutes, at most: 62 days.
const LONGEST: u32 = 61 * MINUTES_OF_DAY;

const MINUTES_OF_DAY: u32 = 1_440;

/// Whole days by UTC, from a first to a last, at most 62 of them: so two whole months.
#[derive(Clone, Copy, Debug, PartialEq, Eq)]
pub struct Days {
    first: Minute,
    last: Minute,
}

impl Model for Days {
    ghost use Rattle.std.specs.Prelude.{◌≤◌, ◌-◌};
    ghost use Rattle.request.specs.Days.{Days};

    ghost Value = { Days };

    ghost view = { λ d. record { first = d.first; last = d.last } };

    ghost invariant = { λ d. (d.first ≤ d.last) × (d.last - d.first ≤ 87_840) };

    ghost inverse = { λ d. record { first = d.first; last = d.last } };
}

impl Days {
    /// Reads the first and the last of some days, each as `YYYY-MM-DD`. Days of the years 2000 to 2099, at most 62, of which the last
    /// isn't before the first, are taken, and nothing else.
    pub fn read(from: &str, to: &str) -> Option<Days>
        ensures value { result ≡ spec.days_read from.now to.now }
        ensures written { IfSome result
            (λ days. (spec.day_text days.first ≡ from.now) × (spec.day_text days.last ≡ to.now)) }
    {
        let first = day_of(from.as_bytes())?;
        let last = day_of(to.as_bytes())?;
        if first <= last && last.number() - first.number() <= LONGEST {
            Some(Days { first, last })
        } else {
            None
        }
    }

    /// Returns the first minute of the first day.
    pub fn first(self) -> Minute
        ensures { result ≡ self.first }
    {
        self.first
    }

    /// Returns the first minute of the last day.
    pub fn last(self) -> Minute
        ensures { result ≡ self.last }
    {
        self.last
    }

    /// Returns whether what goes from one minute to another has a minute in these days.
    pub fn meets(self, begin: Minute, end: Minute) -> bool
        ensures { result ≡ spec.meets self begin end }
    {
        begin.number() < self.last.number() + MINUTES_OF_DAY && self.first < end
    }
}

/// Returns the first minute of the day that a text names.
fn day_of(text: &[u8]) -> Option<Minute>
    ensures value { result ≡ spec.day_begin text.now }
    ensures written { IfSome result (λ minute. spec.day_text minute ≡ text.now) }
{
    let &[y0, y1, y2, y3, s0, m0, m1, s1, d0, d1] = text else {
        return None;
    };
    let instant = [
        y0, y1, y2, y3, s0, m0, m1, s1, d0, d1, b'T', b'0', b'0', b':', b'0', b'0', b'Z',
    ];
    Minute::read(&instant).ok()
}
