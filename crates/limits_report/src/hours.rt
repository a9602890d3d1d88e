//! Lengths of time of any number of minutes, as they are printed.
use std::fmt;

/// A length of time, shown in hours and minutes as `13:05`. It is wider than `Hours` of `period_verdict`: the flight time
/// of a period may be more than a `u32` holds.
#[derive(Clone, Copy)]
pub(crate) struct WideHours {
    /// The length in minutes.
    pub(crate) minutes: u128,
}

impl fmt::Display for WideHours {
    ghost use Rattle.std.specs.Prelude.{Some};
    ghost use Rattle.period_verdict.specs.Texts.{hours_text};

    ghost output = { λ hours. Some (hours_text hours.minutes) };

    #[tactic(auto, unfolding(period_verdict::specs::Texts::hours_text))]
    fn fmt<W: fmt::Write>(&self, f: &mut fmt::Formatter<W>) -> fmt::Result {
        let minute = self.minutes % 60;
        write!(f, "{}:{}{}", self.minutes / 60, minute / 10, minute % 10)
    }
}
