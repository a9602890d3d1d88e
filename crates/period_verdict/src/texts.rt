//! Times of day and lengths of time, as they are printed.
//! Wrong bodies: `must-fail-more/`.
use std::fmt;

/// A local time of day, shown as `07:05`.
#[derive(Clone, Copy)]
pub struct Clock {
    /// The minute of the day.
    pub minute: u16,
}

impl fmt::Display for Clock {
    ghost use Rattle.std.specs.Prelude.{Some};
    ghost use Rattle.period_verdict.specs.Texts.{clock_text};

    ghost output = { λ clock. Some (clock_text clock.minute) };

    #[tactic(auto, unfolding(crate::specs::Texts::clock_text))]
    fn fmt<W: fmt::Write>(&self, f: &mut fmt::Formatter<W>) -> fmt::Result {
        let (hour, minute) = (self.minute / 60, self.minute % 60);
        write!(
            f,
            "{}{}:{}{}",
            hour / 10,
            hour % 10,
            minute / 10,
            minute % 10
        )
    }
}

/// A length of time, shown in hours and minutes as `13:05`.
#[derive(Clone, Copy)]
pub struct Hours {
    /// The length in minutes.
    pub minutes: u32,
}

impl fmt::Display for Hours {
    ghost use Rattle.std.specs.Prelude.{Some};
    ghost use Rattle.period_verdict.specs.Texts.{hours_text};

    ghost output = { λ hours. Some (hours_text hours.minutes) };

    #[tactic(auto, unfolding(crate::specs::Texts::hours_text))]
    fn fmt<W: fmt::Write>(&self, f: &mut fmt::Formatter<W>) -> fmt::Result {
        let minute = self.minutes % 60;
        write!(f, "{}:{}{}", self.minutes / 60, minute / 10, minute % 10)
    }
}
