//! The fullest window of hours, for 117.23(b)(1), and 117.23(c)(1) and (2): of the windows that meet new minutes, the
//! one that holds the most of all. A few windows suffice, which `proofs/Rounds.antt` proves: those that end where a
//! span ends or begin where one begins, and those that end with the first minute of a new span.
//! Wrong bodies: `must-fail/` and `must-fail-more/`.
ghost use Rattle.std.specs.Prelude.{◌≡◌, ◌<◌, ◌+◌, ◌^◌, ℕ, pos, ◌-ℤ◌, ◌⊎◌, length, slice_index_or, IfSome, IfNone};
ghost use Rattle.duty.specs.Minutes.{spans_of, minutes_in, Meets};
ghost use Rattle.duty.specs.declared.span.Span.{Span as Minutes};
ghost use Rattle.duty.specs.declared.duty_in_force.DutyInForce.{DutyInForce as InForce};
ghost use Rattle.limits.specs.Judgement.{IsWithin};
ghost use Rattle.nearness.specs.Fullest.{IsFullest, HasNoMinute};
ghost use Rattle.nearness.specs.Searches.{IsCounted, IsAsGood, IsNoWorse, IsMet, IsTried, spans_of_all, new_in};

use duty::{DutyInForce, History, Kind};

/// The window of a width that holds the most minutes of a kind, of those that a limit looks at.
#[derive(Clone, Copy, Debug, PartialEq, Eq)]
pub struct FullestWindow {
    /// How many minutes of the kind it holds. A minute counts once, however many duties hold it.
    pub minutes: u64,
    /// Its first minute, in minutes since 2000-01-01T00:00Z: negative where the window begins before the year 2000.
    pub start: i64,
}

/// A window that was tried: how many minutes it holds, and its end in minutes since 2000-01-01T00:00Z.
#[derive(Clone, Copy, Debug, PartialEq, Eq)]
pub struct Window {
    pub minutes: u64,
    pub end: u64,
}

impl Window {
    /// Names the window of `width` minutes by its first one.
    pub(crate) fn by_start(self, width: u32) -> FullestWindow
        requires { self.end < 2 ^ 40 }
        ensures minutes { result.minutes ≡ self.minutes }
        ensures start { result.start ≡ pos self.end -ℤ pos width }
    {
        FullestWindow {
            minutes: self.minutes,
            start: self.end as i64 - width as i64,
        }
    }
}

/// The windows of `width` minutes that meet a new minute of a kind. They hold minutes of that kind of all duties.
#[derive(Drop)]
pub(crate) struct Windows<'a> {
    pub(crate) all: &'a History,
    pub(crate) new: &'a History,
    pub(crate) kind: Kind,
    pub(crate) width: u32,
}

impl Windows<'_> {
    /// Returns the window that ends at `end` if it meets a new minute, and holds more than the best one, or as many and
    /// ends earlier; else the best one.
    pub(crate) fn better(&self, best: Window, end: u64) -> Window
        requires near { end < 2 ^ 40 }
        requires held { IsCounted (spans_of_all self.now) self.now.width best }
        requires met { IsMet (new_in self.now) self.now.width best }
        ensures holds { IsCounted (spans_of_all self.now) self.now.width result }
        ensures met { IsMet (new_in self.now) self.now.width result }
        ensures kept { IsNoWorse (spans_of_all self.now) self.now.width best result }
        ensures tried { Meets (new_in self.now) (pos end -ℤ pos self.now.width) self.now.width
            → IsAsGood (spans_of_all self.now) self.now.width result end }
        ensures one { (result.end ≡ best.end) ⊎ (result.end ≡ end) }
    {
        if !self.new.meets(self.kind, end, self.width as u64) {
            return best;
        }
        let minutes = self.all.minutes_before(self.kind, end, self.width as u64);
        if best.minutes < minutes || best.minutes == minutes && end < best.end {
            Window { minutes, end }
        } else {
            best
        }
    }

    /// Tries the windows that end `after_begin` minutes after a span of the duty begins, and those that end where one
    /// ends.
    fn try_duty(&self, duty: &DutyInForce, mut best: Window, after_begin: u32) -> Window
        requires held { IsCounted (spans_of_all self.now) self.now.width best }
        requires met { IsMet (new_in self.now) self.now.width best }
        ensures holds { IsCounted (spans_of_all self.now) self.now.width result }
        ensures met { IsMet (new_in self.now) self.now.width result }
        ensures kept { IsNoWorse (spans_of_all self.now) self.now.width best result }
        ensures tried { (k : ℕ) (d : Minutes) → k < length (spans_of self.now.kind duty.now)
            → IsTried (spans_of_all self.now) (new_in self.now) self.now.width result after_begin
            (slice_index_or (spans_of self.now.kind duty.now) k d) }
    {
        for index in 0..duty.span_count(self.kind) {
            let span = duty.span_at(self.kind, index);
            best = self.better(best, span.from.number() as u64 + after_begin as u64);
            best = self.better(best, span.to.number() as u64);
        }
        best
    }

    /// Tries these windows of each of the duties.
    fn try_duties(&self, duties: &[DutyInForce], mut best: Window, after_begin: u32) -> Window
        requires held { IsCounted (spans_of_all self.now) self.now.width best }
        requires met { IsMet (new_in self.now) self.now.width best }
        ensures holds { IsCounted (spans_of_all self.now) self.now.width result }
        ensures met { IsMet (new_in self.now) self.now.width result }
        ensures kept { IsNoWorse (spans_of_all self.now) self.now.width best result }
        ensures tried { (j : ℕ) (e : InForce) (k : ℕ) (d : Minutes) → j < length duties.now
            → k < length (spans_of self.now.kind (slice_index_or duties.now j e))
            → IsTried (spans_of_all self.now) (new_in self.now) self.now.width result after_begin
            (slice_index_or (spans_of self.now.kind (slice_index_or duties.now j e)) k d) }
    {
        for duty in duties {
            best = self.try_duty(duty, best, after_begin);
        }
        best
    }
}

/// Finds the fullest `width` minutes in a row of those that meet a new minute of that kind: those that hold the most
/// minutes of all, and of these the first. There are none where no new duty has a minute of that kind.
pub(crate) fn fullest_window(
    all: &History,
    new: &History,
    kind: Kind,
    width: u32,
) -> Option<FullestWindow>
    requires width { 0 < width }
    requires new { IsWithin new.now all.now }
    ensures some { IfSome result (λ window. IsFullest (minutes_in kind all.now)
        (minutes_in kind new.now) width window.minutes window.start) }
    ensures none { IfNone result (HasNoMinute (minutes_in kind new.now)) }
{
    let windows = Windows {
        all,
        new,
        kind,
        width,
    };
    let none = Window { minutes: 0, end: 0 };
    let at_spans = windows.try_duties(all.duties(), none, width);
    let best = windows.try_duties(new.duties(), at_spans, 1);
    if best.minutes == 0 {
        return None;
    }
    Some(best.by_start(width))
}
