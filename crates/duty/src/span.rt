//! Spans of minutes, from a first minute up to one that is no longer in it.
ghost use Rattle.std.specs.Prelude.{◌≡◌, ◌<◌, ◌≤◌, ◌⊎◌, IsTrue, IsFalse};

use time117::Minute;

/// The minutes from `from` up to, and without, `to`. It holds none where it does not begin before it ends.
#[derive(Clone, Copy, Debug, PartialEq, Eq)]
pub struct Span {
    pub from: Minute,
    pub to: Minute,
}

impl Span {
    /// Returns whether the span holds no minute.
    pub(crate) fn is_empty(self) -> bool
        ensures empty { IsTrue result → self.to ≤ self.from }
        ensures some { IsFalse result → self.from < self.to }
    {
        self.to <= self.from
    }

    /// Returns where the span begins, if it holds a minute and begins after `minute` and before `limit`; else `limit`.
    pub(crate) fn begin_within(self, minute: u64, limit: u64) -> u64
        requires { minute < limit }
        ensures after { minute < result }
        ensures within { result ≤ limit }
        ensures first { minute < self.from → self.from < self.to → result ≤ self.from }
        ensures stops { (result ≡ limit) ⊎ ((result ≡ self.from) × (self.from < self.to)) }
    {
        let begin = self.from.number() as u64;
        if minute < begin && begin < limit && self.from < self.to {
            begin
        } else {
            limit
        }
    }
}
