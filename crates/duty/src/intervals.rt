//! Minutes as a sorted list of disjoint intervals with running sums, and what is asked of it.
//! Against a slow count of minutes: `tests/judgement.py`. Wrong bodies: `must-fail/` and `must-fail-more/`.
ghost use Rattle.std.specs.Prelude.{◌≡◌, ℕ, ◌<◌, ◌≤◌, ◌+◌, ◌-◌, ◌^◌, [], length, slice_index_or, slice_range, OnOk, IfOk, ◌||◌, ℤ, nat_lt, IsTrue, IsFalse, IfSome, IfNone, pos, negsuc, ◌-ℤ◌, ◌≤ℤ◌, unsigned_abs, ◌↔◌, ◌⊎◌, ◌&&◌};
ghost use Rattle.std.specs.List.{list_any};
ghost use Rattle.duty.specs.Intervals.{AreApart, IsIndex, lengths, spans_in};
ghost use Rattle.duty.specs.Minutes.{minutes_of, count, Meets, HasFreeRun};
ghost use Rattle.duty.specs.Overlaps.{meets_span};
ghost use Rattle.duty.specs.Sweeps.{at, below, natural as natural_of, IsFull, IsClear, IsNext};
ghost use Rattle.duty.specs.declared.intervals.Interval.{Interval as Spanned};

use super::merging::{Spans, absorb, first_ending_from, fitting, put, total_of};
use super::scan::SpanTest;
use super::span::Span;
use std::alloc::Global;
use std::marker::Model;
use values::MemoryFault;

/// A run of minutes with none just before or just after it, and how many minutes it and the ones before it have.
#[derive(Clone, Copy, Debug, PartialEq, Eq)]
pub struct Interval {
    pub span: Span,
    pub total: u32,
}

/// Minutes as a sorted list of disjoint intervals, no two of which touch.
#[derive(Drop)]
pub struct Intervals {
    intervals: Vec<Interval>,
}

impl Model for Intervals {
    ghost use Rattle.std.specs.Prelude.{◌-◌, vec_len, vec_capacity};
    ghost use Rattle.duty.specs.Merged.{Merged};

    ghost Value = { Merged };

    ghost use Rattle.duty.specs.Intervals.{IsIndex, spans_in};

    ghost view = { λ a. record {
      spans = spans_in a.intervals.items;
      room = vec_capacity a.intervals - vec_len a.intervals;
    } };

    ghost invariant = { λ a. IsIndex a.intervals.items };
}

impl Intervals {
    /// Makes an empty set of minutes. It takes no memory.
    pub fn empty(alloc: Global) -> Self
        ensures spans { result.spans ≡ [] }
        ensures room { result.room ≡ 0 }
    {
        Intervals {
            intervals: Vec::new(alloc),
        }
    }

    /// Collects the minutes of spans.
    pub(crate) fn of<S: Spans>(alloc: Global, spans: &S) -> Result<Self, MemoryFault>
        ensures { IfOk result (λ it. (minute : ℤ)
            → minutes_of it.spans minute ≡ minutes_of (S.spans spans.now) minute) }
    {
        let mut intervals = Intervals::empty(alloc);
        intervals.reserve(spans.count())?;
        intervals.add_all(spans);
        Ok(intervals)
    }

    /// Counts the minutes that are there among the `width` before `end`, a number of minutes since 2000-01-01T00:00Z.
    /// They may begin before the year 2000.
    pub fn minutes_before(&self, end: u64, width: u64) -> u64
        ensures { result ≡ count (minutes_of self.now.spans) (pos end -ℤ pos width) width }
    {
        let intervals = self.intervals.as_slice();
        minutes_below(intervals, end) - minutes_below(intervals, end.saturating_sub(width))
    }

    /// Returns the minutes from the first to the last that is there, if one is.
    pub fn hull(&self) -> Option<Span>
        ensures some { IfSome result
            (λ span. (minute : ℕ) → IsTrue (at (minutes_of self.now.spans) minute)
            → (span.from ≤ minute) × (minute < span.to)) }
        ensures ends { IfSome result (λ span. IsTrue (at (minutes_of self.now.spans) span.from)
            × IsTrue (at (minutes_of self.now.spans) (span.to - 1))) }
        ensures none { IfNone result
            ((minute : ℕ) → IsFalse (at (minutes_of self.now.spans) minute)) }
    {
        hull_of(self.intervals.as_slice())
    }

    /// Returns whether some interval that ends after `after` and before `before` passes.
    pub fn any_ending<T: SpanTest>(&self, after: u32, before: u64, test: &T) -> bool
        ensures { result ≡ list_any (λ span. (nat_lt after span.to && nat_lt span.to before)
            && T.passes test.now span) self.now.spans }
    {
        any_ending_of(self.intervals.as_slice(), after, before, test)
    }

    /// Counts all minutes that are there: no window holds more.
    pub fn total(&self) -> u64
        ensures sum { result ≡ lengths self.now.spans }
        ensures most { (start : ℤ) (width : ℕ)
            → count (minutes_of self.now.spans) start width ≤ result }
    {
        let intervals = self.intervals.as_slice();
        total_of(intervals, intervals.len()) as u64
    }

    /// Returns whether some of the `width` minutes before `end` is there.
    pub fn meets(&self, end: u64, width: u64) -> bool
        ensures { IsTrue result ↔ Meets (minutes_of self.now.spans) (pos end -ℤ pos width) width }
    {
        let first = end.saturating_sub(width);
        is_near(self.intervals.as_slice(), first, end) && 0 < self.minutes_before(end, width)
    }

    /// Returns whether some minute of the span is there.
    fn meets_span(&self, span: Span) -> bool
        ensures { result ≡ list_any (meets_span span) self.now.spans }
    {
        let from = span.from.number() as u64;
        let to = span.to.number() as u64;
        from < to && self.meets(to, to - from)
    }

    /// Returns whether some minute is in both.
    pub(crate) fn shares(&self, other: &Intervals) -> bool
        ensures { result
            ≡ list_any (λ span. list_any (meets_span span) other.now.spans) self.now.spans }
    {
        for interval in self.intervals.as_slice() {
            if other.meets_span(interval.span) {
                return true;
            }
        }
        false
    }

    /// Returns the end of the interval that has the minute, or the minute.
    pub(crate) fn covered_from(&self, minute: u64) -> u64
        ensures forward { minute ≤ result }
        ensures covered { IsFull (minutes_of self.now.spans) minute result }
        ensures none { result ≡ minute → IsFalse (at (minutes_of self.now.spans) minute) }
    {
        match first_after(self.intervals.as_slice(), minute) {
            Some(span) if span.from.number() as u64 <= minute => span.to.number() as u64,
            _ => minute,
        }
    }

    /// Returns the first minute after `minute` and before `limit` at which an interval begins, or `limit`.
    pub(crate) fn next_after(&self, minute: u64, limit: u64) -> u64
        requires { minute < limit }
        ensures after { minute < result }
        ensures within { result ≤ limit }
        ensures clear { IsClear (minutes_of self.now.spans) minute result }
        ensures stops { (result ≡ limit) ⊎ IsTrue (at (minutes_of self.now.spans) result) }
    {
        match first_after(self.intervals.as_slice(), minute) {
            Some(span) => span.begin_within(minute, limit),
            None => limit,
        }
    }

    /// Returns whether some `length` minutes in a row, all of them among the `width` minutes before `end`, are not
    /// there. `end` is a number of minutes since 2000-01-01T00:00Z; the minutes may begin before the year 2000.
    pub fn has_free_run(&self, end: u64, width: u64, length: u64) -> bool
        requires { 0 < length }
        ensures { IsTrue result
            ↔ HasFreeRun (minutes_of self.now.spans) (pos end -ℤ pos width) width length }
    {
        let mut minute = end.saturating_sub(width);
        let mut run = width - (end - minute);
        if length <= run {
            return true;
        }
        while minute < end {
            let covered = self.covered_from(minute);
            if minute < covered {
                minute = covered.min(end);
                run = 0;
            } else {
                let next = self.next_after(minute, end);
                let gap = next - minute;
                if length - run <= gap {
                    return true;
                }
                run += gap;
                minute = next;
            }
        }
        false
    }

    /// Counts the minutes that are there from `from` up to, and without, `to`.
    pub(crate) fn minutes_between(&self, from: i64, to: i64) -> u64
        requires order { from ≤ℤ to }
        ensures { result ≡ count (minutes_of self.now.spans) from (unsigned_abs (to -ℤ from)) }
    {
        let intervals = self.intervals.as_slice();
        minutes_below(intervals, natural(to)) - minutes_below(intervals, natural(from))
    }

    /// Returns whether some `length` minutes in a row, all of them from `from` up to, and without, `to`, are not there.
    pub(crate) fn free_run(&self, from: i64, to: i64, length: u32) -> bool
        requires order { from ≤ℤ to }
        requires begin { negsuc 99_999_999 ≤ℤ from }
        requires end { to ≤ℤ pos 100_000_000 }
        requires length { 0 < length }
        ensures { IsTrue result
            ↔ HasFreeRun (minutes_of self.now.spans) from (unsigned_abs (to -ℤ from)) length }
    {
        let width = width_of(from, to);
        if to < 0 {
            return length as u64 <= width;
        }
        self.has_free_run(natural(to), width, length as u64)
    }

    /// Copies the same spans.
    pub(crate) fn try_clone(&self, alloc: Global) -> Result<Intervals, MemoryFault>
        ensures { IfOk result (λ copy. copy.spans ≡ self.now.spans) }
    {
        let intervals = self.intervals.as_slice().to_vec(alloc)?;
        Ok(Intervals { intervals })
    }

    /// Returns the intervals in their order.
    pub(crate) fn as_slice(&self) -> &[Interval]
        ensures { spans_in result.now ≡ self.now.spans }
    {
        self.intervals.as_slice()
    }

    /// Makes room for that many more spans.
    pub(crate) fn reserve(&mut self, additional: usize) -> Result<(), MemoryFault>
        ensures spans { self.new.spans ≡ self.old.spans }
        ensures room { OnOk result (additional ≤ self.new.room) }
    {
        self.intervals.reserve(additional)?;
        Ok(())
    }

    /// Adds the minutes of spans. Those that go one after another into one gap are put in at once.
    pub(crate) fn add_all<S: Spans>(&mut self, spans: &S)
        requires { length (S.spans spans.now) ≤ self.old.room }
        ensures { (minute : ℤ) → minutes_of self.new.spans minute
            ≡ (minutes_of (S.spans spans.now) minute || minutes_of self.old.spans minute) }
    {
        let mut next = 0;
        while next < spans.count() {
            next = self.add_from(spans, next);
        }
    }

    /// Adds the minutes of the span at `first`, and of those after it that go into the same gap, and gives the index of the
    /// first span that is left.
    fn add_from<S: Spans>(&mut self, spans: &S, first: usize) -> usize
        // The spans from `first` on, which there is room for.
        requires some { first < length (S.spans spans.now) }
        requires fits { length (S.spans spans.now) < 2 ^ 64 }
        requires room { length (S.spans spans.now) ≤ self.old.room + first }

        // How far the call came.
        ensures some { first < result }
        ensures within { result ≤ length (S.spans spans.now) }

        // What it added, and the room that is left.
        ensures minutes { (minute : ℤ) → minutes_of self.new.spans minute
            ≡ (minutes_of (slice_range (S.spans spans.now) first result) minute
            || minutes_of self.old.spans minute) }
        ensures room { self.old.room + first ≤ self.new.room + result }
    {
        if spans.span(first).is_empty() {
            return first + 1;
        }
        let (place, merged) = absorb(&mut self.intervals, spans.span(first));
        let next = fitting(
            self.intervals.as_slice(),
            place,
            merged.to,
            spans,
            first + 1,
        );
        put(&mut self.intervals, place, merged, spans, first + 1, next);
        next
    }
}

impl Spans for Intervals {
    ghost spans = { λ it. it.spans };

    fn count(&self) -> usize {
        self.intervals.len()
    }

    fn span(&self, index: usize) -> Span {
        self.intervals[index].span
    }
}

/// Returns the minutes from the first begin to the last end.
fn hull_of(intervals: &[Interval]) -> Option<Span>
    requires { AreApart 0 (spans_in intervals.now) }
    ensures some { IfSome result
        (λ span. (minute : ℕ) → IsTrue (at (minutes_of (spans_in intervals.now)) minute)
        → (span.from ≤ minute) × (minute < span.to)) }
    ensures ends { IfSome result
        (λ span. IsTrue (at (minutes_of (spans_in intervals.now)) span.from)
        × IsTrue (at (minutes_of (spans_in intervals.now)) (span.to - 1))) }
    ensures none { IfNone result
        ((minute : ℕ) → IsFalse (at (minutes_of (spans_in intervals.now)) minute)) }
{
    let count = intervals.len();
    if count == 0 {
        return None;
    }
    Some(Span {
        from: intervals[0].span.from,
        to: intervals[count - 1].span.to,
    })
}

/// Returns whether some interval that ends after `after` and before `before` passes.
fn any_ending_of<T: SpanTest>(intervals: &[Interval], after: u32, before: u64, test: &T) -> bool
    requires { AreApart 0 (spans_in intervals.now) }
    ensures { result ≡ list_any (λ span. (nat_lt after span.to && nat_lt span.to before)
        && T.passes test.now span) (spans_in intervals.now) }
{
    let first = first_ending_from(intervals, after as u64 + 1);
    let last = first_ending_from(intervals, before);
    for index in first..last {
        if test.passes(intervals[index].span) {
            return true;
        }
    }
    false
}

/// Returns whether some interval begins before `to`, and some ends after `from`. If not, no minute from `from` up to,
/// and without, `to` is there.
fn is_near(intervals: &[Interval], from: u64, to: u64) -> bool
    requires { AreApart 0 (spans_in intervals.now) }
    ensures { IsFalse result → (minute : ℕ) → from ≤ minute → minute < to
        → IsFalse (at (minutes_of (spans_in intervals.now)) minute) }
{
    let count = intervals.len();
    if count == 0 {
        return false;
    }
    if to <= intervals[0].span.from.number() as u64 {
        return false;
    }
    from < intervals[count - 1].span.to.number() as u64
}

/// Finds the first interval that ends after `minute`.
fn first_after(intervals: &[Interval], minute: u64) -> Option<Span>
    requires { AreApart 0 (spans_in intervals.now) }
    ensures some { IfSome result
        (λ span. IsNext (minutes_of (spans_in intervals.now)) minute span) }
    ensures none { IfNone result
        ((other : ℕ) → minute ≤ other → IsFalse (at (minutes_of (spans_in intervals.now)) other)) }
{
    let place = first_ending_from(intervals, minute.saturating_add(1));
    if place == intervals.len() {
        return None;
    }
    if minute < intervals[place].span.to.number() as u64 {
        Some(intervals[place].span)
    } else {
        None
    }
}

/// Counts the minutes of the intervals before `minute`.
fn minutes_below(intervals: &[Interval], minute: u64) -> u64
    requires { IsIndex intervals.now }
    ensures { result ≡ below (at (minutes_of (spans_in intervals.now))) minute }
{
    let place = first_ending_from(intervals, minute.saturating_add(1));
    if place == intervals.len() {
        return total_of(intervals, place) as u64;
    }
    let interval = intervals[place];
    let begin = interval.span.from.number() as u64;
    let end = interval.span.to.number() as u64;
    interval.total as u64 - (end - minute.max(begin))
}

/// Returns the number, or 0 where it is negative.
fn natural(number: i64) -> u64
    ensures { result ≡ natural_of number }
{
    if number < 0 { 0 } else { number as u64 }
}

/// Counts the minutes from `from` up to, and without, `to`.
fn width_of(from: i64, to: i64) -> u64
    requires order { from ≤ℤ to }
    requires begin { negsuc 99_999_999 ≤ℤ from }
    requires end { to ≤ℤ pos 100_000_000 }
    ensures { result ≡ unsigned_abs (to -ℤ from) }
{
    (to - from) as u64
}
