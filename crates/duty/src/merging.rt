//! Spans put into sorted lists of disjoint intervals, and the running sums made anew.
//! Against a slow count of minutes: `tests/judgement.py`. Wrong bodies: `must-fail/` and `must-fail-more/`.
ghost use Rattle.std.specs.Prelude.{◌≡◌, ℕ, ◌<◌, ◌≤◌, ◌+◌, ◌-◌, ◌++◌, ◌∷◌, [], List, Some, length, map, slice_get, slice_index_or, slice_range, take, ◌||◌, ℤ, vec_len, vec_capacity, nat_lt, IsTrue, IsFalse};
ghost use Rattle.std.specs.List.{insert, insert_slice};
ghost use Rattle.duty.specs.Intervals.{AreApart, AreSummed, IsIndex, lengths, spans_in, unsummed, joined as join};
ghost use Rattle.duty.specs.Minutes.{covers, minutes_of};
ghost use Rattle.duty.specs.declared.intervals.Interval.{Interval as Spanned};
ghost use Rattle.duty.specs.declared.span.Span.{Span as Minutes};

use super::intervals::Interval;
use super::span::Span;
use time117::Minute;

/// Spans in some order.
pub(crate) trait Spans {
    ghost spans: { Self → List Minutes };

    /// Counts the spans.
    fn count(&self) -> usize
        ensures { result ≡ length (spans self.now) };

    /// Returns the span at an index.
    fn span(&self, index: usize) -> Span
        requires { index < length (spans self.now) }
        ensures { slice_get (spans self.now) index ≡ Some result };
}

impl Spans for Vec<Span> {
    ghost spans = { λ it. it.items };

    fn count(&self) -> usize {
        self.len()
    }

    fn span(&self, index: usize) -> Span {
        self[index]
    }
}

/// Finds the place of the first interval that ends at `minute` or later, or their number.
pub(crate) fn first_ending_from(intervals: &[Interval], minute: u64) -> usize
    requires { AreApart 0 (spans_in intervals.now) }
    ensures within { result ≤ length intervals.now }
    ensures before { (k : ℕ) (d : Spanned) → k < result
        → (slice_index_or intervals.now k d).span.to < minute }
    ensures after { (k : ℕ) (d : Spanned) → result ≤ k → k < length intervals.now
        → minute ≤ (slice_index_or intervals.now k d).span.to }
{
    intervals.partition_point(
        |interval: &Interval| -> bool
            ensures { result ≡ nat_lt interval.now.span.to minute }
        { (interval.span.to.number() as u64) < minute },
    )
}

/// Takes out the intervals that meet or touch the span, and gives the place of the span that they and it make, and that span.
pub(crate) fn absorb(intervals: &mut Vec<Interval>, span: Span) -> (usize, Span)
    // A list in order, and a span that holds a minute.
    requires index { IsIndex intervals.old.items }
    requires some { span.from < span.to }

    // Where the span goes, as long as it has become.
    ensures within { result.0 ≤ vec_len intervals.new }
    ensures apart { AreApart 0 (insert (spans_in intervals.new.items) result.0 result.1) }
    ensures summed { AreSummed result.0 intervals.new.items }

    // No minute is lost, none is new.
    ensures minutes { (minute : ℤ)
        → (covers minute result.1 || minutes_of (spans_in intervals.new.items) minute)
        ≡ (covers minute span || minutes_of (spans_in intervals.old.items) minute) }

    // The list is no longer, and its room stays.
    ensures fewer { vec_len intervals.new ≤ vec_len intervals.old }
    ensures capacity { vec_capacity intervals.new ≡ vec_capacity intervals.old }
{
    let place = first_ending_from(intervals.as_slice(), span.from.number() as u64);
    (place, absorb_at(intervals, place, span))
}

/// Takes out the intervals from `place` on that meet or touch the span, and gives the span that they and it make.
fn absorb_at(intervals: &mut Vec<Interval>, place: usize, span: Span) -> Span
    // A list in order, and a span that holds a minute.
    requires apart { AreApart 0 (spans_in intervals.old.items) }
    requires some { span.from < span.to }

    // The place behind the intervals that end before the span.
    requires within { place ≤ vec_len intervals.old }
    requires before { (k : ℕ) (d : Spanned) → k < place
        → (slice_index_or intervals.old.items k d).span.to < span.from }
    requires after { (k : ℕ) (d : Spanned) → place ≤ k → k < vec_len intervals.old
        → span.from ≤ (slice_index_or intervals.old.items k d).span.to }

    // What the span has become still goes there.
    ensures some { result.from < result.to }
    ensures within { place ≤ vec_len intervals.new }
    ensures apart { AreApart 0 (insert (spans_in intervals.new.items) place result) }

    // No minute is lost, none is new.
    ensures minutes { (minute : ℤ)
        → (covers minute result || minutes_of (spans_in intervals.new.items) minute)
        ≡ (covers minute span || minutes_of (spans_in intervals.old.items) minute) }

    // The list is no longer, its room stays, and so do the sums before the place.
    ensures fewer { vec_len intervals.new ≤ vec_len intervals.old }
    ensures capacity { vec_capacity intervals.new ≡ vec_capacity intervals.old }
    ensures same_sums { AreSummed place intervals.old.items → AreSummed place intervals.new.items }
{
    let mut merged = span;
    while begins_by(intervals.as_slice(), place, merged.to) {
        merged = join(merged, intervals.remove(place).span);
    }
    merged
}

/// Returns whether there is an interval at `place` that begins at `minute` or before.
fn begins_by(intervals: &[Interval], place: usize, minute: Minute) -> bool
    ensures some { IsTrue result → place < length intervals.now }
    ensures begins { IsTrue result → (d : Spanned)
        → (slice_index_or intervals.now place d).span.from ≤ minute }
    ensures none { IsFalse result → (d : Spanned) → place < length intervals.now
        → minute < (slice_index_or intervals.now place d).span.from }
{
    place < intervals.len() && intervals[place].span.from <= minute
}

/// Joins the spans, from the first begin to the last end.
fn join(one: Span, other: Span) -> Span
    ensures { result ≡ join one other }
{
    Span {
        from: one.from.min(other.from),
        to: one.to.max(other.to),
    }
}

/// Finds the index up to which the spans from `first` on go, one after another, between `end` and the interval at
/// `place`.
pub(crate) fn fitting<S: Spans>(
    intervals: &[Interval],
    place: usize,
    mut end: Minute,
    spans: &S,
    first: usize,
) -> usize
    requires { first ≤ length (S.spans spans.now) }
    ensures order { first ≤ result }
    ensures within { result ≤ length (S.spans spans.now) }
    ensures apart { (before : Minutes) → before.to ≡ end
        → AreApart 0 (insert (spans_in intervals.now) place before)
        → AreApart 0 (insert_slice (spans_in intervals.now) place
        (before ∷ slice_range (S.spans spans.now) first result)) }
{
    for index in first..spans.count() {
        if !goes_on(intervals, place, end, spans.span(index)) {
            return index;
        }
        end = spans.span(index).to;
    }
    spans.count()
}

/// Returns whether a span has a minute, begins after `end`, and ends before the interval at `place` begins.
fn goes_on(intervals: &[Interval], place: usize, end: Minute, span: Span) -> bool
    ensures order { IsTrue result → (end < span.from) × (span.from < span.to) }
    ensures before { IsTrue result → (d : Spanned) → place < length intervals.now
        → span.to < (slice_index_or intervals.now place d).span.from }
{
    end < span.from && span.from < span.to && !begins_by(intervals, place, span.to)
}

/// Puts the span in at `place` and after it the spans from `first` up to, and without, `last`, for which there is room, and
/// adds up anew from there on.
pub(crate) fn put<S: Spans>(
    intervals: &mut Vec<Interval>,
    place: usize,
    span: Span,
    spans: &S,
    first: usize,
    last: usize,
)
    // The spans that go to the place, in order with the intervals there.
    requires apart { AreApart 0 (insert_slice (spans_in intervals.old.items) place
        (span ∷ slice_range (S.spans spans.now) first last)) }
    requires order { first ≤ last }
    requires in_list { last ≤ length (S.spans spans.now) }

    // The place, the room, and the sums before it.
    requires within { place ≤ vec_len intervals.old }
    requires room { vec_len intervals.old + (last - first) < vec_capacity intervals.old }
    requires summed { AreSummed place intervals.old.items }

    // The list is in order, with all sums.
    ensures spans { spans_in intervals.new.items ≡ insert_slice (spans_in intervals.old.items) place
        (span ∷ slice_range (S.spans spans.now) first last) }
    ensures summed { AreSummed (length intervals.new.items) intervals.new.items }

    // It has grown within its room.
    ensures len { vec_len intervals.new ≡ vec_len intervals.old + 1 + (last - first) }
    ensures capacity { vec_capacity intervals.old ≤ vec_capacity intervals.new }
{
    let count = intervals.len();
    push_all(intervals, span, spans, first, last);
    move_tail(intervals, count, place);
    sum_from(intervals, place);
}

/// Appends the span, and the spans from `first` up to, and without, `last`, with no totals yet.
fn push_all<S: Spans>(
    intervals: &mut Vec<Interval>,
    span: Span,
    spans: &S,
    first: usize,
    last: usize,
)
    // The spans, and the room for them.
    requires order { first ≤ last }
    requires within { last ≤ length (S.spans spans.now) }
    requires room { vec_len intervals.old + (last - first) < vec_capacity intervals.old }

    // They stand behind the intervals, without sums.
    ensures items { intervals.new.items
        ≡ intervals.old.items ++ map unsummed (span ∷ slice_range (S.spans spans.now) first last) }
    ensures len { vec_len intervals.new ≡ vec_len intervals.old + 1 + (last - first) }
    ensures capacity { vec_capacity intervals.old ≤ vec_capacity intervals.new }
{
    push(intervals, span);
    for index in first..last {
        push(intervals, spans.span(index));
    }
}

/// Appends a span with no total yet.
fn push(intervals: &mut Vec<Interval>, span: Span)
    requires { vec_len intervals.old < vec_capacity intervals.old }
    ensures items { intervals.new.items ≡ intervals.old.items ++ unsummed span ∷ [] }
    ensures len { vec_len intervals.new ≡ vec_len intervals.old + 1 }
    ensures capacity { vec_capacity intervals.old ≤ vec_capacity intervals.new }
{
    let _ = intervals.push(Interval { span, total: 0 });
}

/// Moves the intervals from `tail` on to `place`, before those that were there.
fn move_tail(intervals: &mut Vec<Interval>, tail: usize, place: usize)
    requires order { place ≤ tail }
    requires within { tail ≤ vec_len intervals.old }
    ensures items { (front back : List Spanned) → intervals.old.items ≡ front ++ back
        → length front ≡ tail
        → intervals.new.items ≡ insert_slice front place back }
    ensures len { vec_len intervals.new ≡ vec_len intervals.old }
    ensures capacity { vec_capacity intervals.new ≡ vec_capacity intervals.old }
{
    intervals[place..].rotate_left(tail - place);
}

/// Adds up the lengths from `place` on.
fn sum_from(intervals: &mut Vec<Interval>, place: usize)
    // A list in order, with the sums before the place.
    requires apart { AreApart 0 (spans_in intervals.old.items) }
    requires within { place ≤ vec_len intervals.old }
    requires summed { AreSummed place intervals.old.items }

    // The same list, with all sums.
    ensures spans { spans_in intervals.new.items ≡ spans_in intervals.old.items }
    ensures summed { AreSummed (length intervals.new.items) intervals.new.items }
    ensures len { vec_len intervals.new ≡ vec_len intervals.old }
    ensures capacity { vec_capacity intervals.new ≡ vec_capacity intervals.old }
{
    let mut total = total_of(intervals.as_slice(), place);
    for index in place..intervals.len() {
        total += length_of(intervals[index].span);
        intervals[index].total = total;
    }
}

/// Counts the minutes of the first `count` intervals.
pub(crate) fn total_of(intervals: &[Interval], count: usize) -> u32
    requires within { count ≤ length intervals.now }
    requires summed { AreSummed count intervals.now }
    ensures { result ≡ lengths (take count (spans_in intervals.now)) }
{
    if count == 0 {
        0
    } else {
        intervals[count - 1].total
    }
}

/// Counts the minutes of the span.
fn length_of(span: Span) -> u32
    requires { span.from ≤ span.to }
    ensures value { result ≡ span.to - span.from }
    ensures in_range { span.to < 52_596_000 }
{
    span.to.number() - span.from.number()
}
