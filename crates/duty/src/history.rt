//! The duties of a crew member, with their minutes in order of time.
//! A history's minutes and free runs: `src/histories.rt` of `call_tests`; new duties in one, beside a slow count: `tests/judgement.py`.
//! Wrong bodies: `must-fail-more/`.
ghost use Rattle.std.specs.Prelude.{◌≡◌, ◌<◌, ◌≤◌, ◌-◌, ◌++◌, ◌∷◌, [], IfOk, OnOk, OnErr, pos, negsuc, ◌-ℤ◌, ◌≤ℤ◌, unsigned_abs, IsFalse, IsTrue, ◌⊎◌, ◌↔◌};
ghost use Rattle.std.specs.List.{flat_map};
ghost use Rattle.duty.specs.Minutes.{count, minutes_in, spans_of, Meets, HasFreeRun, Overlap};
ghost use Rattle.duty.specs.declared.kind.Kind.TheVariants.{Flight, FlightDuty, Duty};
ghost use Rattle.duty.specs.Indexes.{HasMinutes};
ghost use Rattle.duty.specs.Overlaps.{overlaps as do_overlap};

use super::duty_in_force::DutyInForce;
use super::intervals::Intervals;
use super::kind::Kind;
use super::merging::Spans;
use super::span::Span;
use std::alloc::Global;
use std::marker::Model;
use values::{MemoryFault, TryClone, copies_of};

/// The duties of a crew member in force, in the order in which they were added. They may overlap. Beside them stand their
/// minutes of each kind, in order and each minute once.
pub struct History {
    duties: Vec<DutyInForce>,
    flying: Intervals,
    flight_duty: Intervals,
    on_duty: Intervals,
}

// (by hand, as that of a duty is)
impl Drop for History {
    fn drop(self) {
        let History {
            duties: _,
            flying: _,
            flight_duty: _,
            on_duty: _,
        } = self;
    }
}

impl Model for History {
    ghost use Rattle.std.specs.Prelude.{List};
    ghost use Rattle.duty.specs.declared.duty_in_force.DutyInForce.{DutyInForce};
    ghost use Rattle.duty.specs.Indexes.{AreIndexes};

    ghost Value = { List DutyInForce };

    ghost view = { λ h. h.duties.items };

    ghost invariant = { λ h.
        AreIndexes h.duties.items h.flying.spans h.flight_duty.spans h.on_duty.spans };
}

impl History {
    /// Makes a history of no duties.
    pub fn empty(alloc: Global) -> Self
        ensures { result ≡ [] }
    {
        History {
            duties: Vec::new(alloc),
            flying: Intervals::empty(alloc),
            flight_duty: Intervals::empty(alloc),
            on_duty: Intervals::empty(alloc),
        }
    }

    /// Makes a history of these duties, in this order. Their minutes are sorted once, so that it takes about as long in
    /// any order.
    pub fn of(alloc: Global, duties: Vec<DutyInForce>) -> Result<Self, MemoryFault>
        ensures { IfOk result (λ history. history ≡ duties.items) }
    {
        let flying = minutes_held(alloc, Kind::Flight, duties.as_slice())?;
        let flight_duty = minutes_held(alloc, Kind::FlightDuty, duties.as_slice())?;
        let on_duty = minutes_held(alloc, Kind::Duty, duties.as_slice())?;
        Ok(History {
            duties,
            flying,
            flight_duty,
            on_duty,
        })
    }

    /// Adds the duty last.
    pub fn add(&mut self, duty: DutyInForce) -> Result<(), MemoryFault>
        ensures ok { OnOk result (self.new ≡ self.old ++ duty ∷ []) }
        ensures err { OnErr result (self.new ≡ self.old) }
    {
        self.duties.reserve(1)?;
        self.flying.reserve(duty.span_count(Kind::Flight))?;
        self.flight_duty.reserve(duty.span_count(Kind::FlightDuty))?;
        self.on_duty.reserve(duty.span_count(Kind::Duty))?;
        self.flying.add_all(&duty.spans(Kind::Flight));
        self.flight_duty.add_all(&duty.spans(Kind::FlightDuty));
        self.on_duty.add_all(&duty.spans(Kind::Duty));
        self.duties.push(duty)?;
        Ok(())
    }

    /// Adds the duties of another history after these.
    pub fn append(&mut self, alloc: Global, other: &History) -> Result<(), MemoryFault>
        ensures ok { OnOk result (self.new ≡ self.old ++ other.now) }
        ensures err { OnErr result (self.new ≡ self.old) }
    {
        let mut copies = copies_of(alloc, other.duties())?;
        self.duties.reserve(copies.len())?;
        self.flying.reserve(other.flying.count())?;
        self.flight_duty.reserve(other.flight_duty.count())?;
        self.on_duty.reserve(other.on_duty.count())?;
        self.flying.add_all(&other.flying);
        self.flight_duty.add_all(&other.flight_duty);
        self.on_duty.add_all(&other.on_duty);
        self.duties.append(&mut copies)?;
        Ok(())
    }

    /// Returns the duties in their order.
    pub fn duties(&self) -> &[DutyInForce]
        ensures { result.now ≡ self.now }
    {
        self.duties.as_slice()
    }

    /// Returns the minutes of that kind.
    pub fn intervals(&self, kind: Kind) -> &Intervals
        ensures { HasMinutes result.now.spans kind self.now }
    {
        match kind {
            Kind::Flight => &self.flying,
            Kind::FlightDuty => &self.flight_duty,
            Kind::Duty => &self.on_duty,
        }
    }

    /// Counts the minutes of that kind among the `width` before `end`, a number of minutes since 2000-01-01T00:00Z. A
    /// minute counts once, however many duties hold it. The minutes may begin before the year 2000.
    pub fn minutes_before(&self, kind: Kind, end: u64, width: u64) -> u64
        ensures { result ≡ count (minutes_in kind self.now) (pos end -ℤ pos width) width }
    {
        self.intervals(kind).minutes_before(end, width)
    }

    /// Returns whether some of the `width` minutes before `end` is of that kind.
    pub fn meets(&self, kind: Kind, end: u64, width: u64) -> bool
        ensures { IsTrue result ↔ Meets (minutes_in kind self.now) (pos end -ℤ pos width) width }
    {
        self.intervals(kind).meets(end, width)
    }

    /// Returns whether some `length` minutes in a row, all of them among the `width` minutes before `end`, hold none of
    /// that kind. `end` is a number of minutes since 2000-01-01T00:00Z; the minutes may begin before the year 2000.
    pub fn has_free_run(&self, kind: Kind, end: u64, width: u64, length: u64) -> bool
        requires { 0 < length }
        ensures { IsTrue result
            ↔ HasFreeRun (minutes_in kind self.now) (pos end -ℤ pos width) width length }
    {
        self.intervals(kind).has_free_run(end, width, length)
    }

    /// Counts the flight minutes from `from` up to, and without, `to`. Minutes before the year 2000 are negative.
    pub fn flight_minutes(&self, from: i64, to: i64) -> u64
        requires order { from ≤ℤ to }
        requires begin { negsuc 99_999_999 ≤ℤ from }
        requires end { to ≤ℤ pos 100_000_000 }
        ensures { result ≡ count (minutes_in Flight self.now) from (unsigned_abs (to -ℤ from)) }
    {
        self.flying.minutes_between(from, to)
    }

    /// Counts the minutes of a flight duty period from `from` up to, and without, `to`.
    pub fn fdp_minutes(&self, from: i64, to: i64) -> u64
        requires order { from ≤ℤ to }
        requires begin { negsuc 99_999_999 ≤ℤ from }
        requires end { to ≤ℤ pos 100_000_000 }
        ensures { result ≡ count (minutes_in FlightDuty self.now) from (unsigned_abs (to -ℤ from)) }
    {
        self.flight_duty.minutes_between(from, to)
    }

    /// Counts the duty minutes from `from` up to, and without, `to`.
    pub fn duty_minutes(&self, from: i64, to: i64) -> u64
        requires order { from ≤ℤ to }
        requires begin { negsuc 99_999_999 ≤ℤ from }
        requires end { to ≤ℤ pos 100_000_000 }
        ensures { result ≡ count (minutes_in Duty self.now) from (unsigned_abs (to -ℤ from)) }
    {
        self.on_duty.minutes_between(from, to)
    }

    /// Returns whether some `length` minutes in a row, all of them from `from` up to, and without, `to`, hold no duty
    /// minute.
    pub fn free_run(&self, from: i64, to: i64, length: u32) -> bool
        requires order { from ≤ℤ to }
        requires begin { negsuc 99_999_999 ≤ℤ from }
        requires end { to ≤ℤ pos 100_000_000 }
        requires length { 0 < length }
        ensures { IsTrue result
            ↔ HasFreeRun (minutes_in Duty self.now) from (unsigned_abs (to -ℤ from)) length }
    {
        self.on_duty.free_run(from, to, length)
    }

    /// Returns whether some minute is a duty minute of both. A duty that holds no minute overlaps nothing.
    pub fn overlaps(&self, other: &History) -> bool
        ensures test { result ≡ do_overlap self.now other.now }
        ensures minute { IsTrue result ↔ Overlap self.now other.now }
    {
        self.on_duty.shares(&other.on_duty)
    }
}

/// Collects the minutes of that kind that the duties hold.
fn minutes_held(alloc: Global, kind: Kind, duties: &[DutyInForce]) -> Result<Intervals, MemoryFault>
    ensures { IfOk result (λ minutes. HasMinutes minutes.spans kind duties.now) }
{
    let mut spans = spans_held(alloc, kind, duties)?;
    spans.sort_unstable_by_key(|span| span.from);
    Intervals::of(alloc, &spans)
}

/// Collects the spans of that kind, duty after duty.
fn spans_held(alloc: Global, kind: Kind, duties: &[DutyInForce]) -> Result<Vec<Span>, MemoryFault>
    ensures { IfOk result (λ spans. spans.items ≡ flat_map (spans_of kind) duties.now) }
{
    let mut spans = Vec::new(alloc);
    for duty in duties {
        duty.append_spans(kind, &mut spans)?;
    }
    Ok(spans)
}

impl TryClone for History {
    fn try_clone(&self, alloc: Global) -> Result<History, MemoryFault> {
        Ok(History {
            duties: copies_of(alloc, self.duties())?,
            flying: self.flying.try_clone(alloc)?,
            flight_duty: self.flight_duty.try_clone(alloc)?,
            on_duty: self.on_duty.try_clone(alloc)?,
        })
    }
}
