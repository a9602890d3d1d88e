//! Segments: one flight each, from block-out to block-in (14 CFR 1.1), and the times at which it was flown.
//! Wrong bodies: `must-fail-more/`.
ghost use Rattle.std.specs.Prelude.{◌≡◌, ◌≤◌, ◌-◌, length, map, IfOk};
ghost use Rattle.std.specs.List.{sum_by};
ghost use Rattle.duty.specs.DutiesInForce.{span_between};
ghost use Rattle.duty.specs.Minutes.{last_in};
ghost use Rattle.duty.specs.Pairings.{has_shapes};
ghost use Rattle.duty.specs.Plans.{retimed};

use crate::id::{Airport, Flight};
use crate::span::Span;
use std::alloc::Global;
use time117::Minute;
use values::{LawfulEq, MemoryFault, TryClone};

/// One flight of a flight duty period, from block-out to block-in.
#[derive(PartialEq, Eq)]
pub struct Segment {
    pub flight: Flight,
    pub from: Airport,
    pub block_out: Minute,
    pub to: Airport,
    pub block_in: Minute,
}

// (by hand, as that of a duty is)
impl Drop for Segment {
    fn drop(self) {
        let Segment {
            flight: _,
            from: _,
            block_out: _,
            to: _,
            block_in: _,
        } = self;
    }
}

impl Segment {
    /// Returns whether the flight and both airports have their shapes.
    pub fn has_shapes(&self) -> bool
        ensures { result ≡ has_shapes self.now }
    {
        self.flight.has_shape() && self.from.has_shape() && self.to.has_shape()
    }

    /// Copies the segment with other times.
    pub fn retime(&self, alloc: Global, times: BlockTimes) -> Result<Segment, MemoryFault>
        ensures { IfOk result (λ s. s ≡ retimed (self.now, times)) }
    {
        Ok(Segment {
            flight: self.flight.try_clone(alloc)?,
            from: self.from.try_clone(alloc)?,
            block_out: times.block_out,
            to: self.to.try_clone(alloc)?,
            block_in: times.block_in,
        })
    }
}

impl TryClone for Segment {
    fn try_clone(&self, alloc: Global) -> Result<Segment, MemoryFault> {
        self.retime(alloc, self.times())
    }
}

impl LawfulEq for Segment {
    ghost use Rattle.std.specs.Prelude.{refl};
    ghost use Rattle.std.proofs.lemmas.Bool.Decides.{Decides-eqb};
    ghost use Rattle.std.proofs.lemmas.Slice.Eq.{bytes_eq-Decides};
    ghost use Rattle.values.specs.Same.{both_same, parts_same};

    ghost exact = { λ a b. parts_same
        (λ s. (s.flight, (s.from, (s.block_out, (s.to, s.block_in)))))
        (λ p. record
        { flight = p.0; from = p.1.0; block_out = p.1.1.0; to = p.1.1.1.0; block_in = p.1.1.1.1 })
        (λ _. refl) a b _
        (both_same _ _ (bytes_eq-Decides a.flight b.flight)
        (both_same _ _ (bytes_eq-Decides a.from b.from)
        (both_same _ _ (Decides-eqb a.block_out b.block_out)
        (both_same _ _ (bytes_eq-Decides a.to b.to) (Decides-eqb a.block_in b.block_in))))) };
}

/// What has the times of a segment.
pub trait Timed: Drop {
    ghost use Rattle.std.specs.Prelude.{◌≡◌};
    ghost use Rattle.duty.specs.declared.segment.BlockTimes.{BlockTimes};

    ghost times: { Self → BlockTimes };

    /// Returns the times.
    fn times(&self) -> BlockTimes
        ensures { result ≡ times self.now };
}

impl Timed for Segment {
    ghost use Rattle.duty.specs.Pairings.{block_times};

    ghost times = { block_times };

    fn times(&self) -> BlockTimes {
        BlockTimes {
            block_out: self.block_out,
            block_in: self.block_in,
        }
    }
}

impl Timed for BlockTimes {
    ghost times = { λ times. times };

    fn times(&self) -> BlockTimes {
        *self
    }
}

impl Timed for Span {
    ghost times = { λ span. record { block_out = span.from; block_in = span.to } };

    fn times(&self) -> BlockTimes {
        BlockTimes {
            block_out: self.from,
            block_in: self.to,
        }
    }
}

/// Returns the last block-in, or the report where there is no segment.
pub fn last_block_in<S: Timed>(report: Minute, segments: &[S]) -> Minute
    ensures { result ≡ last_in report (map (λ s. span_between (S.times s)) segments.now) }
{
    match segments.last() {
        Some(segment) => segment.times().block_in,
        None => report,
    }
}

/// Counts the minutes of the segments' flight time, from block-out to block-in of each (14 CFR 1.1).
pub fn flight_minutes<S: Timed>(segments: &[S]) -> u32
    requires { length segments.now ≤ 12 }
    ensures { result
        ≡ sum_by (λ s. (S.times s).block_in - (S.times s).block_out) segments.now }
{
    let mut minutes = 0;
    for segment in segments {
        minutes += segment.times().minutes();
    }
    minutes
}

/// Block-out and block-in of a segment (14 CFR 1.1, flight time), as planned or as flown.
#[derive(Clone, Copy, Debug, PartialEq, Eq)]
pub struct BlockTimes {
    pub block_out: Minute,
    pub block_in: Minute,
}

impl BlockTimes {
    /// Counts the minutes from block-out to block-in, or 0 where that is before block-out.
    fn minutes(self) -> u32
        ensures value { result ≡ self.block_in - self.block_out }
        ensures in_range { result ≤ 52_596_000 }
    {
        self.block_in
            .number()
            .saturating_sub(self.block_out.number())
    }
}

impl TryClone for BlockTimes {
    fn try_clone(&self, _alloc: Global) -> Result<BlockTimes, MemoryFault> {
        Ok(*self)
    }
}

impl LawfulEq for BlockTimes {
    ghost use Rattle.std.specs.Prelude.{refl};
    ghost use Rattle.std.proofs.lemmas.Bool.Decides.{Decides-eqb};
    ghost use Rattle.values.specs.Same.{both_same, parts_same};

    ghost exact = { λ a b. parts_same
        (λ t. (t.block_out, t.block_in))
        (λ p. record { block_out = p.0; block_in = p.1 })
        (λ _. refl) a b _
        (both_same _ _ (Decides-eqb a.block_out b.block_out) (Decides-eqb a.block_in b.block_in)) };
}
