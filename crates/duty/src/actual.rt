//! Actual times: how a period of a pairing was really flown.
//! Worked rows: `tests/answers.py`. Wrong bodies: `must-fail-more/`.
ghost use Rattle.std.specs.Prelude.{◌≡◌, ◌≤◌};
ghost use Rattle.duty.specs.Pairings.{actual_fault};
ghost use Rattle.duty.specs.Plans.{ActualTimes};
ghost use Rattle.duty.specs.Words.{checked};

use crate::checks::{are_in_order, is_segment_count};
use crate::fault::DutyFault;
use crate::segment::BlockTimes;
use std::alloc::Global;
use std::marker::Model;
use time117::Minute;
use values::{LawfulEq, MemoryFault, Sequence, TryClone};

/// How one period of a pairing was really flown: 1 to 12 segments, whose times are in order.
#[derive(PartialEq, Eq, Drop)]
pub struct Actual {
    period: u8,
    report: Minute,
    release: Minute,
    segments: Sequence<BlockTimes>,
}

impl Model for Actual {
    ghost use Rattle.std.specs.Prelude.{◌≡◌, ◌≤◌, None};
    ghost use Rattle.duty.specs.Plans.{ActualTimes};
    ghost use Rattle.duty.specs.Pairings.{actual_fault};

    ghost Value = { ActualTimes };

    ghost view = { λ a. record
        { period = a.period; report = a.report; release = a.release; segments = a.segments } };

    ghost invariant = { λ a. (1 ≤ a.period) × (a.period ≤ 10) × (actual_fault
        (record
        { period = a.period; report = a.report; release = a.release; segments = a.segments })
        ≡ None) };

    ghost inverse = { λ a. record
        { period = a.period; report = a.report; release = a.release; segments = a.segments } };
}

impl Actual {
    /// Makes the actual times of a period, by its number from 1 to 10. A number of segments out of
    /// range comes before times out of order.
    #[tactic(auto, unfolding(crate::specs::Pairings::actual_fault))]
    pub fn new(
        period: u8,
        report: Minute,
        release: Minute,
        segments: Vec<BlockTimes>,
    ) -> Result<Actual, DutyFault>
        requires low { 1 ≤ period }
        requires high { period ≤ 10 }
        ensures { let a : ActualTimes = record
            { period = period; report = report; release = release; segments = segments.items } in
            result ≡ checked (actual_fault a) a }
    {
        if !is_segment_count(segments.len()) {
            return Err(DutyFault::SegmentCount(period));
        }
        if !are_in_order(report, release, &segments) {
            return Err(DutyFault::BadTimes(period));
        }
        Ok(Actual {
            period,
            report,
            release,
            segments: Sequence::new(segments),
        })
    }

    /// Returns the number of the period in its pairing, from 1.
    pub fn period(&self) -> u8
        ensures period { result ≡ self.now.period }
        ensures low { 1 ≤ result }
        ensures high { result ≤ 10 }
        ensures sound { actual_fault self.now ≡ None }
    {
        self.period
    }

    /// Returns the report.
    pub fn report(&self) -> Minute
        ensures { result ≡ self.now.report }
    {
        self.report
    }

    /// Returns the release.
    pub fn release(&self) -> Minute
        ensures { result ≡ self.now.release }
    {
        self.release
    }

    /// Returns block-out and block-in of each segment, in their order.
    pub fn segments(&self) -> &[BlockTimes]
        ensures { result.now ≡ self.now.segments }
    {
        self.segments.as_slice()
    }
}

impl TryClone for Actual {
    fn try_clone(&self, alloc: Global) -> Result<Actual, MemoryFault> {
        Ok(Actual {
            period: self.period,
            report: self.report,
            release: self.release,
            segments: self.segments.try_clone(alloc)?,
        })
    }
}

impl LawfulEq for Actual {
    ghost use Rattle.std.specs.Prelude.{refl};
    ghost use Rattle.std.proofs.lemmas.Bool.Decides.{Decides-eqb};
    ghost use Rattle.std.proofs.lemmas.Slice.Eq.{slice_eq-Decides};
    ghost use Rattle.values.specs.Same.{both_same, parts_same};
    ghost use Rattle.duty.specs.contracts.segment.BlockTimesLawfulEq.TheImpl.Laws.{exact-law};

    ghost exact = { λ a b. parts_same
        (λ t. (t.period, (t.report, (t.release, t.segments))))
        (λ p. record { period = p.0; report = p.1.0; release = p.1.1.0; segments = p.1.1.1 })
        (λ _. refl) a b _
        (both_same _ _ (Decides-eqb a.period b.period)
        (both_same _ _ (Decides-eqb a.report b.report)
        (both_same _ _ (Decides-eqb a.release b.release)
        (slice_eq-Decides exact-law a.segments b.segments _ refl)))) };
}
