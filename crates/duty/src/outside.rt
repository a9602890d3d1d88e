//! Flying for another certificate holder (14 CFR 117.23(a)), of which the office learns as a fact.
//! On values: `src/outside.rt` of `call_tests`. Wrong bodies: `must-fail-more/`.
ghost use Rattle.std.specs.Prelude.{◌≡◌};
ghost use Rattle.duty.specs.Pairings.{outside_fault};
ghost use Rattle.duty.specs.Plans.{OutsidePlan};
ghost use Rattle.duty.specs.Words.{checked};

use crate::checks::{are_in_order, is_segment_count};
use crate::fault::{DutyFault, Field};
use crate::id::OutsideId;
use crate::segment::BlockTimes;
use std::alloc::Global;
use std::marker::Model;
use time117::Minute;
use values::{LawfulEq, MemoryFault, Sequence, TryClone};

/// A flight duty period that a crew member flies for another certificate holder (14 CFR 117.23(a)): 1 to 12 segments,
/// whose times are in order.
#[derive(PartialEq, Eq, Drop)]
pub struct Outside {
    id: OutsideId,
    report: Minute,
    release: Minute,
    segments: Sequence<BlockTimes>,
}

impl Model for Outside {
    ghost use Rattle.std.specs.Prelude.{◌≡◌, None};
    ghost use Rattle.duty.specs.Plans.{OutsidePlan};
    ghost use Rattle.duty.specs.Pairings.{outside_fault};

    ghost Value = { OutsidePlan };

    ghost view = { λ o. record
        { id = o.id; report = o.report; release = o.release; segments = o.segments } };

    ghost invariant = { λ o.
        outside_fault
        (record { id = o.id; report = o.report; release = o.release; segments = o.segments })
        ≡ None };

    ghost inverse = { λ o. record
        { id = o.id; report = o.report; release = o.release; segments = o.segments } };
}

impl Outside {
    /// Makes an outside period of these. Of several faults the first comes: an id outside its shape, then a number of
    /// segments out of range, then times out of order.
    #[tactic(auto, unfolding(crate::specs::Pairings::outside_fault))]
    pub fn new(
        id: OutsideId,
        report: Minute,
        release: Minute,
        segments: Vec<BlockTimes>,
    ) -> Result<Outside, DutyFault>
        ensures { let o : OutsidePlan = record
            { id = id; report = report; release = release; segments = segments.items } in
            result ≡ checked (outside_fault o) o }
    {
        if !id.has_shape() {
            return Err(DutyFault::BadField(Field::Outside));
        }
        if !is_segment_count(segments.len()) {
            return Err(DutyFault::SegmentCount(0));
        }
        if !are_in_order(report, release, &segments) {
            return Err(DutyFault::BadTimes(0));
        }
        Ok(Outside {
            id,
            report,
            release,
            segments: Sequence::new(segments),
        })
    }

    /// Returns the id.
    pub fn id(&self) -> &OutsideId
        ensures id { result.now ≡ self.now.id }
        ensures sound { outside_fault self.now ≡ None }
    {
        &self.id
    }

    /// Returns the report.
    pub fn report(&self) -> Minute
        ensures { result ≡ self.now.report }
    {
        self.report
    }

    /// Returns the release.
    pub fn release(&self) -> Minute
        ensures { result ≡ self.now.release }
    {
        self.release
    }

    /// Returns block-out and block-in of each segment, in their order.
    pub fn segments(&self) -> &[BlockTimes]
        ensures { result.now ≡ self.now.segments }
    {
        self.segments.as_slice()
    }
}

impl TryClone for Outside {
    fn try_clone(&self, alloc: Global) -> Result<Outside, MemoryFault> {
        Ok(Outside {
            id: self.id.try_clone(alloc)?,
            report: self.report,
            release: self.release,
            segments: self.segments.try_clone(alloc)?,
        })
    }
}

impl LawfulEq for Outside {
    ghost use Rattle.std.specs.Prelude.{refl};
    ghost use Rattle.std.proofs.lemmas.Bool.Decides.{Decides-eqb};
    ghost use Rattle.std.proofs.lemmas.Slice.Eq.{bytes_eq-Decides, slice_eq-Decides};
    ghost use Rattle.values.specs.Same.{both_same, parts_same};
    ghost use Rattle.duty.specs.contracts.segment.BlockTimesLawfulEq.TheImpl.Laws.{exact-law};

    ghost exact = { λ a b. parts_same
        (λ o. (o.id, (o.report, (o.release, o.segments))))
        (λ p. record { id = p.0; report = p.1.0; release = p.1.1.0; segments = p.1.1.1 })
        (λ _. refl) a b _
        (both_same _ _ (bytes_eq-Decides a.id b.id)
        (both_same _ _ (Decides-eqb a.report b.report)
        (both_same _ _ (Decides-eqb a.release b.release)
        (slice_eq-Decides exact-law a.segments b.segments _ refl)))) };
}
