//! Flight duty periods (14 CFR 117.3), planned or flown. A `Pairing` has those whose times are in order. Wrong bodies: `must-fail-more/`.
ghost use Rattle.std.specs.Prelude.{◌≡◌, ◌≤◌, ◌⊎◌, length, map, Ok, Err, IfOk, IfErr};
ghost use Rattle.std.specs.List.{zip};
ghost use Rattle.duty.specs.Pairings.{is_in_order, block_times, fdp_with_actual};
ghost use Rattle.duty.specs.Plans.{flown_at, retimed};
ghost use Rattle.duty.specs.declared.fault.DutyFault.TheVariants.{Memory};

use crate::actual::Actual;
use crate::checks::are_in_order;
use crate::fault::DutyFault;
use crate::segment::{BlockTimes, Segment};
use std::alloc::Global;
use time117::Minute;
use values::{LawfulEq, MemoryFault, Sequence, TryClone};

/// A flight duty period (117.3), which runs from its report to the last block-in; duty goes on to
/// its release. It may hold any times, in any order, and any number of segments.
#[derive(PartialEq, Eq, Drop)]
pub struct Fdp {
    /// The report that Tables A and B are entered with, also where the period was flown at other
    /// times.
    pub planned_report: Minute,
    pub report: Minute,
    pub release: Minute,
    pub segments: Sequence<Segment>,
}

impl Fdp {
    /// Makes a period as it is planned.
    pub fn new(report: Minute, release: Minute, segments: Sequence<Segment>) -> Fdp
        ensures { result ≡ record
            { planned_report = report; report = report; release = release; segments = segments } }
    {
        Fdp {
            planned_report: report,
            report,
            release,
            segments,
        }
    }

    /// Returns whether the report is at or before the first block-out, each block-out before its block-in, each
    /// block-in at or before the next block-out, and the last block-in at or before the release.
    pub fn is_in_order(&self) -> bool
        ensures { result
            ≡ is_in_order self.now.report self.now.release (map block_times self.now.segments) }
    {
        are_in_order(self.report, self.release, self.segments.as_slice())
    }

    /// Gives a copy of this period the times when it was flown; the planned report stays. Where the numbers of segments
    /// differ it is refused, with the actual's period.
    pub fn with_actual(&self, alloc: Global, actual: &Actual) -> Result<Fdp, DutyFault>
        ensures value { IfOk result (λ f. fdp_with_actual self.now actual.now ≡ Ok f) }
        ensures refused { IfErr result
            (λ fault. (fault ≡ Memory) ⊎ (fdp_with_actual self.now actual.now ≡ Err fault)) }
    {
        if self.segments.as_slice().len() != actual.segments().len() {
            return Err(DutyFault::SegmentCount(actual.period()));
        }
        Ok(self.with_times_flown(alloc, actual)?)
    }

    /// Gives a copy of this period the times when it was flown, segment by segment as far as both have segments; the
    /// planned report stays.
    pub fn with_times_flown(&self, alloc: Global, actual: &Actual) -> Result<Fdp, MemoryFault>
        ensures { IfOk result (λ f. f ≡ flown_at self.now actual.now) }
    {
        let flown = retime(alloc, self.segments.as_slice(), actual.segments())?;
        Ok(Fdp {
            planned_report: self.planned_report,
            report: actual.report(),
            release: actual.release(),
            segments: Sequence::new(flown),
        })
    }
}

/// Copies each segment with the times when it was flown.
fn retime(
    alloc: Global,
    segments: &[Segment],
    times: &[BlockTimes],
) -> Result<Vec<Segment>, MemoryFault>
    ensures { IfOk result (λ flown. flown.items ≡ map retimed (zip segments.now times.now)) }
{
    let mut flown = Vec::new(alloc);
    for (segment, times) in segments.iter().zip(times) {
        flown.push(segment.retime(alloc, *times)?)?;
    }
    Ok(flown)
}

impl TryClone for Fdp {
    fn try_clone(&self, alloc: Global) -> Result<Fdp, MemoryFault> {
        Ok(Fdp {
            planned_report: self.planned_report,
            report: self.report,
            release: self.release,
            segments: self.segments.try_clone(alloc)?,
        })
    }
}

impl LawfulEq for Fdp {
    ghost use Rattle.std.specs.Prelude.{refl};
    ghost use Rattle.std.proofs.lemmas.Bool.Decides.{Decides-eqb};
    ghost use Rattle.std.proofs.lemmas.Slice.Eq.{slice_eq-Decides};
    ghost use Rattle.values.specs.Same.{both_same, parts_same};
    ghost use Rattle.duty.specs.contracts.segment.SegmentLawfulEq.TheImpl.Laws.{exact-law};

    ghost exact = { λ a b. parts_same
        (λ f. (f.planned_report, (f.report, (f.release, f.segments))))
        (λ p.
        record { planned_report = p.0; report = p.1.0; release = p.1.1.0; segments = p.1.1.1 })
        (λ _. refl) a b _
        (both_same _ _ (Decides-eqb a.planned_report b.planned_report)
        (both_same _ _ (Decides-eqb a.report b.report)
        (both_same _ _ (Decides-eqb a.release b.release)
        (slice_eq-Decides exact-law a.segments b.segments _ refl)))) };
}
