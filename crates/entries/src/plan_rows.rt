//! The rows of the tables `period` and `segment`, by their keys.

ghost use Rattle.std.specs.Prelude.{◌≡◌, IfOk};
ghost use Rattle.std.specs.FinMap as fin;
ghost use Rattle.std.specs.Option.{option_copied};
ghost use Rattle.entries.specs.PlanRows.{period_name, segment_name};

use duty::PairingId;
use std::alloc::Global;
use tables::period::PeriodRecord;
use tables::segment::SegmentRecord;
use values::{MemoryFault, OrdKey, OrdMap, TryClone};

/// What a row of `period` is known by: the pairing, and the period's number in it from 1.
#[derive(PartialEq, Eq, PartialOrd, Ord, Drop)]
pub struct PeriodKey {
    pub pairing: PairingId,
    pub number: u32,
}

/// What a row of `segment` is known by: the pairing, the number of the period, and the segment's in that from 1.
#[derive(PartialEq, Eq, PartialOrd, Ord, Drop)]
pub struct SegmentKey {
    pub pairing: PairingId,
    pub period: u32,
    pub number: u32,
}

impl OrdKey for PeriodKey {
    ghost use Rattle.entries.specs.PlanRows.{period_name};
    ghost use Rattle.entries.specs.PlanOrder.{periods_order};

    ghost name = { λ key. period_name key.pairing key.number };

    ghost same_order = { periods_order };
}

impl OrdKey for SegmentKey {
    ghost use Rattle.entries.specs.PlanRows.{segment_name};
    ghost use Rattle.entries.specs.PlanOrder.{segments_order};

    ghost name = { λ key. segment_name key.pairing key.period key.number };

    ghost same_order = { segments_order };
}

/// The rows of both tables.
#[derive(Drop)]
pub struct PlanRows {
    pub periods: OrdMap<PeriodKey, PeriodRecord>,
    pub segments: OrdMap<SegmentKey, SegmentRecord>,
}

impl PlanRows {
    /// Finds the row of a period, if there is one.
    pub(crate) fn period(
        &self,
        alloc: Global,
        pairing: &PairingId,
        number: u32,
    ) -> Result<Option<&PeriodRecord>, MemoryFault>
        ensures { IfOk result (λ found.
            option_copied found ≡ fin.get self.now.periods (period_name pairing.now number)) }
    {
        let key = PeriodKey {
            pairing: pairing.try_clone(alloc)?,
            number,
        };
        Ok(self.periods.get(&key))
    }

    /// Finds the row of a segment, if there is one.
    pub(crate) fn segment(
        &self,
        alloc: Global,
        pairing: &PairingId,
        period: u32,
        number: u32,
    ) -> Result<Option<&SegmentRecord>, MemoryFault>
        ensures { IfOk result (λ found. option_copied found
            ≡ fin.get self.now.segments (segment_name pairing.now period number)) }
    {
        let key = SegmentKey {
            pairing: pairing.try_clone(alloc)?,
            period,
            number,
        };
        Ok(self.segments.get(&key))
    }
}
