//! One pairing, as the records of its periods and segments give it.
//! Through the program: `tests/answers.py`.

ghost use Rattle.std.specs.Prelude.{◌≡◌, IfErr, IfOk, None};
ghost use Rattle.entries.specs.OnePairing.{IsToldBy, RefusesPairing};

use crate::fault::LoadFault;
use crate::plan_rows::PlanRows;
use crate::plans::pairing_of;
use crate::{periods, segments};
use duty::PairingId;
use roster::PairingEntry;
use std::alloc::Global;
use tables::period::PeriodRecord;
use tables::segment::SegmentRecord;
use values::{OrdMap, TryClone};

/// Makes the pairing that the records of its periods and segments give under an id; no seat is
/// held.
pub fn pairing_of_records(
    alloc: Global,
    id: &PairingId,
    periods: &[PeriodRecord],
    segments: &[SegmentRecord],
) -> Result<PairingEntry, LoadFault>
    ensures told { IfOk result (IsToldBy id.now periods.now segments.now) }
    ensures untold { IfErr result (RefusesPairing id.now periods.now segments.now) }
    ensures free { IfOk result (λ r. (r.captain ≡ None) × (r.first_officer ≡ None)) }
{
    let mut ids = OrdMap::new(alloc);
    ids.insert(id.try_clone(alloc)?, ())?;
    let periods = periods::all_by_keys(alloc, &ids, periods)?;
    let segments = segments::all_by_keys(alloc, &periods, segments)?;
    pairing_of(alloc, &PlanRows { periods, segments }, id)
}
