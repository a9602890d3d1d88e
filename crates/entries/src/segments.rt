//! The records of the table `segment` by their keys.
//! Files with such a damage: `tests/tables.py`. Wrong bodies: `must-fail/` and `must-fail-more/`.

ghost use Rattle.std.specs.Prelude.{◌≡◌, ◌↔◌, length, map, IfOk, IsTrue, MatchResult};
ghost use Rattle.std.specs.FinMap as fin;
ghost use Rattle.tables.specs.Records.{segment_row};
ghost use Rattle.entries.specs.Keyed.{AreSegmentsWanting, AreSegmentsWhole, Follows, IsKeyedSegment, SegmentsRead, row_of_keyed_segment};
ghost use Rattle.entries.specs.PlanRows.{segment_name, HasNoGaps};
ghost use Rattle.entries.specs.Faults.{Blames};
ghost use Rattle.entries.specs.Mapping.{TellsOf, HasStranger};
ghost use Rattle.entries.specs.declared.fault.TableName.TheVariants as table_name;

use crate::fault::{LoadFault, TableName};
use crate::plan_rows::{PeriodKey, SegmentKey};
use duty::PairingId;
use std::alloc::Global;
use tables::period::PeriodRecord;
use tables::segment::SegmentRecord;
use values::{MemoryFault, OrdMap, TryClone};

#[tactic(auto, using(crate::proofs::KeyedSegments::no_period))]
/// Returns the key of a record that is of one of these periods.
fn key_of(
    alloc: Global,
    periods: &OrdMap<PeriodKey, PeriodRecord>,
    row: &SegmentRecord,
) -> Result<Option<SegmentKey>, MemoryFault>
    ensures { IfOk result (TellsOf (λ key it found. (found ≡ key) × (it ≡ row.now))
        row_of_keyed_segment (IsKeyedSegment periods.now) (segment_row row.now)) }
{
    let period = PeriodKey {
        pairing: PairingId::new(row.pairing.try_clone(alloc)?),
        number: row.period,
    };
    if !periods.contains(&period) {
        return Ok(None);
    }
    Ok(Some(SegmentKey {
        pairing: period.pairing,
        period: row.period,
        number: row.number,
    }))
}

/// Puts the records under their keys.
fn by_keys(
    alloc: Global,
    periods: &OrdMap<PeriodKey, PeriodRecord>,
    records: &[SegmentRecord],
) -> Result<OrdMap<SegmentKey, SegmentRecord>, LoadFault>
    ensures { MatchResult result (SegmentsRead periods.now records.now (length records.now))
        (Blames table_name.Segment (HasStranger row_of_keyed_segment (IsKeyedSegment periods.now)
        (map segment_row records.now))) }
{
    let mut segments = OrdMap::new(alloc);
    for row in records {
        let Some(key) = key_of(alloc, periods, row)? else {
            return Err(LoadFault::Damaged(TableName::Segment));
        };
        segments.insert(key, row.try_clone(alloc)?)?;
    }
    Ok(segments)
}

/// Returns whether a segment is the first of its period, or the one before it is there.
fn follows(
    alloc: Global,
    segments: &OrdMap<SegmentKey, SegmentRecord>,
    key: &SegmentKey,
) -> Result<bool, MemoryFault>
    ensures { IfOk result (λ yes. IsTrue yes ↔ Follows (λ number.
        fin.get segments.now (segment_name key.now.pairing key.now.period number)) key.now.number) }
{
    match key.number {
        0 => Ok(false),
        1 => Ok(true),
        number => {
            let before = SegmentKey {
                pairing: key.pairing.try_clone(alloc)?,
                period: key.period,
                number: number - 1,
            };
            Ok(segments.contains(&before))
        }
    }
}

/// Returns whether the segments of each period are numbered from 1 without a gap.
fn are_ungapped(
    alloc: Global,
    segments: &OrdMap<SegmentKey, SegmentRecord>,
) -> Result<bool, MemoryFault>
    ensures { IfOk result (λ yes. IsTrue yes ↔ HasNoGaps segments.now) }
{
    for (key, _) in segments.iter() {
        if !follows(alloc, segments, key)? {
            return Ok(false);
        }
    }
    Ok(true)
}

/// Puts the records under their keys, numbered without a gap.
pub fn all_by_keys(
    alloc: Global,
    periods: &OrdMap<PeriodKey, PeriodRecord>,
    records: &[SegmentRecord],
) -> Result<OrdMap<SegmentKey, SegmentRecord>, LoadFault>
    ensures { MatchResult result (AreSegmentsWhole periods.now records.now (length records.now))
        (Blames table_name.Segment
        (AreSegmentsWanting periods.now records.now (length records.now))) }
{
    let segments = by_keys(alloc, periods, records)?;
    if !are_ungapped(alloc, &segments)? {
        return Err(LoadFault::Damaged(TableName::Segment));
    }
    Ok(segments)
}
