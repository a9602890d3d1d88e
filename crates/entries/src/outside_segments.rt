//! The records of the table `outside_segment` by their keys, and the outside periods that they say with those of
//! `outside`.
//! Files with such a damage: `tests/tables.py`. Wrong bodies: `must-fail-more/`.

ghost use Rattle.std.specs.Prelude.{◌≡◌, ◌↔◌, length, map, IfOk, IsTrue, MatchResult};
ghost use Rattle.std.specs.FinMap as fin;
ghost use Rattle.tables.specs.Records.{outside_segment_row};
ghost use Rattle.entries.specs.Keyed.{Follows};
ghost use Rattle.entries.specs.OutsideRows.{AreSegmentsOf, AreOutsideSegmentsWanting, AreOutsideSegmentsWhole, HasNoOutsideGaps, HasTooMany, HasUnmade, IsKeyedOutsideSegment, IsMadeFrom, SaysNoOutside, OutsidesMade, OutsideSegmentsRead, outside_segment_name, row_of_keyed_outside_segment};
ghost use Rattle.entries.specs.Faults.{Blames};
ghost use Rattle.entries.specs.Mapping.{HasStranger, TellsOf};
ghost use Rattle.entries.specs.declared.fault.TableName.TheVariants as table_name;

use crate::fault::{LoadFault, TableName};
use crate::one_outside::outside_of_records;
use crate::outside_rows::{OutsideSegmentKey, segment_at};
use duty::OutsideId;
use roster::OutsideEntry;
use std::alloc::Global;
use tables::outside::OutsideRecord;
use tables::outside_segment::OutsideSegmentRecord;
use values::{MemoryFault, OrdMap, TryClone};

/// One more than the most segments that an outside period may have.
const TOO_MANY_SEGMENTS: u32 = 13;

/// Returns the key of a record that is of one of these outside periods.
#[tactic(auto, using(crate::proofs::KeyedOutsideSegments::no_outside))]
fn key_of(
    alloc: Global,
    outsides: &OrdMap<OutsideId, OutsideRecord>,
    row: &OutsideSegmentRecord,
) -> Result<Option<OutsideSegmentKey>, MemoryFault>
    ensures { IfOk result (TellsOf (λ key it found. (found ≡ key) × (it ≡ row.now))
        row_of_keyed_outside_segment (IsKeyedOutsideSegment outsides.now)
        (outside_segment_row row.now)) }
{
    let outside = OutsideId::new(row.outside.try_clone(alloc)?);
    let number = row.number;
    if !outsides.contains(&outside) {
        return Ok(None);
    }
    Ok(Some(OutsideSegmentKey { outside, number }))
}

/// Puts the records under their keys.
fn by_keys(
    alloc: Global,
    outsides: &OrdMap<OutsideId, OutsideRecord>,
    records: &[OutsideSegmentRecord],
) -> Result<OrdMap<OutsideSegmentKey, OutsideSegmentRecord>, LoadFault>
    ensures { MatchResult result (OutsideSegmentsRead outsides.now records.now (length records.now))
        (Blames table_name.OutsideSegment (HasStranger row_of_keyed_outside_segment
        (IsKeyedOutsideSegment outsides.now) (map outside_segment_row records.now))) }
{
    let mut segments = OrdMap::new(alloc);
    for row in records {
        let Some(key) = key_of(alloc, outsides, row)? else {
            return Err(LoadFault::Damaged(TableName::OutsideSegment));
        };
        segments.insert(key, row.try_clone(alloc)?)?;
    }
    Ok(segments)
}

/// Returns whether a segment is the first of its outside period, or the one before it is there.
fn follows(
    alloc: Global,
    segments: &OrdMap<OutsideSegmentKey, OutsideSegmentRecord>,
    key: &OutsideSegmentKey,
) -> Result<bool, MemoryFault>
    ensures { IfOk result (λ yes. IsTrue yes ↔ Follows (λ number.
        fin.get segments.now (outside_segment_name key.now.outside number)) key.now.number) }
{
    match key.number {
        0 => Ok(false),
        1 => Ok(true),
        number => {
            let before = OutsideSegmentKey {
                outside: key.outside.try_clone(alloc)?,
                number: number - 1,
            };
            Ok(segments.contains(&before))
        }
    }
}

/// Returns whether the segments of each outside period are numbered from 1 without a gap.
fn are_ungapped(
    alloc: Global,
    segments: &OrdMap<OutsideSegmentKey, OutsideSegmentRecord>,
) -> Result<bool, MemoryFault>
    ensures { IfOk result (λ yes. IsTrue yes ↔ HasNoOutsideGaps segments.now) }
{
    for (key, _) in segments.iter() {
        if !follows(alloc, segments, key)? {
            return Ok(false);
        }
    }
    Ok(true)
}

/// Puts the records under their keys, numbered without a gap.
pub fn all_by_keys(
    alloc: Global,
    outsides: &OrdMap<OutsideId, OutsideRecord>,
    records: &[OutsideSegmentRecord],
) -> Result<OrdMap<OutsideSegmentKey, OutsideSegmentRecord>, LoadFault>
    ensures { MatchResult result (AreOutsideSegmentsWhole outsides.now records.now)
        (Blames table_name.OutsideSegment (AreOutsideSegmentsWanting outsides.now records.now)) }
{
    let segments = by_keys(alloc, outsides, records)?;
    if !are_ungapped(alloc, &segments)? {
        return Err(LoadFault::Damaged(TableName::OutsideSegment));
    }
    Ok(segments)
}

/// Collects the records of the segments of an outside period, which are 12 at most.
fn segments_of(
    alloc: Global,
    segments: &OrdMap<OutsideSegmentKey, OutsideSegmentRecord>,
    outside: &OutsideId,
) -> Result<Vec<OutsideSegmentRecord>, LoadFault>
    requires { HasNoOutsideGaps segments.now }
    ensures { MatchResult result (λ its. AreSegmentsOf segments.now outside.now its.items)
        (Blames table_name.OutsideSegment (HasTooMany segments.now outside.now)) }
{
    let mut its = Vec::new(alloc);
    for place in 0..TOO_MANY_SEGMENTS {
        let Some(row) = segment_at(alloc, segments, outside, place + 1)? else {
            return Ok(its);
        };
        its.push(row.try_clone(alloc)?)?;
    }
    Err(LoadFault::Damaged(TableName::OutsideSegment))
}

/// Makes the outside period that its record and those of its segments give.
fn outside_of(
    alloc: Global,
    segments: &OrdMap<OutsideSegmentKey, OutsideSegmentRecord>,
    id: &OutsideId,
    it: &OutsideRecord,
) -> Result<OutsideEntry, LoadFault>
    requires { HasNoOutsideGaps segments.now }
    ensures { MatchResult result (IsMadeFrom segments.now id.now it.now)
        (Blames table_name.OutsideSegment (SaysNoOutside segments.now id.now it.now)) }
{
    let its = segments_of(alloc, segments, id)?;
    outside_of_records(alloc, it, &its)
}

/// Makes the outside periods that their records and those of their segments give.
pub fn make_all(
    alloc: Global,
    outsides: &OrdMap<OutsideId, OutsideRecord>,
    segments: &OrdMap<OutsideSegmentKey, OutsideSegmentRecord>,
) -> Result<OrdMap<OutsideId, OutsideEntry>, LoadFault>
    requires { HasNoOutsideGaps segments.now }
    ensures { MatchResult result (OutsidesMade outsides.now segments.now)
        (Blames table_name.OutsideSegment (HasUnmade outsides.now segments.now)) }
{
    let mut made = OrdMap::new(alloc);
    for (id, it) in outsides.iter() {
        let entry = outside_of(alloc, segments, id, it)?;
        made.insert(id.try_clone(alloc)?, entry)?;
    }
    Ok(made)
}
