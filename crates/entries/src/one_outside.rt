//! One outside period, as its record and the records of its segments give it.
//! Through the program: `tests/answers.py`. Wrong bodies: `must-fail-more/`.

ghost use Rattle.std.specs.Prelude.{◌≡◌, ◌↔◌, ◌+◌, true, false, IsTrue, MatchResult};
ghost use Rattle.std.specs.Option.{option_copied};
ghost use Rattle.stored_json.specs.Instants.{is_instant, times_have_instants};
ghost use Rattle.entries.specs.OneOutside.{AreAllOf, AreTimesInTurn, HasBadTimes, HasNoSegmentOf, IsNumbered, IsOutsideToldBy, IsSegmentAmong, GiveNoOutside, times_in};
ghost use Rattle.entries.specs.Faults.{Blames};
ghost use Rattle.entries.specs.declared.fault.TableName.TheVariants as table_name;

use crate::fault::{LoadFault, TableName};
use duty::{BlockTimes, CrewId, Outside, OutsideId};
use roster::OutsideEntry;
use std::alloc::Global;
use tables::outside::OutsideRecord;
use tables::outside_segment::OutsideSegmentRecord;
use time117::Minute;
use values::{Text, TryClone};

/// One more than the most segments that an outside period may have.
const TOO_MANY_SEGMENTS: u32 = 13;

/// What is said of an outside period that its records don't give.
const UNFIT: LoadFault = LoadFault::Damaged(TableName::OutsideSegment);

/// Returns the instant of a number of minutes since 2000-01-01T00:00Z.
fn instant(number: u32) -> Result<Minute, LoadFault>
    ensures { MatchResult result (λ minute. (minute ≡ number) × (is_instant number ≡ true))
        (Blames table_name.OutsideSegment (is_instant number ≡ false)) }
{
    Minute::from_number(number).ok_or(UNFIT)
}

/// Returns block-out and block-in of a record.
fn times_of(row: &OutsideSegmentRecord) -> Result<BlockTimes, LoadFault>
    ensures { MatchResult result
        (λ times. (times ≡ times_in row.now) × (times_have_instants times ≡ true))
        (Blames table_name.OutsideSegment (times_have_instants (times_in row.now) ≡ false)) }
{
    let block_out = instant(row.out_at)?;
    let block_in = instant(row.in_at)?;
    Ok(BlockTimes {
        block_out,
        block_in,
    })
}

/// Returns the first record of this number.
fn segment_with_number<'a>(
    segments: &'a [OutsideSegmentRecord],
    number: u32,
) -> Option<&'a OutsideSegmentRecord>
    ensures { IsNumbered segments.now number (option_copied result) }
{
    for row in segments {
        if row.number == number {
            return Some(row);
        }
    }
    None
}

/// Returns the times of the records numbered 1, 2 and so on, up to the first number that no record has.
fn all_times(alloc: Global, segments: &[OutsideSegmentRecord]) -> Result<Vec<BlockTimes>, LoadFault>
    ensures { MatchResult result (λ all. AreTimesInTurn segments.now all.items)
        (Blames table_name.OutsideSegment (HasBadTimes segments.now)) }
{
    let mut all = Vec::new(alloc);
    for place in 0..TOO_MANY_SEGMENTS {
        let Some(row) = segment_with_number(segments, place + 1) else {
            return Ok(all);
        };
        let times = times_of(row)?;
        all.push(times)?;
    }
    Err(UNFIT)
}

/// Returns whether a record is that of one of the segments with these times, by its number.
fn is_among(id: &Text, all: &[BlockTimes], row: &OutsideSegmentRecord) -> bool
    ensures { IsTrue result ↔ IsSegmentAmong id.now all.now row.now }
{
    if row.outside != *id {
        return false;
    }
    let Some(place) = (row.number as usize).checked_sub(1) else {
        return false;
    };
    match all.get(place) {
        Some(times) => {
            times.block_out.number() == row.out_at && times.block_in.number() == row.in_at
        }
        None => false,
    }
}

/// Passes records that are all those of segments with these times.
fn check_all(
    id: &Text,
    all: &[BlockTimes],
    segments: &[OutsideSegmentRecord],
) -> Result<(), LoadFault>
    ensures { MatchResult result (λ _. AreAllOf id.now all.now segments.now)
        (Blames table_name.OutsideSegment (HasNoSegmentOf id.now all.now segments.now)) }
{
    for row in segments {
        if !is_among(id, all, row) {
            return Err(UNFIT);
        }
    }
    Ok(())
}

/// Makes the outside period that its record and the records of its segments give.
pub fn outside_of_records(
    alloc: Global,
    it: &OutsideRecord,
    segments: &[OutsideSegmentRecord],
) -> Result<OutsideEntry, LoadFault>
    ensures { MatchResult result (IsOutsideToldBy it.now segments.now)
        (Blames table_name.OutsideSegment (GiveNoOutside it.now segments.now)) }
{
    let report = instant(it.report_at)?;
    let release = instant(it.release_at)?;
    let all = all_times(alloc, segments)?;
    check_all(&it.id, &all, segments)?;
    let id = OutsideId::new(it.id.try_clone(alloc)?);
    let crew = CrewId::new(it.crew.try_clone(alloc)?);
    match Outside::new(id, report, release, all) {
        Ok(period) => Ok(OutsideEntry { crew, period }),
        Err(_) => Err(UNFIT),
    }
}
