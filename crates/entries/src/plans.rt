//! A pairing, as the rows of its periods and segments give it.
//! Periods and segments that are damaged: `tests/tables.py`. Wrong bodies: `must-fail/` and `must-fail-more/`.

ghost use Rattle.std.specs.Prelude.{◌≡◌, ◌≤◌, ℕ, map, true, false, slice_get, IfOk, MatchResult, Option, Some, None};
ghost use Rattle.duty.specs.declared.segment.BlockTimes as declared_times;
ghost use Rattle.duty.specs.declared.fdp.Fdp as declared_fdp;
ghost use Rattle.duty.specs.declared.segment.Segment as declared_segment;
ghost use Rattle.stored_json.specs.Instants.{is_instant};
ghost use Rattle.duty.specs.Plans.{ActualTimes};
ghost use Rattle.roster.specs.declared.state.PairingEntry as declared_rostered;
ghost use Rattle.entries.specs.PlanRows.{AreTimes, planned_segment, IsSegment, HasNoGaps, AreUngapped, AreSegments, HasNoSegments, IsActualOf, IsReadPeriod, ArePeriodsRead, HasNoPeriods, IsPairingOfRows};
ghost use Rattle.entries.specs.Faults.{Blames};
ghost use Rattle.entries.specs.declared.fault.TableName.TheVariants as table_name;

use crate::fault::{LoadFault, TableName};
use crate::plan_rows::PlanRows;
use duty::{Actual, Airport, BlockTimes, Fdp, Flight, Pairing, PairingId, Segment};
use roster::PairingEntry;
use std::alloc::Global;
use tables::period::PeriodRecord;
use tables::segment::SegmentRecord;
use time117::Minute;
use values::{MemoryFault, Sequence, TryClone};

/// What a row of `segment` gives: the segment as it is planned, and its times where it is flown.
#[derive(Drop)]
struct ReadSegment {
    segment: Segment,
    flown: Option<BlockTimes>,
}

/// The segments of a period in turn, as they are planned, and the times of each where it is flown.
#[derive(Drop)]
struct ReadSegments {
    planned: Vec<Segment>,
    flown: Vec<Option<BlockTimes>>,
}

/// What a row of `period` gives with those of its segments: the period as it is planned, and its actual where it is flown.
#[derive(Drop)]
struct ReadPeriod {
    planned: Fdp,
    actual: Option<Actual>,
}

/// The periods of a pairing in turn, as they are planned, and the actual of each where it is flown.
#[derive(Drop)]
struct ReadPeriods {
    planned: Vec<Fdp>,
    actuals: Vec<Option<Actual>>,
}

/// The most periods that a pairing may have.
const MOST_PERIODS: u32 = 10;

/// One more than the most segments that a period may have.
const TOO_MANY_SEGMENTS: u32 = 13;

/// What is said of a pairing that its rows don't give.
const UNFIT: LoadFault = LoadFault::Damaged(TableName::Segment);

/// Returns the instant of a number of minutes since 2000-01-01T00:00Z.
fn instant(number: u32) -> Result<Minute, LoadFault>
    ensures { MatchResult result (λ minute. (minute ≡ number) × (is_instant number ≡ true))
        (Blames table_name.Segment (is_instant number ≡ false)) }
{
    Minute::from_number(number).ok_or(UNFIT)
}

/// Returns two times, or none of either.
fn times_if_any(
    first: Option<u32>,
    second: Option<u32>,
) -> Result<Option<(Minute, Minute)>, LoadFault>
    ensures { MatchResult result (AreTimes first second)
        (Blames table_name.Segment ((times : Option (ℕ × ℕ)) → AreTimes first second times → ⊥)) }
{
    match (first, second) {
        (None, None) => Ok(None),
        (Some(first), Some(second)) => {
            let first = instant(first)?;
            let second = instant(second)?;
            Ok(Some((first, second)))
        }
        _ => Err(UNFIT),
    }
}

/// Makes the segment of a row at these times.
fn planned_segment(
    alloc: Global,
    row: &SegmentRecord,
    times: BlockTimes,
) -> Result<Segment, MemoryFault>
    requires out { times.block_out ≡ row.now.out_at }
    requires back { times.block_in ≡ row.now.in_at }
    ensures { IfOk result (λ segment. segment ≡ planned_segment row.now) }
{
    Ok(Segment {
        flight: Flight::new(row.flight.try_clone(alloc)?),
        from: Airport::new(row.origin.try_clone(alloc)?),
        block_out: times.block_out,
        to: Airport::new(row.destination.try_clone(alloc)?),
        block_in: times.block_in,
    })
}

/// Reads what a row says of a segment.
fn segment_of(alloc: Global, row: &SegmentRecord) -> Result<ReadSegment, LoadFault>
    ensures { MatchResult result (λ it. IsSegment row.now it.segment it.flown)
        (Blames table_name.Segment ((segment : declared_segment.Segment)
        (flown : Option declared_times.BlockTimes) → IsSegment row.now segment flown → ⊥)) }
{
    let block_out = instant(row.out_at)?;
    let block_in = instant(row.in_at)?;
    let flown = match times_if_any(row.act_out, row.act_in)? {
        Some((block_out, block_in)) => Some(BlockTimes {
            block_out,
            block_in,
        }),
        None => None,
    };
    let times = BlockTimes {
        block_out,
        block_in,
    };
    let segment = planned_segment(alloc, row, times)?;
    Ok(ReadSegment { segment, flown })
}

/// Reads what the rows say of the segments of a period, by its number.
#[tactic(auto, using(crate::proofs::PlanLemmas::no_segment, crate::proofs::PlanLemmas::segments_done))]
fn segments_of(
    alloc: Global,
    rows: &PlanRows,
    id: &PairingId,
    period: u32,
) -> Result<ReadSegments, LoadFault>
    ensures { MatchResult result
        (λ found. AreSegments rows.now.segments id.now period found.planned.items found.flown.items)
        (Blames table_name.Segment (HasNoSegments rows.now.segments id.now period)) }
{
    let mut planned = Vec::new(alloc);
    let mut flown = Vec::new(alloc);
    for place in 0..TOO_MANY_SEGMENTS {
        let Some(row) = rows.segment(alloc, id, period, place + 1)? else {
            return Ok(ReadSegments { planned, flown });
        };
        let ReadSegment {
            segment,
            flown: times,
        } = segment_of(alloc, row)?;
        planned.push(segment)?;
        flown.push(times)?;
    }
    Err(UNFIT)
}

/// Collects the times of all segments, where each has them.
fn all_times(alloc: Global, flown: &[Option<BlockTimes>]) -> Result<Vec<BlockTimes>, LoadFault>
    ensures { MatchResult result (λ all. flown.now ≡ map Some all.items)
        (Blames table_name.Segment ((i : ℕ) × (slice_get flown.now i ≡ Some None))) }
{
    let mut all = Vec::new(alloc);
    for times in flown {
        let Some(times) = times else {
            return Err(UNFIT);
        };
        all.push(*times)?;
    }
    Ok(all)
}

/// Makes the actual of a period, by its number, with its times and those of its segments.
#[tactic(auto, using(crate::proofs::PlanLemmas::none_flown, crate::proofs::PlanLemmas::some_flown, crate::proofs::PlanLemmas::not_all_flown, crate::proofs::PlanLemmas::is_actual))]
fn actual_of(
    alloc: Global,
    number: u8,
    times: Option<(Minute, Minute)>,
    flown: &[Option<BlockTimes>],
) -> Result<Option<Actual>, LoadFault>
    requires low { 1 ≤ number }
    requires high { number ≤ 10 }
    ensures { MatchResult result (IsActualOf number times flown.now) (Blames table_name.Segment
        ((actual : Option ActualTimes) → IsActualOf number times flown.now actual → ⊥)) }
{
    let Some((report, release)) = times else {
        if flown.iter().any(|times| times.is_some()) {
            return Err(UNFIT);
        }
        return Ok(None);
    };
    let all = all_times(alloc, flown)?;
    match Actual::new(number, report, release, all) {
        Ok(actual) => Ok(Some(actual)),
        Err(_) => Err(UNFIT),
    }
}

/// Reads what the rows say of a period, by its number.
fn period_of(
    alloc: Global,
    rows: &PlanRows,
    id: &PairingId,
    number: u32,
    row: &PeriodRecord,
) -> Result<ReadPeriod, LoadFault>
    requires low { 1 ≤ number }
    requires high { number ≤ 10 }
    requires whole { HasNoGaps rows.now.segments }
    ensures { MatchResult result
        (λ it. IsReadPeriod rows.now.segments id.now number row.now it.planned it.actual)
        (Blames table_name.Segment ((fdp : declared_fdp.Fdp) (actual : Option ActualTimes)
        → IsReadPeriod rows.now.segments id.now number row.now fdp actual → ⊥)) }
{
    let report = instant(row.report_at)?;
    let release = instant(row.release_at)?;
    let times = times_if_any(row.act_report, row.act_release)?;
    let found = segments_of(alloc, rows, id, number)?;
    let actual = actual_of(alloc, number as u8, times, &found.flown)?;
    Ok(ReadPeriod {
        planned: Fdp::new(report, release, Sequence::new(found.planned)),
        actual,
    })
}

/// Reads what the rows say of the periods of a pairing.
#[tactic(auto, using(crate::proofs::PlanLemmas::no_period, crate::proofs::PlanLemmas::periods_done))]
fn periods_of(alloc: Global, rows: &PlanRows, id: &PairingId) -> Result<ReadPeriods, LoadFault>
    requires whole { HasNoGaps rows.now.segments }
    ensures { MatchResult result (λ found. ArePeriodsRead rows.now.periods rows.now.segments id.now
        found.planned.items found.actuals.items)
        (Blames table_name.Segment (HasNoPeriods rows.now.periods rows.now.segments id.now)) }
{
    let mut planned = Vec::new(alloc);
    let mut actuals = Vec::new(alloc);
    for place in 0..MOST_PERIODS {
        let Some(row) = rows.period(alloc, id, place + 1)? else {
            return Ok(ReadPeriods { planned, actuals });
        };
        let ReadPeriod {
            planned: period,
            actual,
        } = period_of(alloc, rows, id, place + 1, row)?;
        planned.push(period)?;
        actuals.push(actual)?;
    }
    match rows.period(alloc, id, MOST_PERIODS + 1)? {
        Some(_) => Err(UNFIT),
        None => Ok(ReadPeriods { planned, actuals }),
    }
}

/// Makes the pairing that the rows give under an id; no seat is held.
pub fn pairing_of(alloc: Global, rows: &PlanRows, id: &PairingId) -> Result<PairingEntry, LoadFault>
    requires periods { AreUngapped rows.now.periods }
    requires segments { HasNoGaps rows.now.segments }
    ensures told { MatchResult result (IsPairingOfRows rows.now.periods rows.now.segments id.now)
        (Blames table_name.Segment ((r : declared_rostered.PairingEntry)
        → IsPairingOfRows rows.now.periods rows.now.segments id.now r → ⊥)) }
    ensures free { IfOk result (λ r. (r.captain ≡ None) × (r.first_officer ≡ None)) }
{
    let found = periods_of(alloc, rows, id)?;
    match Pairing::new(id.try_clone(alloc)?, found.planned) {
        Ok(plan) => Ok(PairingEntry {
            plan,
            actuals: Sequence::new(found.actuals),
            captain: None,
            first_officer: None,
        }),
        Err(_) => Err(UNFIT),
    }
}
