//! What the constructors test, in the order of the faults: shapes, counts, times and chains.
//! Worked rows: `tests/answers.py`. Wrong bodies: `must-fail/` and `must-fail-more/`.
ghost use Rattle.std.specs.Prelude.{◌≡◌, ◌≤◌, ◌++◌, length, map, take, IfOk};
ghost use Rattle.std.specs.List.{list_all};
ghost use Rattle.duty.specs.Pairings as spec;
ghost use Rattle.duty.specs.Plans.{Plan};
ghost use Rattle.duty.specs.Words.{each_next, last_of, checked};

use crate::fault::{DutyFault, Field};
use crate::fdp::Fdp;
use crate::id::PairingId;
use crate::segment::{BlockTimes, Segment, Timed};
use time117::Minute;

/// Returns whether the report is at or before the first block-out, each block-out before its
/// block-in, each block-in at or before the next block-out, and the last block-in at or before the
/// release.
pub fn are_in_order<S: Timed>(report: Minute, release: Minute, segments: &[S]) -> bool
    ensures { result ≡ spec.is_in_order report release (map S.times segments.now) }
{
    are_within(report, release, segments) && are_in_turn(segments)
}

fn are_within<S: Timed>(report: Minute, release: Minute, segments: &[S]) -> bool
    ensures { result ≡ list_all (spec.is_within_duty report release) (map S.times segments.now) }
{
    segments
        .iter()
        .all(|segment| is_within_duty(report, release, segment.times()))
}

fn is_within_duty(report: Minute, release: Minute, times: BlockTimes) -> bool
    ensures { result ≡ spec.is_within_duty report release times }
{
    report <= times.block_out && times.block_out < times.block_in && times.block_in <= release
}

fn are_in_turn<S: Timed>(segments: &[S]) -> bool
    ensures { result ≡ each_next spec.is_before (map S.times segments.now) }
{
    segments
        .iter()
        .zip(segments.iter().skip(1))
        .all(|(segment, next)| is_before(segment.times(), next.times()))
}

fn is_before(times: BlockTimes, next: BlockTimes) -> bool
    ensures { result ≡ spec.is_before times next }
{
    times.block_in <= next.block_out
}

/// Looks for the first fault of a pairing: shapes, then counts, then orders of times, then the
/// chain of airports, each over all periods.
#[tactic(auto, unfolding(crate::specs::Pairings::pairing_fault))]
pub fn check_pairing(id: &PairingId, periods: &[Fdp]) -> Result<(), DutyFault>
    ensures { let plan : Plan = record { id = id.now; periods = periods.now } in
        result ≡ checked (spec.pairing_fault plan) tt }
{
    if !id.has_shape() {
        return Err(DutyFault::BadField(Field::Pairing));
    }
    if !have_shapes(periods) {
        return Err(DutyFault::BadField(Field::Periods));
    }
    check_counts(periods)?;
    check_times(periods)?;
    check_chain(periods)
}

/// Returns whether a period may have this many segments.
pub fn is_segment_count(segments: usize) -> bool
    ensures { result ≡ spec.is_segment_count segments }
{
    (1..=12).contains(&segments)
}

fn have_shapes(periods: &[Fdp]) -> bool
    ensures { result ≡ list_all spec.are_shaped periods.now }
{
    periods
        .iter()
        .all(|period| are_shaped(period.segments.as_slice()))
}

fn are_shaped(segments: &[Segment]) -> bool
    ensures { result ≡ list_all spec.has_shapes segments.now }
{
    segments.iter().all(|segment| segment.has_shapes())
}

/// Checks that there are 1 to 10 periods, each of 1 to 12 segments.
#[tactic(auto, unfolding(crate::specs::Pairings::count_fault))]
fn check_counts(periods: &[Fdp]) -> Result<(), DutyFault>
    ensures fault { result ≡ checked (spec.count_fault periods.now) tt }
    ensures few { IfOk result (λ _. length periods.now ≤ 10) }
{
    if !(1..=10).contains(&periods.len()) {
        return Err(DutyFault::SegmentCount(0));
    }
    for (index, period) in periods.iter().enumerate() {
        if !is_segment_count(period.segments.as_slice().len()) {
            return Err(DutyFault::SegmentCount(index as u8 + 1));
        }
    }
    Ok(())
}

/// Checks that each period is in order, and reports at or after the release of the one before it.
#[tactic(auto, unfolding(crate::specs::Pairings::times_fault))]
fn check_times(periods: &[Fdp]) -> Result<(), DutyFault>
    requires { length periods.now ≤ 10 }
    ensures { result ≡ checked (spec.times_fault periods.now) tt }
{
    let mut released = Minute::FIRST;
    for (index, period) in periods.iter().enumerate() {
        if period.report < released || !period.is_in_order() {
            return Err(DutyFault::BadTimes(index as u8 + 1));
        }
        released = period.release;
    }
    Ok(())
}

/// Checks that each segment but the first departs from where the one before it arrived.
#[tactic(auto, unfolding(crate::specs::Pairings::chain_fault))]
fn check_chain(periods: &[Fdp]) -> Result<(), DutyFault>
    requires { length periods.now ≤ 10 }
    ensures { result ≡ checked (spec.chain_fault periods.now) tt }
{
    let mut before: &[Segment] = &[];
    for (index, period) in periods.iter().enumerate() {
        let segments = period.segments.as_slice();
        if !is_chained(before, segments) {
            return Err(DutyFault::BadChain(index as u8 + 1));
        }
        before = segments;
    }
    Ok(())
}

/// Returns whether each segment departs from where the one before it arrived, the first of them
/// from where the last of `before` did.
fn is_chained(before: &[Segment], segments: &[Segment]) -> bool
    ensures { result ≡ each_next spec.connects (last_of before.now ++ segments.now) }
{
    is_joined(before, segments) && are_joined(segments)
}

/// Returns whether the first of the segments departs from where the last of those before them
/// arrived.
fn is_joined(before: &[Segment], segments: &[Segment]) -> bool
    ensures { result ≡ each_next spec.connects (last_of before.now ++ take 1 segments.now) }
{
    match (before.last(), segments.first()) {
        (Some(last), Some(first)) => last.to == first.from,
        _ => true,
    }
}

/// Returns whether each segment but the first departs from where the one before it arrived.
fn are_joined(segments: &[Segment]) -> bool
    ensures { result ≡ each_next spec.connects segments.now }
{
    segments
        .iter()
        .zip(segments.iter().skip(1))
        .all(|(segment, next)| segment.to == next.from)
}
