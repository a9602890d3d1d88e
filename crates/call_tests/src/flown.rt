//! What no run of the program shows of `duty`: that with ample memory a period is given the times at which it was flown, and is refused
//! those of another number of segments.

use crate::fault::Fault;
use crate::requests::{LATE, P1, P2};
use command::{Command, Instruction};
use duty::{Actual, BlockTimes, Fdp, Segment};
use std::alloc::Global;
use std::test::Fail;
use stored_json::read_canonical;

/// Whether segments have these times, each its own, and there are as many of both.
fn have_times(segments: &[Segment], times: &[BlockTimes]) -> bool {
    for (segment, times) in segments.iter().zip(times) {
        if segment.block_out != times.block_out || segment.block_in != times.block_in {
            return false;
        }
    }
    segments.len() == times.len()
}

/// Whether a period has the times of an actual, and the planned report of another period.
fn is_flown_so(flown: &Fdp, planned: &Fdp, actual: &Actual) -> bool {
    flown.planned_report == planned.report
        && flown.report == actual.report()
        && flown.release == actual.release()
        && have_times(flown.segments.as_slice(), actual.segments())
}

/// How a period takes the times of an actual.
fn outcome_of(alloc: Global, period: &Fdp, actual: &Actual) -> Result<String, Fault> {
    match period.with_actual(alloc, actual) {
        Ok(flown) if is_flown_so(&flown, period, actual) => Ok(String::from_str(alloc, "flown")?),
        Ok(_) => Err(Fault::Otherwise),
        Err(fault) => Ok(format!(in alloc; "{fault}")?),
    }
}

/// How the first period of a command that adds a pairing takes the times of one that records an actual.
fn text_of(alloc: Global, adding: &Command, recording: &Command) -> Result<String, Fault> {
    let (Instruction::AddPairing(pairing), Instruction::Actual(_, actual)) = (
        adding.instruction(),
        recording.instruction(),
    ) else {
        return Err(Fault::Unmade);
    };
    match pairing.periods().first() {
        Some(period) => outcome_of(alloc, period, actual),
        None => Err(Fault::Unmade),
    }
}

/// The same, of the text that is kept of the second command.
fn record(alloc: Global, adding: &Command, recording: &str) -> Result<String, Fault> {
    let recording = read_canonical(alloc, recording)?;
    let text = text_of(alloc, adding, &recording);
    drop(recording);
    text
}

/// The same, of the texts that are kept of both.
fn record_flown(alloc: Global, adding: &str, recording: &str) -> Result<String, Fault> {
    let adding = read_canonical(alloc, adding)?;
    let text = record(alloc, &adding, recording);
    drop(adding);
    text
}

#[test]
fn a_period_is_flown(rt: HostRuntime) -> Result<(), Fail> {
    assert_eq!(rt; record_flown(rt.alloc(), P1, LATE)?.as_str(), "flown");
    Ok(())
}

#[test]
fn another_number_of_segments_is_refused(rt: HostRuntime) -> Result<(), Fail> {
    assert_eq!(rt;
        record_flown(rt.alloc(), P2, LATE)?.as_str(),
        "19 SegmentCount 1"
    );
    Ok(())
}
