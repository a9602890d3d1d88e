//! What a history of duties counts, and where it has time free of duty.

use crate::fault::Fault;
use duty::{DutyInForce, FdpInForce, History, Kind, Span};
use std::alloc::Global;
use std::test::Fail;
use time117::Minute;

/// The minute of that number.
fn minute(number: u32) -> Minute {
    Minute::from_number(number).unwrap_or(Minute::FIRST)
}

/// A flight duty period of these flights.
fn period(
    alloc: Global,
    report: u32,
    flights: &[(u32, u32)],
    release: u32,
) -> Result<DutyInForce, Fault> {
    let mut segments = Vec::new(alloc);
    for (out, into) in flights {
        segments.push(Span {
            from: minute(*out),
            to: minute(*into),
        })?;
    }
    Ok(DutyInForce::Fdp(FdpInForce::new(Some(0), minute(report), minute(release), segments)))
}

/// A flight duty period in minutes: report, flights and release.
type Flown = (u32, &'static [(u32, u32)], u32);

/// Five periods of June 2025, of which the last begins inside the one before it.
const JUNE: [Flown; 5] = [
    (
        13_375_440,
        &[(13_375_500, 13_375_620), (13_375_980, 13_376_160)],
        13_376_160,
    ),
    (
        13_376_880,
        &[(13_376_940, 13_377_060), (13_377_420, 13_377_600)],
        13_377_600,
    ),
    (
        13_378_320,
        &[(13_378_380, 13_378_500), (13_378_860, 13_379_070)],
        13_379_070,
    ),
    (13_381_140, &[(13_381_860, 13_382_340)], 13_382_370),
    (13_382_310, &[(13_382_370, 13_382_550)], 13_382_580),
];

/// Their history.
fn june(alloc: Global) -> Result<History, Fault> {
    let mut history = History::empty(alloc);
    for &(report, flights, release) in &JUNE {
        history.add(period(alloc, report, flights, release)?)?;
    }
    Ok(history)
}

/// Adds how many duties it has, and how many minutes of flight, of flight duty and of duty in the week before 12 June.
fn add_counts(alloc: Global, history: &History, text: &mut String) -> Result<(), Fault> {
    let (from, to) = (13_373_280, 13_383_360);
    let flight = history.flight_minutes(from, to);
    let flight_duty = history.fdp_minutes(from, to);
    let duty = history.duty_minutes(from, to);
    let duties = history.duties().len();
    text.push_str(&format!(in alloc; "{duties} {flight} {flight_duty} {duty}")?)?;
    Ok(())
}

/// Adds the same, of all its minutes, where each kind has its own list of them.
fn add_totals(alloc: Global, history: &History, text: &mut String) -> Result<(), Fault> {
    let flight = history.intervals(Kind::Flight).total();
    let flight_duty = history.intervals(Kind::FlightDuty).total();
    let duty = history.intervals(Kind::Duty).total();
    text.push_str(&format!(in alloc; ", {flight} {flight_duty} {duty},")?)?;
    Ok(())
}

/// Where the runs of minutes of their flight duty periods begin and end. The last run is that of two periods, from
/// 2025-06-10T11:00Z to 2025-06-11T10:30Z.
const RUNS: [(u64, u64); 4] = [
    (13_375_440, 13_376_160),
    (13_376_880, 13_377_600),
    (13_378_320, 13_379_070),
    (13_381_140, 13_382_550),
];

/// Adds how many minutes of flight duty there are before each run, and up to its end.
fn add_runs(alloc: Global, history: &History, text: &mut String) -> Result<(), Fault> {
    for &(from, to) in &RUNS {
        let before = history.minutes_before(Kind::FlightDuty, from, from);
        let up_to_end = history.minutes_before(Kind::FlightDuty, to, to);
        text.push_str(&format!(in alloc; " {before}-{up_to_end}")?)?;
    }
    Ok(())
}

fn add_all(alloc: Global, history: &History, text: &mut String) -> Result<(), Fault> {
    add_counts(alloc, history, text)?;
    add_totals(alloc, history, text)?;
    add_runs(alloc, history, text)
}

/// All that is counted of the history of June.
fn counted(alloc: Global) -> Result<String, Fault> {
    let history = june(alloc)?;
    let mut text = String::new(alloc);
    let done = add_all(alloc, &history, &mut text);
    drop(history);
    done?;
    Ok(text)
}

#[test]
fn counts_its_minutes_once(rt: HostRuntime) -> Result<(), Fail> {
    assert_eq!(rt;
        counted(rt.alloc())?.as_str(),
        "5 1590 3600 3630, 1590 3600 3630, 0-720 720-1440 1440-2190 2190-3600"
    );
    Ok(())
}

#[test]
fn looks_for_free_runs(rt: HostRuntime) -> Result<(), Fail> {
    let history = june(rt.alloc())?;
    let report = 13_382_310;
    assert!(rt; history.free_run(report - 10_080, report, 3_210));
    assert!(rt; !history.free_run(report - 10_080, report, 3_211));
    Ok(())
}
