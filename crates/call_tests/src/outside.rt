//! Periods that are flown for another certificate holder: which are refused, that one is equal to its copy, and which
//! limits are broken where one is new or stands before a new period. What is expected was worked by hand.

use crate::fault::Fault;
use duty::{
    BlockTimes, Duty, DutyFault, DutyInForce, FdpInForce, History, Outside, OutsideId, Span,
};
use limits::judge;
use std::alloc::Global;
use std::test::Fail;
use time117::{Minute, Zone};
use values::{Text, TryClone};

/// A period in minutes: report, flights and release.
type Flown = (u32, &'static [(u32, u32)], u32);

/// 2025-06-10T11:00Z to 20:00Z, with a flight from 12:00Z to 19:30Z.
const TENTH_OF_JUNE: Flown = (13_381_140, &[(13_381_200, 13_381_650)], 13_381_680);

/// 2025-06-11T05:59Z, and 06:00Z, to 09:30Z, with a flight from 07:00Z to 09:00Z.
const EARLY: Flown = (13_382_279, &[(13_382_340, 13_382_460)], 13_382_490);

const RESTED: Flown = (13_382_280, &[(13_382_340, 13_382_460)], 13_382_490);

/// 12:00Z to 24:00Z, with flights from 13:00Z to 15:00Z and from 21:00Z to 24:00Z, on 9, 10, 12, 13 and 14 June 2025.
const SIXTY_HOURS: [Flown; 5] = [
    (
        13_379_760,
        &[(13_379_820, 13_379_940), (13_380_300, 13_380_480)],
        13_380_480,
    ),
    (
        13_381_200,
        &[(13_381_260, 13_381_380), (13_381_740, 13_381_920)],
        13_381_920,
    ),
    (
        13_384_080,
        &[(13_384_140, 13_384_260), (13_384_620, 13_384_800)],
        13_384_800,
    ),
    (
        13_385_520,
        &[(13_385_580, 13_385_700), (13_386_060, 13_386_240)],
        13_386_240,
    ),
    (
        13_386_960,
        &[(13_387_020, 13_387_140), (13_387_500, 13_387_680)],
        13_387_680,
    ),
];

/// 2025-06-11T12:00Z to 12:01Z, all of it flight.
const ONE_MINUTE: Flown = (13_382_640, &[(13_382_640, 13_382_641)], 13_382_641);

/// 15:30 from report to the last block-in, and 14:30 of flight time: 2025-06-10T04:00Z to 20:00Z, with a flight from
/// 05:00Z to 19:30Z.
const LONG: Flown = (13_380_720, &[(13_380_780, 13_381_650)], 13_381_680);

/// The minute of that number.
fn minute(number: u32) -> Minute {
    Minute::from_number(number).unwrap_or(Minute::FIRST)
}

/// Tries to make an outside period.
fn outside(
    alloc: Global,
    id: &str,
    (report, flights, release): Flown,
) -> Result<Result<Outside, DutyFault>, Fault> {
    let mut segments = Vec::new(alloc);
    for (out, into) in flights {
        segments.push(BlockTimes {
            block_out: minute(*out),
            block_in: minute(*into),
        })?;
    }
    let id = OutsideId::new(Text::new(String::from_str(alloc, id)?));
    Ok(Outside::new(id, minute(report), minute(release), segments))
}

/// The id of an outside period, its report and its release.
fn name_of(alloc: Global, period: &Outside) -> Result<String, Fault> {
    let (id, report, release) = (period.id().as_str(), period.report(), period.release());
    Ok(format!(in alloc; "{id} {} {}", report.number(), release.number())?)
}

/// What the copy of an outside period is named, which is equal to it.
fn name_of_copy(alloc: Global, period: &Outside) -> Result<String, Fault> {
    let copy = period.try_clone(alloc)?;
    if copy == *period {
        name_of(alloc, &copy)
    } else {
        Err(Fault::Otherwise)
    }
}

/// How an outside period is refused, or what its copy is named.
fn fault_or_name(alloc: Global, id: &str, flown: Flown) -> Result<String, Fault> {
    match outside(alloc, id, flown)? {
        Ok(period) => {
            let name = name_of_copy(alloc, &period);
            drop(period);
            name
        }
        Err(fault) => Ok(format!(in alloc; "{fault}")?),
    }
}

/// An outside period with its times in force in a zone.
fn outside_in_force(alloc: Global, flown: Flown, zone: &Zone) -> Result<DutyInForce, Fault> {
    match outside(alloc, "X1", flown)? {
        Ok(period) => Ok(Duty::Outside(period).in_force(alloc, zone)?),
        Err(_) => Err(Fault::Unmade),
    }
}

/// An outside period with its times in force.
fn flown_outside(alloc: Global, flown: Flown) -> Result<DutyInForce, Fault> {
    let Ok(zone) = Zone::read(alloc, "UTC0") else {
        return Err(Fault::Unmade);
    };
    outside_in_force(alloc, flown, &zone)
}

/// A period of this airline, which reports at midnight of its zone.
fn plan_of(alloc: Global, (report, flights, release): Flown) -> Result<DutyInForce, Fault> {
    let mut segments = Vec::new(alloc);
    for (out, into) in flights {
        segments.push(Span {
            from: minute(*out),
            to: minute(*into),
        })?;
    }
    Ok(DutyInForce::Fdp(FdpInForce::new(Some(0), minute(report), minute(release), segments)))
}

/// The sections that new duties break beside others, in their order.
fn sections_of(alloc: Global, others: &mut History, new: &History) -> Result<String, Fault> {
    others.append(alloc, new)?;
    let mut text = String::new(alloc);
    for section in judge(others, new).list(alloc)? {
        text.push_str(&format!(in alloc; " {section}")?)?;
    }
    Ok(text)
}

/// The sections that a new duty breaks in the history of others.
fn judge_among(alloc: Global, mut others: History, duty: DutyInForce) -> Result<String, Fault> {
    let mut new = History::empty(alloc);
    new.add(duty)?;
    sections_of(alloc, &mut others, &new)
}

/// What a period of this airline breaks after the outside period of 10 June.
fn after_outside(alloc: Global, flown: Flown) -> Result<String, Fault> {
    let before = flown_outside(alloc, TENTH_OF_JUNE)?;
    let new = plan_of(alloc, flown)?;
    let mut others = History::empty(alloc);
    others.add(before)?;
    judge_among(alloc, others, new)
}

/// What a minute outside breaks beside sixty hours of this airline.
fn beside_sixty_hours(alloc: Global) -> Result<String, Fault> {
    let mut others = History::empty(alloc);
    for flown in SIXTY_HOURS {
        others.add(plan_of(alloc, flown)?)?;
    }
    judge_among(alloc, others, flown_outside(alloc, ONE_MINUTE)?)
}

#[test]
fn faults_of_an_outside_period_have_an_order(rt: HostRuntime) -> Result<(), Fail> {
    let alloc = rt.alloc();
    assert_eq!(rt;
        fault_or_name(alloc, "x1", (1, &[], 0))?.as_str(),
        "18 BadField outside"
    );
    assert_eq!(rt;
        fault_or_name(alloc, "X1", (1, &[], 0))?.as_str(),
        "19 SegmentCount 0"
    );
    assert_eq!(rt;
        fault_or_name(alloc, "X1", (1, &[(0, 1)], 1))?.as_str(),
        "16 BadTimes 0"
    );
    assert_eq!(rt;
        fault_or_name(alloc, "X1", LONG)?.as_str(),
        "X1 13380720 13381680"
    );
    Ok(())
}

#[test]
fn ten_hours_of_rest_follow_an_outside_period(rt: HostRuntime) -> Result<(), Fail> {
    assert_eq!(rt; after_outside(rt.alloc(), EARLY)?.as_str(), " 117.25(e)");
    assert_eq!(rt; after_outside(rt.alloc(), RESTED)?.as_str(), "");
    Ok(())
}

#[test]
fn an_outside_minute_is_one_of_sixty_hours(rt: HostRuntime) -> Result<(), Fail> {
    assert_eq!(rt; beside_sixty_hours(rt.alloc())?.as_str(), " 117.23(c)(1)");
    Ok(())
}

#[test]
fn an_outside_period_enters_no_table(rt: HostRuntime) -> Result<(), Fail> {
    let alloc = rt.alloc();
    let (here, there) = (plan_of(alloc, LONG)?, flown_outside(alloc, LONG)?);
    assert_eq!(rt;
        judge_among(alloc, History::empty(alloc), here)?.as_str(),
        " 117.11(a)(1) 117.13(a)"
    );
    assert_eq!(rt;
        judge_among(alloc, History::empty(alloc), there)?.as_str(),
        ""
    );
    Ok(())
}
