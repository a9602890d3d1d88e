//! Calls that may find no memory. A call that reports it has to leave what it would have changed as it was, and the same call, made
//! again, has to give what it gives with all memory. So each test here passes whichever of its own calls for memory is refused, which
//! `tests/allocation_tests.py` has done to each in turn; how out of memory was reported it writes to standard error.

mod entries;
mod growing;
mod machine;
mod parts;
mod reports;
mod same;
mod texts;

use crate::allocation::parts::Part;
use crate::allocation::reports::MemoryReports;
use crate::fault::Fault;
use std::alloc::Global;
use std::test::Fail;

/// What comes of a part. Where it finds no memory for what it needs besides the calls that it tries, it begins anew; but not where one of
/// these has found none, since the same call, made again, has all memory.
fn try_part(alloc: Global, part: Part, reports: &mut MemoryReports) -> Result<String, Fault> {
    match part.try_once(alloc, reports) {
        Err(Fault::Memory) if !reports.memory => part.try_once(alloc, reports),
        text => text,
    }
}

/// The same; how out of memory was reported in it is written to standard error.
fn text_of(rt: &HostRuntime, part: Part) -> Result<String, Fail> {
    let mut reports = MemoryReports::new();
    let text = try_part(rt.alloc(), part, &mut reports);
    reports.print(&mut rt.stderr())?;
    Ok(text?)
}

#[test]
fn table(rt: HostRuntime) -> Result<(), Fail> {
    assert_eq!(rt; text_of(&rt, Part::OrdMap)?.as_str(), "255 keys");
    Ok(())
}

#[test]
fn write(rt: HostRuntime) -> Result<(), Fail> {
    assert_eq!(rt; text_of(&rt, Part::Write)?.as_str(), "170 bytes");
    Ok(())
}

#[test]
fn insert(rt: HostRuntime) -> Result<(), Fail> {
    assert_eq!(rt;
        text_of(&rt, Part::Insert)?.as_str(),
        "5 duties, flight 960, flight duty 1200, duty 2250"
    );
    Ok(())
}

#[test]
fn step(rt: HostRuntime) -> Result<(), Fail> {
    assert_eq!(rt;
        text_of(&rt, Part::Step)?.as_str(),
        "+++++++++++++++++++++== 1 2 12 11 20 21 22"
    );
    Ok(())
}

#[test]
fn put(rt: HostRuntime) -> Result<(), Fail> {
    assert_eq!(rt;
        text_of(&rt, Part::Put)?.as_str(),
        "4 members, each with its base, 3 pairings, 1 ground duty, 1 outside period, 5 exceedances, 21 requests"
    );
    Ok(())
}

#[test]
fn canonical(rt: HostRuntime) -> Result<(), Fail> {
    assert_eq!(rt; text_of(&rt, Part::Canonical)?.as_str(), "30 texts");
    Ok(())
}

const REPORTS: &str = "\
ROSTER C1 captain Ada Ray
2025-06-12T11:00Z 2025-06-12T20:00Z pairing P2/1 plan fdp 8:30 flight 7:30
2025-06-13T04:00Z 2025-06-13T07:30Z outside X1 fdp 3:00 flight 2:00
2025-06-20T12:00Z 2025-06-20T20:00Z ground G1 Simulator
LIMITS C1 captain Ada Ray
117.11(a)(1) 7:30 of 9:00 P2/1 within
117.13(a) 8:30 of 14:00 P2/1 within
117.23(b)(1) 9:30 of 100:00 from 2025-05-16T07:00Z within
117.23(b)(2) 9:30 of 1000:00 from 2024-06-14T00:00Z within
117.23(c)(1) 11:30 of 60:00 from 2025-06-06T07:00Z within
117.23(c)(2) 11:30 of 190:00 from 2025-05-16T07:00Z within
117.25(b) 151:00 of 30:00 outside X1 within
117.25(e) 8:00 of 10:00 outside X1 exceeds
ROSTER C2 captain Bo Lind
2025-06-10T11:00Z 2025-06-11T07:30Z pairing P1/1 actual fdp 20:00 flight 10:00
LIMITS C2 captain Bo Lind
117.11(a)(1) 10:00 of 9:00 P1/1 exceeds
117.13(a) 20:00 of 14:00 P1/1 exceeds
117.23(b)(1) 10:00 of 100:00 from 2025-05-14T07:00Z within
117.23(b)(2) 10:00 of 1000:00 from 2024-06-12T00:00Z within
117.23(c)(1) 20:00 of 60:00 from 2025-06-04T07:00Z within
117.23(c)(2) 20:00 of 190:00 from 2025-05-14T07:00Z within
117.25(b) 168:00 of 30:00 P1/1 within
117.25(e) 168:00 of 10:00 P1/1 within
ROSTER C5 captain Lee Roy
base DEN
LIMITS C5 captain Lee Roy
117.11(a)(1) - within
117.13(a) - within
117.23(b)(1) 0:00 of 100:00 within
117.23(b)(2) 0:00 of 1000:00 within
117.23(c)(1) 0:00 of 60:00 within
117.23(c)(2) 0:00 of 190:00 within
117.25(b) - of 30:00 within
117.25(e) - of 10:00 within
ROSTER F1 first officer Zoë Roy
2025-06-10T11:00Z 2025-06-11T07:30Z pairing P1/1 actual fdp 20:00 flight 10:00
LIMITS F1 first officer Zoë Roy
117.11(a)(1) 10:00 of 9:00 P1/1 exceeds
117.13(a) 20:00 of 14:00 P1/1 exceeds
117.23(b)(1) 10:00 of 100:00 from 2025-05-14T07:00Z within
117.23(b)(2) 10:00 of 1000:00 from 2024-06-12T00:00Z within
117.23(c)(1) 20:00 of 60:00 from 2025-06-04T07:00Z within
117.23(c)(2) 20:00 of 190:00 from 2025-05-14T07:00Z within
117.25(b) 168:00 of 30:00 P1/1 within
117.25(e) 168:00 of 10:00 P1/1 within
PAIRING P1
captain C2
first officer F1
1 actual report 2025-06-10T11:00Z release 2025-06-11T07:30Z
1.1 RB1 BOS 2025-06-10T12:00Z IAD 2025-06-10T14:00Z
1.2 RB2 IAD 2025-06-10T23:00Z BOS 2025-06-11T07:00Z
PAIRING P2
captain C1
first officer -
1 plan report 2025-06-12T11:00Z release 2025-06-12T20:00Z
1.1 RB1 BOS 2025-06-12T12:00Z IAD 2025-06-12T19:30Z
PAIRING P3
captain -
first officer -
1 plan report 2025-06-11T12:00Z release 2025-06-11T15:30Z
1.1 RB1 BOS 2025-06-11T13:00Z IAD 2025-06-11T15:00Z
EXCEEDANCES 5
18 C2 117.11(a)(1) P1/1
18 C2 117.13(a) P1/1
18 F1 117.11(a)(1) P1/1
18 F1 117.13(a) P1/1
21 C1 117.25(e) outside X1
MEMBERS 4
C1 captain HOME Ada Ray
C2 captain HOME Bo Lind
C5 captain DEN Lee Roy
F1 first officer HOME Zoë Roy
PAIRINGS 3
P1 2025-06-10T11:00Z 2025-06-11T07:30Z flown C2 F1
P3 2025-06-11T12:00Z 2025-06-11T15:30Z plan - -
P2 2025-06-12T11:00Z 2025-06-12T20:00Z plan C1 -
PAIRINGS 2
P3 2025-06-11T12:00Z 2025-06-11T15:30Z plan - -
P2 2025-06-12T11:00Z 2025-06-12T20:00Z plan C1 -
BOARD 2025-06-11 2025-06-12
ROSTER C1 captain Ada Ray
2025-06-12T11:00Z 2025-06-12T20:00Z pairing P2/1 plan fdp 8:30 flight 7:30
ROSTER C2 captain Bo Lind
2025-06-10T11:00Z 2025-06-11T07:30Z pairing P1/1 actual fdp 20:00 flight 10:00
ROSTER C5 captain Lee Roy
base DEN
ROSTER F1 first officer Zoë Roy
2025-06-10T11:00Z 2025-06-11T07:30Z pairing P1/1 actual fdp 20:00 flight 10:00
OPEN 2
P3 2025-06-11T12:00Z 2025-06-11T15:30Z plan - -
P2 2025-06-12T11:00Z 2025-06-12T20:00Z plan C1 -
REQUEST 1
0 {\"crew\":\"C1\",\"do\":\"add-crew\",\"name\":\"Ada Ray\",\"seat\":\"captain\"}
0 {\"exceedances\":[],\"result\":\"accepted\"}
";

#[test]
fn report(rt: HostRuntime) -> Result<(), Fail> {
    assert_eq!(rt; text_of(&rt, Part::Report)?.as_str(), REPORTS);
    Ok(())
}

/// The bytes were counted of what Python's `json` makes of the values, each with a line end.
#[test]
fn report_json(rt: HostRuntime) -> Result<(), Fail> {
    assert_eq!(rt;
        text_of(&rt, Part::ReportJson)?.as_str(),
        "17 reports, 11057 bytes\n{\"count\":\"2\",\"next\":\"1\"}\n{\"count\":\"2\",\"next\":null}\n"
    );
    Ok(())
}

#[test]
fn schedule(rt: HostRuntime) -> Result<(), Fail> {
    assert_eq!(rt;
        text_of(&rt, Part::Schedule)?.as_str(),
        "P10 1, P1 1, P30 2 1, 30 BadCsv 3"
    );
    Ok(())
}
