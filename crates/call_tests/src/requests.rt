//! Requests, by the texts that the book keeps of their commands.

use crate::fault::Fault;
use command::{Command, Key};
use request::RequestNumber;
use std::alloc::Global;
use stored_json::read_canonical;
use time117::Zone;

pub const CAPTAIN: &str =
    "{\"crew\":\"C1\",\"do\":\"add-crew\",\"name\":\"Ada Ray\",\"seat\":\"captain\"}";

pub const OFFICER: &str =
    "{\"crew\":\"F1\",\"do\":\"add-crew\",\"name\":\"Zoë Roy\",\"seat\":\"first officer\"}";

pub const OTHER_CAPTAIN: &str =
    "{\"crew\":\"C2\",\"do\":\"add-crew\",\"name\":\"Bo Lind\",\"seat\":\"captain\"}";

/// A second base, two hours west of the first one.
pub const DENVER: &str =
    "{\"base\":\"DEN\",\"do\":\"add-base\",\"zone\":\"MST7MDT,M3.2.0,M11.1.0\"}";

/// C5 belongs to it.
pub const AT_DENVER: &str =
    "{\"base\":\"DEN\",\"crew\":\"C5\",\"do\":\"add-crew\",\"name\":\"Lee Roy\",\"seat\":\"captain\"}";

/// C6 is to belong to a base that isn't there.
pub const AT_NO_BASE: &str =
    "{\"base\":\"BOI\",\"crew\":\"C6\",\"do\":\"add-crew\",\"name\":\"Lee Roy\",\"seat\":\"captain\"}";

/// P1 has two flights on 10 June 2025.
pub const P1: &str = "{\"do\":\"add-pairing\",\"pairing\":\"P1\",\"periods\":[\
    {\"release\":\"2025-06-10T20:00Z\",\"report\":\"2025-06-10T11:00Z\",\"segments\":[\
    {\"flight\":\"RB1\",\"from\":\"BOS\",\"in\":\"2025-06-10T14:00Z\",\"out\":\"2025-06-10T12:00Z\",\"to\":\"IAD\"},\
    {\"flight\":\"RB2\",\"from\":\"IAD\",\"in\":\"2025-06-10T19:30Z\",\"out\":\"2025-06-10T15:00Z\",\"to\":\"BOS\"}]}]}";

pub const P2: &str = "{\"do\":\"add-pairing\",\"pairing\":\"P2\",\"periods\":[\
    {\"release\":\"2025-06-12T20:00Z\",\"report\":\"2025-06-12T11:00Z\",\"segments\":[\
    {\"flight\":\"RB1\",\"from\":\"BOS\",\"in\":\"2025-06-12T19:30Z\",\"out\":\"2025-06-12T12:00Z\",\"to\":\"IAD\"}]}]}";

/// It reports four and a half hours after the release from P1 as that is flown.
pub const P3: &str = "{\"do\":\"add-pairing\",\"pairing\":\"P3\",\"periods\":[\
    {\"release\":\"2025-06-11T15:30Z\",\"report\":\"2025-06-11T12:00Z\",\"segments\":[\
    {\"flight\":\"RB1\",\"from\":\"BOS\",\"in\":\"2025-06-11T15:00Z\",\"out\":\"2025-06-11T13:00Z\",\"to\":\"IAD\"}]}]}";

pub const TAKE: &str = "{\"crew\":\"C1\",\"do\":\"assign\",\"pairing\":\"P1\"}";

pub const TAKE_RIGHT: &str = "{\"crew\":\"F1\",\"do\":\"assign\",\"pairing\":\"P1\"}";

pub const RELEASE: &str = "{\"crew\":\"C1\",\"do\":\"release\",\"pairing\":\"P1\"}";

pub const CANCEL: &str = "{\"do\":\"cancel-pairing\",\"pairing\":\"P1\"}";

pub const G1: &str = "{\"begin\":\"2025-06-20T12:00Z\",\"crew\":\"C1\",\"do\":\"add-ground\",\
    \"end\":\"2025-06-20T20:00Z\",\"ground\":\"G1\",\"task\":\"Simulator\"}";

pub const G2: &str = "{\"begin\":\"2025-06-21T12:00Z\",\"crew\":\"F1\",\"do\":\"add-ground\",\
    \"end\":\"2025-06-21T20:00Z\",\"ground\":\"G2\",\"task\":\"Training\"}";

/// P1 is flown eleven hours late, over Table A and Table B.
pub const LATE: &str = "{\"do\":\"actual\",\"pairing\":\"P1\",\"period\":1,\
    \"release\":\"2025-06-11T07:30Z\",\"report\":\"2025-06-10T11:00Z\",\"segments\":[\
    {\"in\":\"2025-06-10T14:00Z\",\"out\":\"2025-06-10T12:00Z\"},\
    {\"in\":\"2025-06-11T07:00Z\",\"out\":\"2025-06-10T23:00Z\"}]}";

/// C1 flies for another certificate holder on 13 June 2025, eight hours after the release from P2.
pub const ELSEWHERE: &str = "{\"crew\":\"C1\",\"do\":\"record-outside\",\"outside\":\"X1\",\
    \"release\":\"2025-06-13T07:30Z\",\"report\":\"2025-06-13T04:00Z\",\"segments\":[\
    {\"in\":\"2025-06-13T07:00Z\",\"out\":\"2025-06-13T05:00Z\"}]}";

/// The same period is recorded of C2.
pub const ELSEWHERE_OF_C2: &str = "{\"crew\":\"C2\",\"do\":\"record-outside\",\"outside\":\"X1\",\
    \"release\":\"2025-06-13T07:30Z\",\"report\":\"2025-06-13T04:00Z\",\"segments\":[\
    {\"in\":\"2025-06-13T07:00Z\",\"out\":\"2025-06-13T05:00Z\"}]}";

/// A request's number, and the text of its command.
pub type Line = (u8, &'static str);

/// What a new roster is asked. It accepts commands of all eleven kinds, of which C1 and C2 exchange their pairings before P1 is
/// flown; repeats two of its replies; and then refuses: a number is held, a member isn't there, would have too little rest, and has a
/// duty at that time; a base isn't there, and one is; and an outside period is another member's.
pub const REQUESTS: [Line; 30] = [
    (1, CAPTAIN),
    (2, OFFICER),
    (3, OTHER_CAPTAIN),
    (4, P1),
    (5, P2),
    (6, P3),
    (7, TAKE),
    (8, RELEASE),
    (9, CANCEL),
    (10, P1),
    (11, TAKE),
    (12, TAKE_RIGHT),
    (13, "{\"crew\":\"C2\",\"do\":\"assign\",\"pairing\":\"P2\"}"),
    (
        14,
        "{\"crew\":\"C1\",\"do\":\"swap\",\"other_crew\":\"C2\",\"other_pairing\":\"P2\",\"pairing\":\"P1\"}",
    ),
    (15, G1),
    (16, G2),
    (17, "{\"do\":\"cancel-ground\",\"ground\":\"G2\"}"),
    (18, LATE),
    (19, DENVER),
    (20, AT_DENVER),
    (21, ELSEWHERE),
    (11, TAKE),
    (18, LATE),
    (11, RELEASE),
    (30, "{\"crew\":\"C9\",\"do\":\"assign\",\"pairing\":\"P3\"}"),
    (30, "{\"crew\":\"C2\",\"do\":\"assign\",\"pairing\":\"P3\"}"),
    (30, G1),
    (30, AT_NO_BASE),
    (30, DENVER),
    (30, ELSEWHERE_OF_C2),
];

/// Three pairings and two ground duties, none at the time of another.
pub const DUTIES: [Line; 5] = [(1, P1), (2, P2), (3, P3), (4, G1), (5, G2)];

/// The key of a request by its number; of 0 it is that of 1.
pub fn key(number: u8) -> Key {
    let number = RequestNumber::new(u64::from(number)).unwrap_or(RequestNumber::FIRST);
    Key::new(number, 0)
}

/// The requests of lines.
pub fn requests(alloc: Global, lines: &[Line]) -> Result<Vec<(Key, Command)>, Fault> {
    let mut requests = Vec::new(alloc);
    for (number, text) in lines {
        requests.push((key(*number), read_canonical(alloc, text)?))?;
    }
    Ok(requests)
}

/// The zone of New York.
pub fn eastern(alloc: Global) -> Result<Zone, Fault> {
    match Zone::read(alloc, "EST5EDT,M3.2.0,M11.1.0") {
        Ok(zone) => Ok(zone),
        Err(_) => Err(Fault::Memory),
    }
}
