//! Requests, by the texts that the book keeps their commands as.

use crate::fault::Fault;
use command::{Command, Key};
use request::RequestNumber;
use std::alloc::Global;
use stored_json::read_canonical;

/// C1 is a captain.
pub const CAPTAIN: &str =
    "{\"crew\":\"C1\",\"do\":\"add-crew\",\"name\":\"Ada Ray\",\"seat\":\"captain\"}";

/// F1 is a first officer.
pub const OFFICER: &str =
    "{\"crew\":\"F1\",\"do\":\"add-crew\",\"name\":\"Zoë Roy\",\"seat\":\"first officer\"}";

/// A second base, two hours west of the first one.
pub const DENVER: &str =
    "{\"base\":\"DEN\",\"do\":\"add-base\",\"zone\":\"MST7MDT,M3.2.0,M11.1.0\"}";

/// C5, a captain, belongs to it.
pub const AT_DENVER: &str =
    "{\"base\":\"DEN\",\"crew\":\"C5\",\"do\":\"add-crew\",\"name\":\"Lee Roy\",\"seat\":\"captain\"}";

/// C6 is to belong to a base that isn't there.
pub const AT_NO_BASE: &str =
    "{\"base\":\"BOI\",\"crew\":\"C6\",\"do\":\"add-crew\",\"name\":\"Lee Roy\",\"seat\":\"captain\"}";

/// P1 has two flights on 10 June 2025.
pub const PLAN: &str = "{\"do\":\"add-pairing\",\"pairing\":\"P1\",\"periods\":[\
    {\"release\":\"2025-06-10T20:00Z\",\"report\":\"2025-06-10T11:00Z\",\"segments\":[\
    {\"flight\":\"RB1\",\"from\":\"BOS\",\"in\":\"2025-06-10T14:00Z\",\"out\":\"2025-06-10T12:00Z\",\"to\":\"IAD\"},\
    {\"flight\":\"RB2\",\"from\":\"IAD\",\"in\":\"2025-06-10T19:30Z\",\"out\":\"2025-06-10T15:00Z\",\"to\":\"BOS\"}]}]}";

/// C1 takes P1.
pub const LEFT: &str = "{\"crew\":\"C1\",\"do\":\"assign\",\"pairing\":\"P1\"}";

/// C1 is released from P1.
pub const RELEASE: &str = "{\"crew\":\"C1\",\"do\":\"release\",\"pairing\":\"P1\"}";

/// F1 takes P1.
pub const RIGHT: &str = "{\"crew\":\"F1\",\"do\":\"assign\",\"pairing\":\"P1\"}";

/// P1 is cancelled.
pub const CANCEL: &str = "{\"do\":\"cancel-pairing\",\"pairing\":\"P1\"}";

/// P1 is flown eleven hours late, over Table A and Table B.
pub const LATE: &str = "{\"do\":\"actual\",\"pairing\":\"P1\",\"period\":1,\
    \"release\":\"2025-06-11T07:30Z\",\"report\":\"2025-06-10T11:00Z\",\"segments\":[\
    {\"in\":\"2025-06-10T14:00Z\",\"out\":\"2025-06-10T12:00Z\"},\
    {\"in\":\"2025-06-11T07:00Z\",\"out\":\"2025-06-10T23:00Z\"}]}";

/// The text of a command that adds a pairing of one flight in June 2025: its report, block-out, block-in and release, as `10T11:00`.
pub fn plan(
    alloc: Global,
    id: &str,
    [report, out, land, release]: [&str; 4],
) -> Result<String, Fault> {
    let segment = format!(in alloc;
        "{{\"flight\":\"RB1\",\"from\":\"BOS\",\"in\":\"2025-06-{land}Z\",\"out\":\"2025-06-{out}Z\",\"to\":\"IAD\"}}"
    )?;
    Ok(format!(in alloc;
        "{{\"do\":\"add-pairing\",\"pairing\":\"{id}\",\"periods\":[{{\"release\":\"2025-06-{release}Z\",\"report\":\"2025-06-{report}Z\",\"segments\":[{segment}]}}]}}"
    )?)
}

/// The key of a request by its number; of 0 it is that of 1.
pub fn key(number: u8) -> Key {
    let number = RequestNumber::new(u64::from(number)).unwrap_or(RequestNumber::FIRST);
    Key::new(number, 0)
}

/// Requests, each of its number and the text of its command.
pub fn requests(alloc: Global, list: &[(u8, &str)]) -> Result<Vec<(Key, Command)>, Fault> {
    let mut requests = Vec::new(alloc);
    for (number, text) in list {
        requests.push((key(*number), read_canonical(alloc, text)?))?;
    }
    Ok(requests)
}
