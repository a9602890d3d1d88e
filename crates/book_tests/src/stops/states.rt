//! Eleven commands, three of them the parts of an import, and the rows of the book after each of them. Times are in minutes since
//! 2000-01-01T00:00Z.

use crate::contents::in_order;
use crate::fault::Fault;
use crate::requests::{CAPTAIN, OFFICER, key, plan};
use command::{Command, Instruction, Key};
use duty::Pairing;
use std::alloc::Global;
use stored_json::read_canonical;
use values::TryClone;

/// How many commands there are.
pub const COMMANDS: usize = 11;

/// How many of them a book of version 1 can keep: the later ones are of an outside period.
pub const FIRST: usize = 9;

/// Where its parts begin among them, and where they have ended.
const PARTS: [usize; 2] = [2, 5];

/// The number of the import.
pub const IMPORT: u64 = 500;

/// C1 takes P10, F1 too, and it is flown eleven hours late.
const ASSIGNED: &str = "{\"crew\":\"C1\",\"do\":\"assign\",\"pairing\":\"P10\"}";

const JOINED: &str = "{\"crew\":\"F1\",\"do\":\"assign\",\"pairing\":\"P10\"}";

const FLOWN: &str =
    "{\"do\":\"actual\",\"pairing\":\"P10\",\"period\":1,\"release\":\"2025-06-11T07:30Z\",\
    \"report\":\"2025-06-10T11:00Z\",\"segments\":[{\"in\":\"2025-06-11T07:00Z\",\"out\":\"2025-06-10T23:00Z\"}]}";

/// C1 flies for another certificate holder, four and a half hours after the release from P10.
const ELSEWHERE: &str =
    "{\"crew\":\"C1\",\"do\":\"record-outside\",\"outside\":\"X1\",\"release\":\"2025-06-11T15:30Z\",\
    \"report\":\"2025-06-11T12:00Z\",\"segments\":[{\"in\":\"2025-06-11T15:00Z\",\"out\":\"2025-06-11T13:00Z\"}]}";

/// It was two days later, and of two flights.
const LATER: &str =
    "{\"crew\":\"C1\",\"do\":\"record-outside\",\"outside\":\"X1\",\"release\":\"2025-06-13T16:30Z\",\
    \"report\":\"2025-06-13T12:00Z\",\"segments\":[{\"in\":\"2025-06-13T14:00Z\",\"out\":\"2025-06-13T13:00Z\"},\
    {\"in\":\"2025-06-13T16:00Z\",\"out\":\"2025-06-13T15:00Z\"}]}";

/// The refusal of each command, or 0 where it is accepted: the second part of the import names a pairing that is there.
pub const ANSWERS: [u8; COMMANDS] = [0, 0, 0, 5, 0, 0, 0, 0, 0, 0, 0];

/// A pairing of one flight, from 11:00 to 20:00 of a day of June 2025, with the first minute of that day.
#[derive(Clone, Copy)]
struct Planned {
    id: &'static str,
    times: [&'static str; 4],
    day: u32,
}

const P20: Planned = Planned {
    id: "P20",
    times: ["12T11:00", "12T12:00", "12T19:30", "12T20:00"],
    day: 13_383_360,
};

const P10: Planned = Planned {
    id: "P10",
    times: ["10T11:00", "10T12:00", "10T19:30", "10T20:00"],
    day: 13_380_480,
};

const P30: Planned = Planned {
    id: "P30",
    times: ["14T11:00", "14T12:00", "14T19:30", "14T20:00"],
    day: 13_386_240,
};

/// Another P20.
const OTHER: Planned = Planned {
    id: "P20",
    times: ["16T11:00", "16T12:00", "16T19:30", "16T20:00"],
    day: 13_389_120,
};

/// The pairing that a command adds.
fn pairing_of(alloc: Global, command: &Command) -> Result<Pairing, Fault> {
    match command.instruction() {
        Instruction::AddPairing(pairing) => Ok(pairing.try_clone(alloc)?),
        _ => Err(Fault::Unmade),
    }
}

/// The pairing of a plan.
fn pairing(alloc: Global, planned: &Planned) -> Result<Pairing, Fault> {
    let text = plan(alloc, planned.id, planned.times)?;
    let command = read_canonical(alloc, text.as_str())?;
    let pairing = pairing_of(alloc, &command);
    drop(command);
    pairing
}

/// Whether a command is a part of the import.
pub fn is_part(at: usize) -> bool {
    PARTS[0] <= at && at < PARTS[1]
}

/// The pairings of the import.
pub fn pairings(alloc: Global) -> Result<Vec<Pairing>, Fault> {
    let mut pairings = Vec::new(alloc);
    for planned in &[P10, OTHER, P30] {
        pairings.push(pairing(alloc, planned)?)?;
    }
    Ok(pairings)
}

/// The number and the text of the command at this place, where it is no part of the import.
fn numbered_text(alloc: Global, at: usize) -> Result<(u8, String), Fault> {
    let (number, text) = match at {
        0 => (1, CAPTAIN),
        5 => (3, ASSIGNED),
        6 => (4, OFFICER),
        7 => (5, JOINED),
        8 => (6, FLOWN),
        9 => (7, ELSEWHERE),
        10 => (8, LATER),
        _ => return Ok((2, plan(alloc, P20.id, P20.times)?)),
    };
    Ok((number, String::from_str(alloc, text)?))
}

/// The command at this place with its key, where it is no part of the import.
pub fn command_at(alloc: Global, at: usize) -> Result<(Key, Command), Fault> {
    let (number, text) = numbered_text(alloc, at)?;
    Ok((key(number), read_canonical(alloc, text.as_str())?))
}

/// The row of a request whose reply has these exceedances.
fn request_row(
    alloc: Global,
    key: &str,
    command: &str,
    exceedances: &str,
) -> Result<String, Fault> {
    Ok(format!(in alloc;
        "request {key}|{command}|{{\"exceedances\":[{exceedances}],\"result\":\"accepted\"}}"
    )?)
}

/// The rows of a pairing, and of the request that added it; not those of its times.
fn add_pairing(
    alloc: Global,
    planned: &Planned,
    key: &str,
    lines: &mut Vec<String>,
) -> Result<(), Fault> {
    let id = planned.id;
    lines.push(format!(in alloc; "pairing {id}")?)?;
    let text = plan(alloc, id, planned.times)?;
    lines.push(request_row(alloc, key, text.as_str(), "")?)?;
    Ok(())
}

/// The rows of its times, with the columns of the actual ones.
fn add_times(
    alloc: Global,
    planned: &Planned,
    [period, segment]: [&str; 2],
    lines: &mut Vec<String>,
) -> Result<(), Fault> {
    let (id, day) = (planned.id, planned.day);
    let (report, release) = (day.saturating_add(660), day.saturating_add(1_200));
    let (out, land) = (day.saturating_add(720), day.saturating_add(1_170));
    lines.push(format!(in alloc; "period {id}|1|{report}|{release}|{period}")?)?;
    lines.push(format!(in alloc; "segment {id}|1|1|RB1|BOS|IAD|{out}|{land}|{segment}")?)?;
    Ok(())
}

const PLANNED: [&str; 2] = ["|", "|"];

/// From report, and from block-out, of the late flight.
const LATE: [&str; 2] = ["13381140|13382370", "13381860|13382340"];

/// 117.13(a) is the section of number 2.
const EXCEEDANCES: &str =
    "{\"crew\":\"C1\",\"section\":\"117.13(a)\"},{\"crew\":\"F1\",\"section\":\"117.13(a)\"}";

/// What a command adds that adds no pairing: some rows, and that of its request.
struct Kept {
    command: usize,
    rows: &'static [&'static str],
    key: &'static str,
    text: &'static str,
    exceedances: &'static str,
}

const KEPT: [Kept; 7] = [
    Kept {
        command: 1,
        rows: &["crew C1|0|Ada Ray", "crew_base C1|HOME"],
        key: "1|0",
        text: CAPTAIN,
        exceedances: "",
    },
    Kept {
        command: 6,
        rows: &["seat P10|0|C1"],
        key: "3|0",
        text: ASSIGNED,
        exceedances: "",
    },
    Kept {
        command: 7,
        rows: &["crew F1|1|Zoë Roy", "crew_base F1|HOME"],
        key: "4|0",
        text: OFFICER,
        exceedances: "",
    },
    Kept {
        command: 8,
        rows: &["seat P10|1|F1"],
        key: "5|0",
        text: JOINED,
        exceedances: "",
    },
    Kept {
        command: 9,
        rows: &["exceedance 6|0|C1|2|P10|1", "exceedance 6|0|F1|2|P10|1"],
        key: "6|0",
        text: FLOWN,
        exceedances: EXCEEDANCES,
    },
    Kept {
        command: 10,
        rows: &["exceedance 7|0|C1|8|X1|0"],
        key: "7|0",
        text: ELSEWHERE,
        exceedances: "{\"crew\":\"C1\",\"section\":\"117.25(e)\"}",
    },
    Kept {
        command: 11,
        rows: &[],
        key: "8|0",
        text: LATER,
        exceedances: "",
    },
];

/// The rows of X1 after this many commands, the second in place of the first.
const OUTSIDE: [(usize, &[&str]); 2] = [
    (
        10,
        &[
            "outside X1|C1|13382640|13382850",
            "outside_segment X1|1|13382700|13382820",
        ],
    ),
    (
        11,
        &[
            "outside X1|C1|13385520|13385790",
            "outside_segment X1|1|13385580|13385640",
            "outside_segment X1|2|13385700|13385760",
        ],
    ),
];

/// The pairings that are added, each by this command and under this key.
const ADDED: [(usize, Planned, &str); 3] = [(2, P20, "2|0"), (3, P10, "500|1"), (5, P30, "500|3")];

/// Adds a row.
fn add(alloc: Global, row: &str, lines: &mut Vec<String>) -> Result<(), Fault> {
    lines.push(String::from_str(alloc, row)?)?;
    Ok(())
}

/// Adds rows.
fn add_each(alloc: Global, rows: &[&str], lines: &mut Vec<String>) -> Result<(), Fault> {
    for row in rows {
        add(alloc, row, lines)?;
    }
    Ok(())
}

/// Adds the rows of a command that adds no pairing.
fn add_kept(alloc: Global, kept: &Kept, lines: &mut Vec<String>) -> Result<(), Fault> {
    add_each(alloc, kept.rows, lines)?;
    lines.push(request_row(alloc, kept.key, kept.text, kept.exceedances)?)?;
    Ok(())
}

/// Adds the rows of a pairing after this many commands. The ninth says how P10 was flown.
fn add_planned(
    alloc: Global,
    planned: &Planned,
    key: &str,
    count: usize,
    lines: &mut Vec<String>,
) -> Result<(), Fault> {
    let is_flown = planned.day == P10.day && count >= 9;
    add_times(alloc, planned, if is_flown { LATE } else { PLANNED }, lines)?;
    add_pairing(alloc, planned, key, lines)
}

/// Adds the rows after this many commands.
fn add_rows(alloc: Global, count: usize, lines: &mut Vec<String>) -> Result<(), Fault> {
    add(alloc, "book 1|2|EST5EDT,M3.2.0,M11.1.0", lines)?;
    add(alloc, "base HOME|EST5EDT,M3.2.0,M11.1.0", lines)?;
    for kept in &KEPT {
        if kept.command <= count {
            add_kept(alloc, kept, lines)?;
        }
    }
    for (command, planned, key) in &ADDED {
        if *command <= count {
            add_planned(alloc, planned, key, count, lines)?;
        }
    }
    for &(command, rows) in &OUTSIDE {
        if command == count {
            add_each(alloc, rows, lines)?;
        }
    }
    Ok(())
}

/// The rows after this many commands.
fn after(alloc: Global, count: usize) -> Result<String, Fault> {
    let mut lines = Vec::new(alloc);
    add_rows(alloc, count, &mut lines)?;
    in_order(alloc, lines)
}

/// No tables, the rows of the empty book, and the rows after each command.
pub fn states(alloc: Global) -> Result<Vec<String>, Fault> {
    let mut states = Vec::new(alloc);
    states.push(String::new(alloc))?;
    for count in 0..=COMMANDS {
        states.push(after(alloc, count)?)?;
    }
    Ok(states)
}

/// Whether a row is one that only version 2 has.
fn is_later(row: &str) -> bool {
    row.starts_with("book ") || row.starts_with("base ") || row.starts_with("crew_base ")
}

/// The rows in a book of version 1 after the commands that it can keep.
pub fn first(alloc: Global) -> Result<String, Fault> {
    let mut later = Vec::new(alloc);
    add_rows(alloc, FIRST, &mut later)?;
    let mut lines = Vec::new(alloc);
    add(alloc, "book 1|1|EST5EDT,M3.2.0,M11.1.0", &mut lines)?;
    for line in later {
        if !is_later(line.as_str()) {
            lines.push(line)?;
        }
    }
    in_order(alloc, lines)
}
