//! The part of a book's state that a command needs, as the store reads it by key: what it holds, and that the machine answers by it
//! as by the whole roster, which the machine alone made.

ghost use Rattle.roster.specs.Steps.{IsUnderFreeKey};

use crate::fault::Fault;
use crate::opening::{EASTERN, book_of, create};
use crate::requests::{AT_DENVER, AT_NO_BASE, DENVER, key, plan};
use book::{Answer, Book};
use command::{Command, Key};
use duty::Id;
use roster::{Roster, Verdict};
use sqlite::{Alter, Connection};
use std::alloc::Global;
use std::test::Fail;
use store::{Store, StoreFault};
use stored_json::read_canonical;
use time117::Zone;
use values::{OrdMap, TryClone};

/// The pairings of the book: C1 holds P7, P8, P13A and P13B, F1 holds P13A, and C2 holds P91. P92 is free, and C5 holds none.
const PLANS: [(&str, [&str; 4]); 6] = [
    ("P7", ["07T12:00", "07T13:00", "07T20:00", "07T20:30"]),
    ("P8", ["08T12:00", "08T13:00", "08T20:00", "08T20:30"]),
    ("P13A", ["10T11:00", "10T12:00", "10T20:00", "10T20:30"]),
    ("P13B", ["11T06:30", "11T07:30", "11T10:30", "11T11:00"]),
    ("P91", ["20T12:00", "20T13:00", "20T20:00", "20T20:30"]),
    ("P92", ["22T12:00", "22T13:00", "22T20:00", "22T20:30"]),
];

/// What is asked after the pairings are added, each of it accepted. P13A is flown eleven hours late.
const FILLED: [&str; 16] = [
    "{\"crew\":\"C1\",\"do\":\"add-crew\",\"name\":\"Ada Ray\",\"seat\":\"captain\"}",
    "{\"crew\":\"C2\",\"do\":\"add-crew\",\"name\":\"Bo Lind\",\"seat\":\"captain\"}",
    "{\"crew\":\"F1\",\"do\":\"add-crew\",\"name\":\"Zoë Roy\",\"seat\":\"first officer\"}",
    "{\"crew\":\"C1\",\"do\":\"assign\",\"pairing\":\"P7\"}",
    "{\"crew\":\"C1\",\"do\":\"assign\",\"pairing\":\"P8\"}",
    "{\"crew\":\"C1\",\"do\":\"assign\",\"pairing\":\"P13A\"}",
    "{\"crew\":\"F1\",\"do\":\"assign\",\"pairing\":\"P13A\"}",
    "{\"crew\":\"C1\",\"do\":\"assign\",\"pairing\":\"P13B\"}",
    "{\"crew\":\"C2\",\"do\":\"assign\",\"pairing\":\"P91\"}",
    "{\"begin\":\"2025-06-02T08:00Z\",\"crew\":\"C1\",\"do\":\"add-ground\",\"end\":\"2025-06-02T12:00Z\",\"ground\":\"G1\",\"task\":\"Simulator\"}",
    "{\"begin\":\"2025-06-03T08:00Z\",\"crew\":\"C2\",\"do\":\"add-ground\",\"end\":\"2025-06-03T12:00Z\",\"ground\":\"G2\",\"task\":\"Simulator\"}",
    "{\"do\":\"actual\",\"pairing\":\"P13A\",\"period\":1,\"release\":\"2025-06-11T07:30Z\",\"report\":\"2025-06-10T11:00Z\",\"segments\":[\
        {\"in\":\"2025-06-11T07:00Z\",\"out\":\"2025-06-10T23:00Z\"}]}",
    DENVER,
    AT_DENVER,
    "{\"crew\":\"C1\",\"do\":\"record-outside\",\"outside\":\"X1\",\"release\":\"2025-06-25T12:00Z\",\"report\":\"2025-06-25T08:00Z\",\"segments\":[\
        {\"in\":\"2025-06-25T11:00Z\",\"out\":\"2025-06-25T09:00Z\"}]}",
    "{\"crew\":\"C2\",\"do\":\"record-outside\",\"outside\":\"X2\",\"release\":\"2025-06-26T12:00Z\",\"report\":\"2025-06-26T08:00Z\",\"segments\":[\
        {\"in\":\"2025-06-26T11:00Z\",\"out\":\"2025-06-26T09:00Z\"}]}",
];

/// Fails unless a command is accepted.
fn expect_accepted(answer: &Result<Answer, StoreFault>) -> Result<(), Fault> {
    match answer {
        Ok(Answer::Accepted(_)) => Ok(()),
        Ok(Answer::Refused(_)) => Err(Fault::Unmade),
        Err(fault) => Err(Fault::Unanswered(*fault)),
    }
}

/// Asks a book a command, which it accepts.
fn ask<S: Alter>(alloc: Global, book: &mut Book<S>, number: u8, text: &str) -> Result<(), Fault> {
    let command = read_canonical(alloc, text)?;
    let answer = book.ask(alloc, key(number), &command);
    drop(command);
    expect_accepted(&answer)
}

/// Fills a book with all that one can have.
fn fill<S: Alter>(alloc: Global, book: &mut Book<S>) -> Result<(), Fault> {
    let mut number = 0u8;
    for &(id, times) in &PLANS {
        number = number.saturating_add(1);
        let text = plan(alloc, id, times)?;
        ask(alloc, book, number, text.as_str())?;
    }
    for &text in &FILLED {
        number = number.saturating_add(1);
        ask(alloc, book, number, text)?;
    }
    Ok(())
}

/// Makes what a roster accepts.
fn make(alloc: Global, roster: &mut Roster, verdict: &Verdict) -> Result<(), Fault>
    requires { IsUnderFreeKey roster.old verdict.now }
{
    match verdict {
        Verdict::Accept(change, _reply) => Ok(roster.apply(alloc, change)?),
        Verdict::Repeat(_) | Verdict::Refuse(_) => Err(Fault::Unmade),
    }
}

/// Asks a roster a command by the machine alone, and makes what it accepts.
fn play(alloc: Global, roster: &mut Roster, key: Key, command: &Command) -> Result<(), Fault> {
    let verdict = roster.step(alloc, key, command)?;
    make(alloc, roster, &verdict)
}

/// Asks a roster the command of a text.
fn play_text(alloc: Global, roster: &mut Roster, number: u8, text: &str) -> Result<(), Fault> {
    let command = read_canonical(alloc, text)?;
    play(alloc, roster, key(number), &command)
}

/// Fills a roster as the book is filled.
fn fill_roster(alloc: Global, roster: &mut Roster) -> Result<(), Fault> {
    let mut number = 0u8;
    for &(id, times) in &PLANS {
        number = number.saturating_add(1);
        let text = plan(alloc, id, times)?;
        play_text(alloc, roster, number, text.as_str())?;
    }
    for &text in &FILLED {
        number = number.saturating_add(1);
        play_text(alloc, roster, number, text)?;
    }
    Ok(())
}

/// Adds the ids of a table, and a line that ends them.
fn add_ids<T, V>(table: &OrdMap<Id<T>, V>, text: &mut String) -> Result<(), Fault> {
    for (id, _) in table.iter() {
        text.push_str(id.as_str())?;
        text.push_str(" ")?;
    }
    text.push_str("| ")?;
    Ok(())
}

/// The ids of its pairings, members, ground duties and outside periods, and how many exceedances and requests it has.
fn ids_of(alloc: Global, part: &Roster) -> Result<String, Fault> {
    let mut text = String::new(alloc);
    add_ids(&part.pairings, &mut text)?;
    add_ids(&part.crew, &mut text)?;
    add_ids(&part.grounds, &mut text)?;
    add_ids(&part.outsides, &mut text)?;
    let counts = format!(in alloc; "{} {}\n", part.exceedances.len(), part.requests.len())?;
    text.push_str(counts.as_str())?;
    Ok(text)
}

/// Whether a part has the zones of a roster, at `HOME` and at the bases of all its members.
fn has_bases(part: &Roster, roster: &Roster) -> bool {
    for (_who, member) in roster.crew.iter() {
        if part.bases.get(&member.base) != roster.bases.get(&member.base) {
            return false;
        }
    }
    *part.bases.home() == *roster.bases.home()
}

/// Whether the machine answers a command by the part as by the roster.
fn answers_as(
    alloc: Global,
    part: &Roster,
    roster: &Roster,
    (key, command): &(Key, Command),
) -> Result<bool, Fault> {
    Ok(part.step(alloc, *key, command)? == roster.step(alloc, *key, command)?)
}

/// Adds what a part holds; where it lacks a base, and where the machine answers the command otherwise by the part than by the roster, that
/// too.
fn add_held(
    alloc: Global,
    part: &Roster,
    roster: &Roster,
    asked: &(Key, Command),
    text: &mut String,
) -> Result<(), Fault> {
    text.push_str(ids_of(alloc, part)?.as_str())?;
    if !has_bases(part, roster) {
        text.push_str("other bases\n")?;
    }
    if !answers_as(alloc, part, roster, asked)? {
        text.push_str("otherwise\n")?;
    }
    Ok(())
}

/// Adds what the part of a command holds.
fn add_part<S: Alter>(
    alloc: Global,
    store: &mut Store<S>,
    roster: &Roster,
    asked: &(Key, Command),
    text: &mut String,
) -> Result<(), Fault> {
    let part = store.part(alloc, asked.0, &asked.1)?;
    add_held(alloc, &part, roster, asked, text)
}

/// A command of each kind, and then one whose key is held; more of bases, one of which C5 belongs to; and outside periods: a new one,
/// one of another member, and one that is replaced.
const ASKED: [(u8, &str); 19] = [
    (
        31,
        "{\"crew\":\"C1\",\"do\":\"assign\",\"pairing\":\"P92\"}",
    ),
    (
        31,
        "{\"crew\":\"C9\",\"do\":\"add-crew\",\"name\":\"Lee Roy\",\"seat\":\"captain\"}",
    ),
    (31, "{\"do\":\"cancel-pairing\",\"pairing\":\"P92\"}"),
    (31, "{\"do\":\"cancel-pairing\",\"pairing\":\"P99\"}"),
    (
        31,
        "{\"crew\":\"C2\",\"do\":\"release\",\"pairing\":\"P91\"}",
    ),
    (
        31,
        "{\"crew\":\"C1\",\"do\":\"swap\",\"other_crew\":\"C2\",\"other_pairing\":\"P91\",\"pairing\":\"P8\"}",
    ),
    (
        31,
        "{\"begin\":\"2025-06-10T18:00Z\",\"crew\":\"F1\",\"do\":\"add-ground\",\"end\":\"2025-06-10T21:00Z\",\"ground\":\"G2\",\"task\":\"Medical\"}",
    ),
    (31, "{\"do\":\"cancel-ground\",\"ground\":\"G1\"}"),
    (
        31,
        "{\"do\":\"actual\",\"pairing\":\"P13A\",\"period\":1,\"release\":\"2025-06-11T07:30Z\",\"report\":\"2025-06-10T11:00Z\",\"segments\":[\
        {\"in\":\"2025-06-11T07:00Z\",\"out\":\"2025-06-10T23:00Z\"}]}",
    ),
    (10, "{\"crew\":\"C1\",\"do\":\"assign\",\"pairing\":\"P7\"}"),
    (10, "{\"do\":\"cancel-ground\",\"ground\":\"G2\"}"),
    (
        31,
        "{\"base\":\"BOI\",\"do\":\"add-base\",\"zone\":\"MST7MDT,M3.2.0,M11.1.0\"}",
    ),
    (31, DENVER),
    (31, AT_DENVER),
    (31, AT_NO_BASE),
    (
        31,
        "{\"crew\":\"C5\",\"do\":\"assign\",\"pairing\":\"P92\"}",
    ),
    (
        31,
        "{\"crew\":\"F1\",\"do\":\"record-outside\",\"outside\":\"X9\",\"release\":\"2025-06-10T12:00Z\",\"report\":\"2025-06-10T08:00Z\",\"segments\":[\
        {\"in\":\"2025-06-10T11:00Z\",\"out\":\"2025-06-10T09:00Z\"}]}",
    ),
    (
        31,
        "{\"crew\":\"C1\",\"do\":\"record-outside\",\"outside\":\"X2\",\"release\":\"2025-06-10T12:00Z\",\"report\":\"2025-06-10T08:00Z\",\"segments\":[\
        {\"in\":\"2025-06-10T11:00Z\",\"out\":\"2025-06-10T09:00Z\"}]}",
    ),
    (
        31,
        "{\"crew\":\"C1\",\"do\":\"record-outside\",\"outside\":\"X1\",\"release\":\"2025-06-10T12:00Z\",\"report\":\"2025-06-10T08:00Z\",\"segments\":[\
        {\"in\":\"2025-06-10T11:00Z\",\"out\":\"2025-06-10T09:00Z\"}]}",
    ),
];

/// What is reported of the parts of these commands, and of that of one that adds P7.
fn parts<S: Alter>(alloc: Global, store: &mut Store<S>, roster: &Roster) -> Result<String, Fault> {
    let mut text = String::new(alloc);
    for &(number, command) in &ASKED {
        let asked = (key(number), read_canonical(alloc, command)?);
        add_part(alloc, store, roster, &asked, &mut text)?;
    }
    let again = plan(
        alloc,
        "P7",
        ["07T12:00", "07T13:00", "07T20:00", "07T20:30"],
    )?;
    let again = (key(31), read_canonical(alloc, again.as_str())?);
    add_part(alloc, store, roster, &again, &mut text)?;
    Ok(text)
}

/// What is reported of the parts that a store reads of a book, beside a copy of its roster.
fn report_over<S: Alter + Drop>(
    alloc: Global,
    conn: Connection<S>,
    roster: &Roster,
) -> Result<String, Fault> {
    if !conn.is_autocommit() {
        return Err(Fault::Unread);
    }
    let Ok(mut store) = Store::load(alloc, conn) else {
        return Err(Fault::Unread);
    };
    let whole = roster.try_clone(alloc)?;
    parts(alloc, &mut store, &whole)
}

/// What is reported over memory.
fn report_of_parts(alloc: Global) -> Result<String, Fault> {
    let Ok(zone) = Zone::read(alloc, EASTERN) else {
        return Err(Fault::Unmade);
    };
    let mut roster = Roster::empty(alloc, zone)?;
    fill_roster(alloc, &mut roster)?;
    let mut book = book_of(create(alloc, Connection::open_in_memory(alloc)?))?;
    fill(alloc, &mut book)?;
    report_over(alloc, book.into_connection(), &roster)
}

/// The pairings, the members, the ground duties and the outside periods of each part, and its exceedances and requests.
const EXPECTED: &str = "P13A P13B P7 P8 P92 | C1 F1 | G1 | X1 | 0 0\n\
    | | | | 0 0\n\
    P92 | | | | 0 0\n\
    | | | | 0 0\n\
    P91 | C2 | | | 0 0\n\
    P13A P13B P7 P8 P91 | C1 C2 F1 | G1 G2 | X1 X2 | 0 0\n\
    P13A | C1 C2 F1 | G2 | | 0 0\n\
    | C1 | G1 | | 0 0\n\
    P13A P13B P7 P8 | C1 F1 | G1 | X1 | 0 0\n\
    P13A P13B P7 P8 | C1 F1 | G1 | X1 | 0 1\n\
    | C2 | G2 | | 0 1\n\
    | | | | 0 0\n\
    | | | | 0 0\n\
    | C5 | | | 0 0\n\
    | | | | 0 0\n\
    P92 | C5 | | | 0 0\n\
    P13A | C1 F1 | | | 0 0\n\
    P13A P13B P7 P8 | C1 C2 F1 | G1 | X1 X2 | 0 0\n\
    P13A P13B P7 P8 | C1 F1 | G1 | X1 | 0 0\n\
    P7 | C1 | | | 0 0\n";

#[test]
fn parts_answer_as_the_roster(rt: HostRuntime) -> Result<(), Fail> {
    assert!(rt; report_of_parts(rt.alloc())?.as_str() == EXPECTED);
    Ok(())
}
