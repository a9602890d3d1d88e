//! Requests that a book answers in one session, asked one by one or all in one run; and a connection that a refusal hands back.

use crate::contents;
use crate::fault::Fault;
use crate::opening::{Left, create, take_up};
use crate::requests::{
    AT_DENVER, AT_NO_BASE, CANCEL, CAPTAIN, DENVER, LATE, LEFT, OFFICER, PLAN, RELEASE, RIGHT,
    requests,
};
use book::{Answer, Book, Run};
use command::{Command, Key};
use sqlite::{Alter, Connection};
use std::alloc::Global;
use std::test::Fail;

/// C1 takes P1 as request 20, and is released as request 21. Then request 20 comes again, and comes with another command. As
/// request 30 C1 is to take a pairing that isn't there, and then P1. P1 is flown as request 32, and C1 is to be released again. Then
/// come a second base and a member of it, a member of a base that isn't there, and the second base once more.
const REQUESTS: [(u8, &str); 16] = [
    (1, CAPTAIN),
    (2, OFFICER),
    (3, PLAN),
    (20, LEFT),
    (21, RELEASE),
    (20, LEFT),
    (20, CANCEL),
    (30, "{\"crew\":\"C1\",\"do\":\"assign\",\"pairing\":\"P9\"}"),
    (30, LEFT),
    (31, RIGHT),
    (32, LATE),
    (33, RELEASE),
    (40, DENVER),
    (41, AT_DENVER),
    (42, AT_NO_BASE),
    (42, DENVER),
];

/// A mark for each answer: `+` where it accepts, or else the number of the refusal.
fn marks(alloc: Global, answers: &[Answer]) -> Result<String, Fault> {
    let mut marks = String::new(alloc);
    for answer in answers {
        match answer {
            Answer::Accepted(_) => marks.push_str(" +")?,
            Answer::Refused(refusal) => {
                let number = format!(in alloc; " {}", refusal.number())?;
                marks.push_str(number.as_str())?;
            }
        }
    }
    Ok(marks)
}

/// Asks requests one by one.
fn ask_all<S: Alter>(
    alloc: Global,
    book: &mut Book<S>,
    list: &[(Key, Command)],
) -> Result<String, Fault> {
    let mut answers = Vec::new(alloc);
    for (key, command) in list {
        answers.push(book.ask(alloc, *key, command)?)?;
    }
    marks(alloc, &answers)
}

/// Asks requests in one run.
fn run_all<S: Alter>(
    alloc: Global,
    book: &mut Book<S>,
    list: &[(Key, Command)],
) -> Result<String, Fault> {
    let Run { answers, fault } = book.run(alloc, list);
    match fault {
        None => marks(alloc, &answers),
        Some(fault) => Err(fault.into()),
    }
}

/// Asks a book requests, where there is one, and closes it.
fn answer_all<S: Alter>(
    alloc: Global,
    opened: Result<Book<S>, Left<S>>,
    list: &[(Key, Command)],
    in_one_run: bool,
) -> Left<S> {
    match opened {
        Ok(mut book) => {
            let answers = if in_one_run {
                run_all(alloc, &mut book, list)
            } else {
                ask_all(alloc, &mut book, list)
            };
            (answers, book.into_connection())
        }
        Err(refused) => refused,
    }
}

/// Adds what a book answers, or what refuses it, and hands back the database.
fn add_session<S: Alter + Drop>(
    alloc: Global,
    opened: Result<Book<S>, Left<S>>,
    list: &[(Key, Command)],
    in_one_run: bool,
    text: &mut String,
) -> Result<Connection<S>, Fault> {
    let (answers, conn) = answer_all(alloc, opened, list, in_one_run);
    text.push_str(answers?.as_str())?;
    Ok(conn)
}

/// Adds `same` where all rows are those that were noted, or else the rows; and then the seats, the bases, who belongs to them, and the
/// numbers that are kept.
fn add_rows<S: Alter>(
    alloc: Global,
    conn: &mut Connection<S>,
    noted: &str,
    text: &mut String,
) -> Result<(), Fault> {
    let found = contents::rows_of(alloc, conn)?;
    text.push_str(if found.as_str() == noted {
        "\nsame\n"
    } else {
        found.as_str()
    })?;
    let seats = contents::lines_of(alloc, conn, "seat", "SELECT pairing, seat, crew FROM seat")?;
    text.push_str(seats.as_str())?;
    let bases = contents::lines_of(alloc, conn, "base", "SELECT id, zone FROM base")?;
    text.push_str(bases.as_str())?;
    let members = contents::lines_of(alloc, conn, "member", "SELECT crew, base FROM crew_base")?;
    text.push_str(members.as_str())?;
    let kept = contents::lines_of(alloc, conn, "kept", "SELECT number FROM request")?;
    text.push_str(kept.as_str())?;
    Ok(())
}

/// What is reported of the same requests in two sessions over one database, and of the rows that the second one leaves, beside those
/// that the first one left.
fn report_over<S: Alter + Drop>(
    alloc: Global,
    conn: Connection<S>,
    list: &[(Key, Command)],
    in_one_run: bool,
) -> Result<String, Fault> {
    let mut text = String::new(alloc);
    let opened = create(alloc, conn);
    let mut conn = add_session(alloc, opened, list, in_one_run, &mut text)?;
    let noted = contents::rows_of(alloc, &mut conn)?;
    text.push_str(" |")?;
    let opened = take_up(alloc, conn);
    let mut conn = add_session(alloc, opened, list, in_one_run, &mut text)?;
    add_rows(alloc, &mut conn, noted.as_str(), &mut text)?;
    Ok(text)
}

/// What is reported over memory.
fn report_of(alloc: Global, in_one_run: bool) -> Result<String, Fault> {
    let list = requests(alloc, &REQUESTS)?;
    report_over(alloc, Connection::open_in_memory(alloc)?, &list, in_one_run)
}

/// In the second session request 30 is held.
const EXPECTED: &str =
    " + + + + + + 1 4 + + + 10 + + 20 21 | + + + + + + 1 1 + + + 10 + + 20 21\nsame\n\
    seat P1|0|C1\nseat P1|1|F1\n\
    base DEN|MST7MDT,M3.2.0,M11.1.0\nbase HOME|EST5EDT,M3.2.0,M11.1.0\n\
    member C1|HOME\nmember C5|DEN\nmember F1|HOME\n\
    kept 1\nkept 2\nkept 20\nkept 21\nkept 3\nkept 30\nkept 31\nkept 32\nkept 40\nkept 41\n";

#[test]
fn requests_that_are_asked_one_by_one_act_once(rt: HostRuntime) -> Result<(), Fail> {
    assert_eq!(rt; report_of(rt.alloc(), false)?.as_str(), EXPECTED);
    Ok(())
}

#[test]
fn requests_of_one_run_act_once(rt: HostRuntime) -> Result<(), Fail> {
    assert_eq!(rt; report_of(rt.alloc(), true)?.as_str(), EXPECTED);
    Ok(())
}

/// What is reported over memory of statements that are run in turn, each before a book is made (`true`) or taken up: what refuses
/// that.
fn opened_after(alloc: Global, steps: &[(&str, bool)]) -> Result<String, Fault> {
    opened_over(alloc, Connection::open_in_memory(alloc)?, steps)
}

fn opened_over<S: Alter + Drop>(
    alloc: Global,
    mut conn: Connection<S>,
    steps: &[(&str, bool)],
) -> Result<String, Fault> {
    let mut text = String::new(alloc);
    for (statement, is_new) in steps {
        conn.execute_batch(statement)?;
        let opened = if *is_new {
            create(alloc, conn)
        } else {
            take_up(alloc, conn)
        };
        conn = add_session(alloc, opened, &[], false, &mut text)?;
    }
    Ok(text)
}

#[test]
fn what_is_refused_hands_the_connection_back(rt: HostRuntime) -> Result<(), Fail> {
    let text = opened_after(
        rt.alloc(),
        &[
            ("", false),
            ("", true),
            ("INSERT INTO seat VALUES ('P9', 0, 'C1')", false),
            ("DELETE FROM seat", false),
            ("", true),
            ("UPDATE book SET version = 7", false),
            ("UPDATE book SET version = 2", false),
        ],
    )?;
    assert_eq!(rt;
        text.as_str(),
        "40 NotABook\n41 Damaged seat\n43 NotEmpty\n42 Version\n"
    );
    Ok(())
}
