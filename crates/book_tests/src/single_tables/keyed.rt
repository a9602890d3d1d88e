//! What the functions of the tables find by key: each record is copied, and the copy is reported as a line.

ghost use Rattle.std.specs.Prelude.{OnOk};
ghost use Rattle.sqlite.specs.Held.{state};
ghost use Rattle.tables.specs.Calls.{HoldsBook};

use crate::fault::Fault;
use crate::single_tables::making::make_tables;
use sqlite::{Alter, Connection};
use std::alloc::Global;
use std::test::Fail;
use tables::TableFault;
use tables::book::{BookRecord, load_book};
use tables::book_schema::{is_book, is_empty};
use tables::crew::{CrewRecord, crew_by_id};
use tables::exceedance::{ExceedanceRecord, exceedances};
use tables::ground::{GroundRecord, ground_by_id, grounds_by_crew};
use tables::pairing::{PairingRecord, pairing_by_id};
use tables::period::{PeriodRecord, periods_of};
use tables::request::{RequestRecord, request_by_key};
use tables::seat::{SeatRecord, seats_by_crew, seats_of};
use tables::segment::{SegmentRecord, segments_of};
use values::TryClone;

/// A step of a test: a statement that is run, or what is looked for.
#[derive(Clone, Copy)]
enum Step {
    Run(&'static str),
    /// Whether there are no tables.
    IsEmpty,
    /// Whether the tables of a book are there.
    IsBook,
    Book,
    Member(&'static str),
    Pairing(&'static str),
    PeriodsOf(&'static str),
    SegmentsOf(&'static str),
    SeatsOf(&'static str),
    SeatsBy(&'static str),
    Ground(&'static str),
    GroundsBy(&'static str),
    /// A request's number and part.
    Request(i64, u32),
    Exceedances,
}

/// A record that is printed as a line.
pub trait AsLine: TryClone + Drop {
    /// The record's columns with `|` between them, as the shell `sqlite3` prints a row.
    fn line(&self, alloc: Global) -> Result<String, Fault>;
}

/// A number, or nothing.
fn if_any(alloc: Global, number: Option<u32>) -> Result<String, Fault> {
    Ok(match number {
        Some(number) => format!(in alloc; "{number}")?,
        None => String::new(alloc),
    })
}

impl AsLine for BookRecord {
    fn line(&self, alloc: Global) -> Result<String, Fault> {
        let zone = self.zone.as_str();
        Ok(format!(in alloc; "{}|{}|{zone}", self.one, self.version)?)
    }
}

impl AsLine for CrewRecord {
    fn line(&self, alloc: Global) -> Result<String, Fault> {
        let (id, name) = (self.id.as_str(), self.name.as_str());
        Ok(format!(in alloc; "{id}|{}|{name}", self.seat)?)
    }
}

impl AsLine for PairingRecord {
    fn line(&self, alloc: Global) -> Result<String, Fault> {
        Ok(String::from_str(alloc, self.id.as_str())?)
    }
}

impl AsLine for PeriodRecord {
    fn line(&self, alloc: Global) -> Result<String, Fault> {
        let pairing = self.pairing.as_str();
        let planned = format!(in alloc; "{}|{}", self.report_at, self.release_at)?;
        let report = if_any(alloc, self.act_report)?;
        let release = if_any(alloc, self.act_release)?;
        Ok(format!(in alloc; "{pairing}|{}|{planned}|{report}|{release}", self.number)?)
    }
}

impl AsLine for SegmentRecord {
    fn line(&self, alloc: Global) -> Result<String, Fault> {
        let pairing = self.pairing.as_str();
        let (flight, from, to) = (
            self.flight.as_str(),
            self.origin.as_str(),
            self.destination.as_str(),
        );
        let key = format!(in alloc; "{pairing}|{}|{}", self.period, self.number)?;
        let planned = format!(in alloc; "{}|{}", self.out_at, self.in_at)?;
        let block_out = if_any(alloc, self.act_out)?;
        let block_in = if_any(alloc, self.act_in)?;
        Ok(format!(in alloc; "{key}|{flight}|{from}|{to}|{planned}|{block_out}|{block_in}")?)
    }
}

impl AsLine for SeatRecord {
    fn line(&self, alloc: Global) -> Result<String, Fault> {
        let (pairing, crew) = (self.pairing.as_str(), self.crew.as_str());
        Ok(format!(in alloc; "{pairing}|{}|{crew}", self.seat)?)
    }
}

impl AsLine for GroundRecord {
    fn line(&self, alloc: Global) -> Result<String, Fault> {
        let (id, crew, task) = (self.id.as_str(), self.crew.as_str(), self.task.as_str());
        Ok(format!(in alloc; "{id}|{crew}|{task}|{}|{}", self.begin_at, self.end_at)?)
    }
}

impl AsLine for ExceedanceRecord {
    fn line(&self, alloc: Global) -> Result<String, Fault> {
        let (crew, pairing) = (self.crew.as_str(), self.pairing.as_str());
        let key = format!(in alloc; "{}|{}", self.number, self.part)?;
        Ok(format!(in alloc; "{key}|{crew}|{}|{pairing}|{}", self.section, self.period)?)
    }
}

impl AsLine for RequestRecord {
    fn line(&self, alloc: Global) -> Result<String, Fault> {
        let (command, reply) = (self.command.as_str(), self.reply.as_str());
        Ok(format!(in alloc; "{}|{}|{command}|{reply}", self.number, self.part)?)
    }
}

/// A copy of a record as a line.
fn line_of_copy<R: AsLine>(alloc: Global, record: &R) -> Result<String, Fault> {
    match record.try_clone(alloc) {
        Ok(copy) => copy.line(alloc),
        Err(_) => Err(Fault::Memory),
    }
}

/// Copies of what is found, as lines, or the line `none`.
fn lines_of<R: AsLine>(
    alloc: Global,
    records: Result<Vec<R>, TableFault>,
) -> Result<Vec<String>, Fault> {
    let mut lines = Vec::new(alloc);
    for record in &records? {
        lines.push(line_of_copy(alloc, record)?)?;
    }
    if lines.is_empty() {
        lines.push(String::from_str(alloc, "none")?)?;
    }
    Ok(lines)
}

/// Lines as one text.
fn join_lines(alloc: Global, lines: &[String]) -> Result<String, Fault> {
    let mut all = String::new(alloc);
    for line in lines {
        all.push_str(line.as_str())?;
        all.push_str("\n")?;
    }
    Ok(all)
}

/// What is found, in the order of the alphabet.
pub fn in_order<R: AsLine>(
    alloc: Global,
    records: Result<Vec<R>, TableFault>,
) -> Result<String, Fault> {
    let mut lines = lines_of(alloc, records)?;
    lines.sort()?;
    join_lines(alloc, lines.as_slice())
}

/// What is found, as it comes.
fn in_turn<R: AsLine>(alloc: Global, records: Result<Vec<R>, TableFault>) -> Result<String, Fault> {
    join_lines(alloc, lines_of(alloc, records)?.as_slice())
}

fn yes(alloc: Global, holds: bool) -> Result<String, Fault> {
    Ok(String::from_str(alloc, if holds { "yes\n" } else { "no\n" })?)
}

/// Sees to what each call on a table owes.
pub fn look<S: Alter>(alloc: Global, conn: &Connection<S>) -> Result<(), Fault>
    ensures { OnOk result (HoldsBook (state S.Store conn.now)) }
{
    if is_book(alloc, conn)? {
        Ok(())
    } else {
        Err(Fault::Unread)
    }
}

/// The records that are found.
fn records_of<S: Alter>(
    alloc: Global,
    conn: &mut Connection<S>,
    step: Step,
) -> Result<String, Fault> {
    look(alloc, conn)?;
    match step {
        Step::Book => in_order(alloc, load_book(alloc, conn)),
        Step::Member(id) => in_order(alloc, crew_by_id(alloc, conn, id)),
        Step::Pairing(id) => in_order(alloc, pairing_by_id(alloc, conn, id)),
        Step::PeriodsOf(id) => in_order(alloc, periods_of(alloc, conn, id)),
        Step::SegmentsOf(id) => in_order(alloc, segments_of(alloc, conn, id)),
        Step::SeatsOf(id) => in_order(alloc, seats_of(alloc, conn, id)),
        Step::SeatsBy(id) => in_order(alloc, seats_by_crew(alloc, conn, id)),
        Step::Ground(id) => in_order(alloc, ground_by_id(alloc, conn, id)),
        Step::GroundsBy(id) => in_order(alloc, grounds_by_crew(alloc, conn, id)),
        Step::Request(number, part) => in_order(alloc, request_by_key(alloc, conn, number, part)),
        Step::Exceedances => in_turn(alloc, exceedances(alloc, conn)),
        _ => Err(Fault::Unread),
    }
}

/// What is reported of a step; nothing of a statement.
fn do_step<S: Alter>(alloc: Global, conn: &mut Connection<S>, step: Step) -> Result<String, Fault> {
    match step {
        Step::Run(statement) => {
            conn.execute_batch(statement)?;
            Ok(String::new(alloc))
        }
        Step::IsEmpty => yes(alloc, is_empty(conn)),
        Step::IsBook => yes(alloc, is_book(alloc, conn)?),
        _ => records_of(alloc, conn, step),
    }
}

/// What is reported of steps that are taken in turn.
fn do_all_steps<S: Alter>(
    alloc: Global,
    conn: &mut Connection<S>,
    steps: &[Step],
) -> Result<String, Fault> {
    let mut text = String::new(alloc);
    for step in steps {
        text.push_str(do_step(alloc, conn, *step)?.as_str())?;
    }
    Ok(text)
}

/// What is reported of these steps before a book is made, and of those in an empty book.
fn report_over<S: Alter + Drop>(
    alloc: Global,
    mut conn: Connection<S>,
    before: &[Step],
    steps: &[Step],
) -> Result<String, Fault> {
    let mut text = do_all_steps(alloc, &mut conn, before)?;
    make_tables(alloc, &mut conn)?;
    text.push_str(do_all_steps(alloc, &mut conn, steps)?.as_str())?;
    Ok(text)
}

/// The same, over memory.
fn over_memory(alloc: Global, before: &[Step], steps: &[Step]) -> Result<String, Fault> {
    report_over(alloc, Connection::open_in_memory(alloc)?, before, steps)
}

#[test]
fn records_are_found_by_key(rt: HostRuntime) -> Result<(), Fail> {
    let text = over_memory(
        rt.alloc(),
        &[Step::IsEmpty, Step::IsBook],
        &[
            Step::IsEmpty,
            Step::IsBook,
            Step::Run("INSERT INTO crew VALUES ('C1', 0, 'Ada Ray'), ('F1', 1, 'Zoë Lind')"),
            Step::Run("INSERT INTO pairing VALUES ('P1'), ('P2')"),
            Step::Run(
                "INSERT INTO period VALUES ('P1', 1, 100, 700, 110, 720), ('P1', 2, 800, 900, NULL, NULL), ('P2', 1, 100, 700, NULL, NULL)",
            ),
            Step::Run(
                "INSERT INTO segment VALUES ('P1', 1, 1, 'RB1', 'BOS', 'IAD', 160, 610, 170, 620)",
            ),
            Step::Run(
                "INSERT INTO segment VALUES ('P1', 2, 1, 'RB2', 'IAD', 'BOS', 810, 890, NULL, NULL)",
            ),
            Step::Run(
                "INSERT INTO segment VALUES ('P2', 1, 1, 'RB1', 'BOS', 'IAD', 160, 610, NULL, NULL)",
            ),
            Step::Run("INSERT INTO seat VALUES ('P1', 0, 'C1'), ('P1', 1, 'F1'), ('P2', 0, 'C1')"),
            Step::Run(
                "INSERT INTO ground VALUES ('G1', 'C1', 'Simulator', 720, 780), ('G2', 'F1', 'Simulator', 720, 780)",
            ),
            Step::Run("INSERT INTO ground VALUES ('G3', 'C1', 'Training', 1, 2)"),
            Step::Run(
                "INSERT INTO request VALUES (7, 0, 'a', 'b'), (7, 1, 'c', 'd'), (9223372036854775807, 10000, 'e', 'f')",
            ),
            Step::Book,
            Step::Member("F1"),
            Step::Member("F2"),
            Step::Pairing("P2"),
            Step::Pairing("P3"),
            Step::PeriodsOf("P1"),
            Step::PeriodsOf("P3"),
            Step::SegmentsOf("P1"),
            Step::SegmentsOf("P3"),
            Step::SeatsOf("P1"),
            Step::SeatsOf("P3"),
            Step::SeatsBy("C1"),
            Step::SeatsBy("C2"),
            Step::Ground("G2"),
            Step::Ground("G4"),
            Step::GroundsBy("C1"),
            Step::GroundsBy("C2"),
            Step::Request(7, 1),
            Step::Request(9_223_372_036_854_775_807, 10_000),
            Step::Request(8, 0),
        ],
    )?;
    assert_eq!(rt;
        text.as_str(),
        "yes\nno\nno\nyes\n\
        1|2|EST5EDT,M3.2.0,M11.1.0\n\
        F1|1|Zoë Lind\nnone\n\
        P2\nnone\n\
        P1|1|100|700|110|720\nP1|2|800|900||\nnone\n\
        P1|1|1|RB1|BOS|IAD|160|610|170|620\nP1|2|1|RB2|IAD|BOS|810|890||\nnone\n\
        P1|0|C1\nP1|1|F1\nnone\n\
        P1|0|C1\nP2|0|C1\nnone\n\
        G2|F1|Simulator|720|780\nnone\n\
        G1|C1|Simulator|720|780\nG3|C1|Training|1|2\nnone\n\
        7|1|c|d\n9223372036854775807|10000|e|f\nnone\n"
    );
    Ok(())
}

#[test]
fn exceedances_come_in_the_order_of_key_member_and_section(rt: HostRuntime) -> Result<(), Fail> {
    let text = over_memory(
        rt.alloc(),
        &[Step::IsEmpty],
        &[
            Step::Exceedances,
            Step::Run(
                "INSERT INTO exceedance VALUES (113, 0, 'F1', 2, 'P1', 1), (113, 0, 'C1', 8, 'P1', 1)",
            ),
            Step::Run(
                "INSERT INTO exceedance VALUES (113, 0, 'C1', 2, 'P1', 1), (9, 0, 'C2', 5, 'P1', 1)",
            ),
            Step::Run(
                "INSERT INTO exceedance VALUES (113, 1, 'C1', 1, 'P1', 1), (9223372036854775807, 10000, 'C1', 2, 'P1', 1)",
            ),
            Step::Exceedances,
        ],
    )?;
    assert_eq!(rt;
        text.as_str(),
        "yes\nnone\n\
        9|0|C2|5|P1|1\n113|0|C1|2|P1|1\n113|0|C1|8|P1|1\n113|0|F1|2|P1|1\n113|1|C1|1|P1|1\n\
        9223372036854775807|10000|C1|2|P1|1\n"
    );
    Ok(())
}
