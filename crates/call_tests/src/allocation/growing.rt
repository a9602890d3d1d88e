//! What grows by one value at a time, or stays as it is: a table, a text, a history.

use crate::allocation::reports::MemoryReports;
use crate::allocation::same::are_tables_same;
use crate::fault::Fault;
use crate::requests::{DUTIES, eastern, key, requests};
use command::{Command, Instruction, Key};
use duty::{Duty, History, Kind};
use std::alloc::Global;
use time117::{Minute, Zone};
use values::{MemoryFault, OrdMap, TryClone};

// ---- A table.

/// Gives a key a number. A table that finds no memory has to be as this other one, which is given it next.
fn fill_in(
    reports: &mut MemoryReports,
    table: &mut OrdMap<Key, u8>,
    other: &mut OrdMap<Key, u8>,
    number: u8,
) -> Result<(), Fault> {
    if table.insert(key(number), number).is_err() {
        reports.memory = true;
        if !are_tables_same(table, other) {
            return Err(Fault::Changed);
        }
        table.insert(key(number), number)?;
    }
    other.insert(key(number), number)?;
    Ok(())
}

fn fill_both(
    alloc: Global,
    reports: &mut MemoryReports,
    table: &mut OrdMap<Key, u8>,
    other: &mut OrdMap<Key, u8>,
) -> Result<String, Fault> {
    for number in 0..=u8::MAX {
        fill_in(reports, table, other, number.wrapping_mul(37))?;
    }
    if are_tables_same(table, other) {
        Ok(format!(in alloc; "{} keys", table.len())?)
    } else {
        Err(Fault::Otherwise)
    }
}

/// Fills a table, whose keys come in no order.
pub fn fill(alloc: Global, reports: &mut MemoryReports) -> Result<String, Fault> {
    let mut table = OrdMap::new(alloc);
    let mut other = OrdMap::new(alloc);
    let text = fill_both(alloc, reports, &mut table, &mut other);
    drop(table);
    drop(other);
    text
}

// ---- A text.

const INSTANT: &str = "2025-06-10T11:00Z";

/// Whether the instant is written this many times, and nothing else is.
fn is_written(text: &[u8], times: usize) -> bool {
    text.len() == times.saturating_mul(INSTANT.len())
        && text
            .chunks(INSTANT.len())
            .all(|written| written == INSTANT.as_bytes())
}

/// Writes the instant behind this many.
fn write_behind(
    reports: &mut MemoryReports,
    minute: Minute,
    text: &mut Vec<u8>,
    times: usize,
) -> Result<(), Fault> {
    if minute.write(text).is_err() {
        reports.memory = true;
        if !is_written(text, times) {
            return Err(Fault::Changed);
        }
        minute.write(text)?;
    }
    Ok(())
}

/// Writes an instant ten times.
pub fn write(alloc: Global, reports: &mut MemoryReports) -> Result<String, Fault> {
    let Ok(minute) = Minute::read(INSTANT.as_bytes()) else {
        return Err(Fault::Unmade);
    };
    let mut text = Vec::new(alloc);
    for times in 0..10 {
        write_behind(reports, minute, &mut text, times)?;
    }
    if !is_written(&text, 10) {
        return Err(Fault::Otherwise);
    }
    Ok(format!(in alloc; "{} bytes", text.len())?)
}

// ---- A history.

/// How many duties a history has, and its minutes up to the end of the calendar.
#[derive(Clone, Copy, PartialEq)]
struct Minutes {
    duties: usize,
    flight: u64,
    flight_duty: u64,
    duty: u64,
}

/// The first minute that no instant has.
const END: u64 = 52_596_000;

fn minutes_of(history: &History) -> Minutes {
    Minutes {
        duties: history.duties().len(),
        flight: history.minutes_before(Kind::Flight, END, END),
        flight_duty: history.minutes_before(Kind::FlightDuty, END, END),
        duty: history.minutes_before(Kind::Duty, END, END),
    }
}

/// The duty that a command adds: the first period of a pairing, or a ground duty.
fn duty(alloc: Global, command: &Command) -> Result<Option<Duty>, MemoryFault> {
    match command.instruction() {
        Instruction::AddPairing(pairing) => match pairing.periods().first() {
            Some(period) => Ok(Some(Duty::Fdp(period.try_clone(alloc)?))),
            None => Ok(None),
        },
        Instruction::AddGround(ground) => Ok(Some(Duty::Ground(ground.try_clone(alloc)?))),
        _ => Ok(None),
    }
}

fn add(
    alloc: Global,
    reports: &mut MemoryReports,
    history: &mut History,
    duty: &Duty,
    zone: &Zone,
) -> Result<(), Fault> {
    let before = minutes_of(history);
    if history.insert(alloc, duty.try_clone(alloc)?, zone).is_err() {
        reports.memory = true;
        if minutes_of(history) != before {
            return Err(Fault::Changed);
        }
        history.insert(alloc, duty.try_clone(alloc)?, zone)?;
    }
    Ok(())
}

/// Adds the duty of a command.
fn add_of(
    alloc: Global,
    reports: &mut MemoryReports,
    history: &mut History,
    command: &Command,
    zone: &Zone,
) -> Result<(), Fault> {
    let Some(duty) = duty(alloc, command)? else {
        return Err(Fault::Unmade);
    };
    let added = add(alloc, reports, history, &duty, zone);
    drop(duty);
    added
}

fn add_all(
    alloc: Global,
    reports: &mut MemoryReports,
    history: &mut History,
    commands: &[(Key, Command)],
) -> Result<String, Fault> {
    let zone = eastern(alloc)?;
    for (_key, command) in commands {
        add_of(alloc, reports, history, command, &zone)?;
    }
    let Minutes {
        duties,
        flight,
        flight_duty,
        duty,
    } = minutes_of(history);
    Ok(format!(in alloc;
        "{duties} duties, flight {flight}, flight duty {flight_duty}, duty {duty}"
    )?)
}

/// Adds duties to a history.
pub fn insert(alloc: Global, reports: &mut MemoryReports) -> Result<String, Fault> {
    let commands = requests(alloc, &DUTIES)?;
    let mut history = History::empty(alloc);
    let text = add_all(alloc, reports, &mut history, &commands);
    drop(history);
    text
}
