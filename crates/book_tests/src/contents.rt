//! What the tables hold, read by plain SELECTs.

use crate::fault::Fault;
use sqlite::types::ValueRef;
use sqlite::{Alter, Connection, Error, Row};
use std::alloc::Global;
use tables::book_schema::has_table;

/// Each table of a book with a SELECT of all its columns.
const TABLES: [(&str, &str); 13] = [
    ("book", "SELECT one, version, zone FROM book"),
    ("crew", "SELECT id, seat, name FROM crew"),
    ("pairing", "SELECT id FROM pairing"),
    (
        "period",
        "SELECT pairing, number, report_at, release_at, act_report, act_release FROM period",
    ),
    (
        "segment",
        "SELECT pairing, period, number, flight, origin, destination, out_at, in_at, act_out, act_in FROM segment",
    ),
    ("seat", "SELECT pairing, seat, crew FROM seat"),
    (
        "ground",
        "SELECT id, crew, task, begin_at, end_at FROM ground",
    ),
    (
        "exceedance",
        "SELECT number, part, crew, section, pairing, period FROM exceedance",
    ),
    (
        "request",
        "SELECT number, part, command, reply FROM request",
    ),
    ("base", "SELECT id, zone FROM base"),
    ("crew_base", "SELECT crew, base FROM crew_base"),
    (
        "outside",
        "SELECT id, crew, report_at, release_at FROM outside",
    ),
    (
        "outside_segment",
        "SELECT outside, number, out_at, in_at FROM outside_segment",
    ),
];

/// A value as the shell `sqlite3` prints it.
fn cell(alloc: Global, row: &Row, at: usize) -> Result<String, Error> {
    match row.get_ref(at)? {
        ValueRef::Null => Ok(String::new(alloc)),
        ValueRef::Int(number) => Ok(format!(in alloc; "{number}")?),
        _ => row.get(at),
    }
}

/// The name, and the row's values with `|` between them.
fn line(alloc: Global, name: &str, row: &Row) -> Result<String, Error> {
    let mut line = String::from_str(alloc, name)?;
    for at in 0..row.column_count() {
        line.push_str(if at == 0 { " " } else { "|" })?;
        line.push_str(cell(alloc, row, at)?.as_str())?;
    }
    Ok(line)
}

/// Adds a line under this name for each row that a SELECT finds.
fn add_lines<S: Alter>(
    alloc: Global,
    conn: &mut Connection<S>,
    name: &str,
    select: &str,
    lines: &mut Vec<String>,
) -> Result<(), Error> {
    for row in &conn.query_all(select, &[])? {
        lines.push(line(alloc, name, row)?)?;
    }
    Ok(())
}

/// Lines in the order of the alphabet, as one text.
pub fn in_order(alloc: Global, mut lines: Vec<String>) -> Result<String, Fault> {
    lines.sort()?;
    let mut all = String::new(alloc);
    for line in &lines {
        all.push_str(line.as_str())?;
        all.push_str("\n")?;
    }
    Ok(all)
}

/// The rows that a SELECT finds, as lines under this name.
pub fn lines_of<S: Alter>(
    alloc: Global,
    conn: &mut Connection<S>,
    name: &str,
    select: &str,
) -> Result<String, Fault> {
    let mut lines = Vec::new(alloc);
    add_lines(alloc, conn, name, select, &mut lines)?;
    in_order(alloc, lines)
}

/// All rows of the tables of a book that are there, as lines that begin with the name of their table.
pub fn rows_of<S: Alter>(alloc: Global, conn: &mut Connection<S>) -> Result<String, Fault> {
    let mut lines = Vec::new(alloc);
    for &(name, select) in &TABLES {
        if has_table(conn, name) {
            add_lines(alloc, conn, name, select, &mut lines)?;
        }
    }
    in_order(alloc, lines)
}
