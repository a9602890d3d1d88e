//! All that a book shows of two members and two pairings, a member's limits, its exceedances and its lists, and what it keeps under the
//! first number, as one text.

use crate::fault::Fault;
use book::{Book, Show};
use duty::{CrewId, PairingId};
use limits_report::limits_text;
use report::{
    ReportFault, board_text, exceedance_text, members_text, pairing_text, pairings_text,
    request_text, roster_text,
};
use request::{Listed, RequestNumber, Subject};
use sqlite::Alter;
use std::alloc::Global;
use values::{MemoryFault, Text};

/// What is shown.
type Report = Subject<&'static str, &'static str>;

const REPORTS: [Report; 10] = [
    Report::Crew("C1"),
    Report::Crew("F1"),
    Report::Limits {
        crew: "C1",
        with: Some("P20"),
    },
    Report::Pairing("P10"),
    Report::Pairing("P20"),
    Report::Exceedances,
    Report::Members,
    Report::Pairings(Listed::All),
    Report::Pairings(Listed::Open),
    Report::Request(RequestNumber::FIRST),
];

/// A copy of an id.
fn text(alloc: Global, id: &str) -> Result<Text, Fault> {
    Ok(Text::new(String::from_str(alloc, id)?))
}

/// What the book is asked to show.
fn show_of(alloc: Global, report: &Report) -> Result<Show, Fault> {
    Ok(match report {
        Report::Crew(id) => Show::Crew(CrewId::new(text(alloc, id)?)),
        Report::Limits { crew, with } => Show::Limits {
            crew: CrewId::new(text(alloc, crew)?),
            with: match with {
                Some(id) => Some(PairingId::new(text(alloc, id)?)),
                None => None,
            },
        },
        Report::Pairing(id) => Show::Pairing(PairingId::new(text(alloc, id)?)),
        Report::Exceedances => Show::Exceedances,
        Report::Members => Show::Members,
        Report::Pairings(which) => Show::Pairings(*which),
        Report::Board(days) => Show::Board(*days),
        Report::Request(number) => Show::Request(*number),
    })
}

/// A report of a list.
fn as_report(text: Result<String, MemoryFault>) -> Result<String, ReportFault> {
    match text {
        Ok(text) => Ok(text),
        Err(_) => Err(ReportFault::Memory),
    }
}

/// The text of what is shown; nothing of a member or a pairing that isn't there.
fn text_of<S: Alter>(alloc: Global, book: &mut Book<S>, what: &Show) -> Result<String, Fault> {
    let Ok(roster) = book.show(alloc, what) else {
        return Err(Fault::Memory);
    };
    let text = match what {
        Show::Crew(who) => roster_text(alloc, &roster, who),
        Show::Limits { crew, with } => limits_text(alloc, &roster, crew, with.as_ref()),
        Show::Pairing(id) => pairing_text(alloc, &roster, id),
        Show::Exceedances => exceedance_text(alloc, &roster),
        Show::Members => as_report(members_text(alloc, &roster)),
        Show::Pairings(which) => as_report(pairings_text(alloc, &roster, *which)),
        Show::Board(days) => as_report(board_text(alloc, &roster, *days)),
        Show::Request(number) => as_report(request_text(alloc, &roster, *number)),
    };
    drop(roster);
    match text {
        Ok(text) => Ok(text),
        Err(ReportFault::Memory) => Err(Fault::Memory),
        Err(_) => Ok(String::new(alloc)),
    }
}

/// The text of one report.
fn shown<S: Alter>(alloc: Global, book: &mut Book<S>, report: &Report) -> Result<String, Fault> {
    let what = show_of(alloc, report)?;
    text_of(alloc, book, &what)
}

/// All that a book shows.
pub fn read_all<S: Alter>(alloc: Global, book: &mut Book<S>) -> Result<String, Fault> {
    let mut all = String::new(alloc);
    for report in &REPORTS {
        all.push_str(shown(alloc, book, report)?.as_str())?;
    }
    Ok(all)
}
