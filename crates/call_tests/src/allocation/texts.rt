//! Texts that are made, and texts that are read. Such a call changes nothing, so it can only be made again.

use crate::allocation::machine::last_state;
use crate::allocation::reports::MemoryReports;
use crate::fault::Fault;
use crate::requests::{REQUESTS, requests};
use codec::schedule_of_csv;
use command::Command;
use duty::{CrewId, Pairing, PairingId};
use limits_report::limits_text;
use report::{
    ReportFault, board_text, exceedance_text, members_text, pairing_text, pairings_text,
    request_text, roster_text,
};
use report_json::{
    board_json, exceedances_json, limits_json, members_json, pairing_json, pairings_json,
    request_json, roster_json,
};
use request::{Days, Form, Listed, RequestNumber, Subject};
use roster::Roster;
use std::alloc::Global;
use stored_json::CodecFault;
use values::MemoryFault;

// ---- Kept texts.

/// Whether this is the kept text of a command.
fn is_kept_text(
    alloc: Global,
    reports: &mut MemoryReports,
    command: &Command,
    kept: &str,
) -> Result<bool, MemoryFault> {
    let text = match stored_json::canonical(alloc, command) {
        Ok(text) => text,
        Err(_) => {
            reports.memory = true;
            stored_json::canonical(alloc, command)?
        }
    };
    Ok(text.as_str() == kept)
}

/// Writes commands of all eleven kinds.
pub fn canonical(alloc: Global, reports: &mut MemoryReports) -> Result<String, Fault> {
    let requests = requests(alloc, &REQUESTS)?;
    for ((_key, command), (_number, kept)) in requests.iter().zip(REQUESTS.iter()) {
        if !is_kept_text(alloc, reports, command, kept)? {
            return Err(Fault::Otherwise);
        }
    }
    Ok(format!(in alloc; "{} texts", requests.len())?)
}

// ---- Reports.

/// The reports that name nobody.
const LISTS: [Subject<&'static CrewId, &'static PairingId>; 4] = [
    Subject::Exceedances,
    Subject::Members,
    Subject::Pairings(Listed::All),
    Subject::Pairings(Listed::Open),
];

/// Makes a report of a list.
fn as_report(text: Result<String, MemoryFault>) -> Result<String, ReportFault> {
    match text {
        Ok(text) => Ok(text),
        Err(_) => Err(ReportFault::Memory),
    }
}

fn text_once(
    alloc: Global,
    roster: &Roster,
    subject: &Subject<&CrewId, &PairingId>,
) -> Result<String, ReportFault> {
    match subject {
        Subject::Crew(who) => roster_text(alloc, roster, who),
        Subject::Limits { crew, with } => limits_text(alloc, roster, crew, *with),
        Subject::Pairing(id) => pairing_text(alloc, roster, id),
        Subject::Exceedances => exceedance_text(alloc, roster),
        Subject::Members => as_report(members_text(alloc, roster)),
        Subject::Pairings(which) => as_report(pairings_text(alloc, roster, *which)),
        Subject::Board(days) => as_report(board_text(alloc, roster, *days)),
        Subject::Request(number) => as_report(request_text(alloc, roster, *number)),
    }
}

fn json_once(
    alloc: Global,
    roster: &Roster,
    subject: &Subject<&CrewId, &PairingId>,
) -> Result<String, ReportFault> {
    match subject {
        Subject::Crew(who) => roster_json(alloc, roster, who),
        Subject::Limits { crew, with } => limits_json(alloc, roster, crew, *with),
        Subject::Pairing(id) => pairing_json(alloc, roster, id),
        Subject::Exceedances => as_report(exceedances_json(alloc, roster)),
        Subject::Members => as_report(members_json(alloc, roster)),
        Subject::Pairings(which) => as_report(pairings_json(alloc, roster, *which)),
        Subject::Board(days) => as_report(board_json(alloc, roster, *days)),
        Subject::Request(number) => as_report(request_json(alloc, roster, *number)),
    }
}

fn report_once(
    alloc: Global,
    roster: &Roster,
    subject: &Subject<&CrewId, &PairingId>,
    form: Form,
) -> Result<String, ReportFault> {
    match form {
        Form::Text => text_once(alloc, roster, subject),
        Form::Json => json_once(alloc, roster, subject),
    }
}

/// Adds a report.
fn add_report(
    alloc: Global,
    reports: &mut MemoryReports,
    roster: &Roster,
    subject: &Subject<&CrewId, &PairingId>,
    form: Form,
    text: &mut String,
) -> Result<(), Fault> {
    let made = match report_once(alloc, roster, subject, form) {
        Err(ReportFault::Memory) => {
            reports.memory = true;
            report_once(alloc, roster, subject, form)?
        }
        made => made?,
    };
    text.push_str(made.as_str())?;
    Ok(())
}

/// Makes the reports of all members and all pairings, that of the exceedances, the lists, the board of two days, and that of the first
/// request.
fn all_reports(
    alloc: Global,
    reports: &mut MemoryReports,
    roster: &Roster,
    form: Form,
) -> Result<String, Fault> {
    let mut text = String::new(alloc);
    for (who, _member) in roster.crew.iter() {
        add_report(alloc, reports, roster, &Subject::Crew(who), form, &mut text)?;
        let limits = Subject::Limits {
            crew: who,
            with: None,
        };
        add_report(alloc, reports, roster, &limits, form, &mut text)?;
    }
    for (id, _rostered) in roster.pairings.iter() {
        add_report(
            alloc,
            reports,
            roster,
            &Subject::Pairing(id),
            form,
            &mut text,
        )?;
    }
    for subject in &LISTS {
        add_report(alloc, reports, roster, subject, form, &mut text)?;
    }
    let Some(days) = Days::read("2025-06-11", "2025-06-12") else {
        return Err(Fault::Otherwise);
    };
    add_report(
        alloc,
        reports,
        roster,
        &Subject::Board(days),
        form,
        &mut text,
    )?;
    let first = Subject::Request(RequestNumber::FIRST);
    add_report(alloc, reports, roster, &first, form, &mut text)?;
    Ok(text)
}

/// Makes all reports of a roster in a form.
pub fn report_all(alloc: Global, reports: &mut MemoryReports, form: Form) -> Result<String, Fault> {
    let roster = last_state(alloc)?;
    let text = all_reports(alloc, reports, &roster, form);
    drop(roster);
    text
}

/// Makes all reports of a roster in JSON, and counts their lines and bytes.
pub fn count_json(alloc: Global, reports: &mut MemoryReports) -> Result<String, Fault> {
    let text = report_all(alloc, reports, Form::Json)?;
    let count = count_text(alloc, reports, &Some(RequestNumber::FIRST))?;
    let last = count_text(alloc, reports, &None)?;
    let lines = text.lines().count();
    Ok(format!(in alloc; "{lines} reports, {} bytes\n{count}{last}", text.len())?)
}

/// Makes the text of a count of two requests, again where there is no memory.
fn count_text(
    alloc: Global,
    reports: &mut MemoryReports,
    next: &Option<RequestNumber>,
) -> Result<String, MemoryFault> {
    match report_json::count_json(alloc, 2, *next) {
        Ok(text) => Ok(text),
        Err(_) => {
            reports.memory = true;
            report_json::count_json(alloc, 2, *next)
        }
    }
}

// ---- Schedules.

/// Three pairings, with a byte order mark, CRLF and quotes. The second one has the id of a pairing that an office has already.
const SCHEDULE: &str = "\u{feff}pairing,period,report,release,flight,from,out,to,in\r\n\
    P10,1,2025-06-20T06:30Z,2025-06-20T11:00Z,RB1,BOS,2025-06-20T07:30Z,IAD,2025-06-20T10:30Z\r\n\
    P1,1,2025-06-21T06:30Z,2025-06-21T11:00Z,RB1,BOS,2025-06-21T07:30Z,IAD,2025-06-21T10:30Z\r\n\
    \"P30\",\"1\",2025-06-22T06:30Z,2025-06-22T15:00Z,\"RB1\",BOS,2025-06-22T07:30Z,IAD,2025-06-22T10:30Z\r\n\
    P30,1,2025-06-22T06:30Z,2025-06-22T15:00Z,RB2,IAD,2025-06-22T11:30Z,BOS,2025-06-22T14:30Z\r\n\
    P30,2,2025-06-23T06:30Z,2025-06-23T11:00Z,RB3,BOS,2025-06-23T07:30Z,IAD,2025-06-23T10:30Z\r\n";

/// Its second pairing reports on the 31st of June.
const DAMAGED: &str = "pairing,period,report,release,flight,from,out,to,in\n\
    P10,1,2025-06-20T06:30Z,2025-06-20T11:00Z,RB1,BOS,2025-06-20T07:30Z,IAD,2025-06-20T10:30Z\n\
    P20,1,2025-06-31T06:30Z,2025-06-21T11:00Z,RB1,BOS,2025-06-21T07:30Z,IAD,2025-06-21T10:30Z\n";

/// The pairings of a schedule, which is read twice where there is no memory.
fn read_schedule(
    alloc: Global,
    reports: &mut MemoryReports,
    text: &str,
) -> Result<Vec<Pairing>, CodecFault> {
    match schedule_of_csv(alloc, text.as_bytes()) {
        Err(CodecFault::Memory) => {
            reports.memory = true;
            schedule_of_csv(alloc, text.as_bytes())
        }
        read => read,
    }
}

/// Adds a pairing's id, and how many segments each of its periods has.
fn add_pairing(alloc: Global, pairing: &Pairing, text: &mut String) -> Result<(), Fault> {
    text.push_str(pairing.id().as_str())?;
    for period in pairing.periods() {
        let count = format!(in alloc; " {}", period.segments.as_slice().len())?;
        text.push_str(count.as_str())?;
    }
    text.push_str(", ")?;
    Ok(())
}

/// Adds what a schedule is read as: its pairings, or the record that is at fault.
fn add_schedule(
    alloc: Global,
    reports: &mut MemoryReports,
    schedule: &str,
    text: &mut String,
) -> Result<(), Fault> {
    match read_schedule(alloc, reports, schedule) {
        Ok(pairings) => {
            for pairing in &pairings {
                add_pairing(alloc, pairing, text)?;
            }
            Ok(())
        }
        Err(CodecFault::Memory) => Err(Fault::Memory),
        Err(fault) => {
            text.push_str(format!(in alloc; "{fault}")?.as_str())?;
            Ok(())
        }
    }
}

/// Reads a schedule, and one that is damaged.
pub fn schedule(alloc: Global, reports: &mut MemoryReports) -> Result<String, Fault> {
    let mut text = String::new(alloc);
    add_schedule(alloc, reports, SCHEDULE, &mut text)?;
    add_schedule(alloc, reports, DAMAGED, &mut text)?;
    Ok(text)
}
