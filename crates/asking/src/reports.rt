//! Reports: a text, or JSON, by what a book shows. The definition is `IsReportAsked` (`specs/Reports.antt`).
//! Worked texts: `tests/reports.py`, in JSON `tests/report_json.py`. Wrong bodies: `must-fail-more/`.
ghost use Rattle.std.specs.Prelude.{◌≡◌, IfOk};
ghost use Rattle.std.specs.Option.{option_copied};
ghost use Rattle.request.specs.Subjects.{subject_copied};
ghost use Rattle.request.specs.declared.form.Form.TheVariants as forms;
ghost use Rattle.book.specs.Calls.{IsAfterCalls};
ghost use Rattle.asking.specs.Reports as spec;

use crate::answers::AskFault;
use book::{Book, BookFault, Show};
use duty::{CrewId, PairingId};
use limits_report::limits_text;
use report::{
    ReportFault, board_text, exceedance_text, members_text, pairing_text, pairings_text,
    request_text, roster_text,
};
use report_json::{
    board_json, exceedances_json, limits_json, members_json, pairing_json, pairings_json,
    request_json, roster_json,
};
use request::{Form, Subject};
use roster::Roster;
use sqlite::Alter;
use std::alloc::Global;
use values::{MemoryFault, Text};

/// What is shown.
#[derive(Drop)]
pub enum Shown {
    /// The text of the report.
    Text(String),
    /// There is no such crew member (2).
    NoSuchCrew,
    /// There is no such pairing (4).
    NoSuchPairing,
}

/// Asks a book for a member's roster, a member's limits, a pairing, the exceedances, a list, the board of some days or what is
/// kept under a number, in a form. No table is changed.
pub fn ask_report<S: Alter>(
    alloc: Global,
    book: &mut Book<S>,
    subject: &Subject<&str, &str>,
    form: Form,
) -> Result<Shown, AskFault>
    ensures asked { spec.IsReportAsked S.Store book.old book.new
        (subject_copied subject.now) form result }
    ensures calls { IsAfterCalls S.Store book.old book.new }
{
    let Ok(what) = shown_by(alloc, subject) else {
        return Err(AskFault::Memory);
    };
    let shown = book.show(alloc, &what);
    write_report(alloc, shown, &what, form)
}

/// Names what a book shows for a report.
fn shown_by(alloc: Global, subject: &Subject<&str, &str>) -> Result<Show, MemoryFault>
    ensures { IfOk result (λ what. what ≡ subject_copied subject.now) }
{
    Ok(match subject {
        Subject::Crew(id) => Show::Crew(CrewId::new(copy_of(alloc, id)?)),
        Subject::Limits { crew, with } => Show::Limits {
            crew: CrewId::new(copy_of(alloc, crew)?),
            with: named_by(alloc, *with)?,
        },
        Subject::Pairing(id) => Show::Pairing(PairingId::new(copy_of(alloc, id)?)),
        Subject::Exceedances => Show::Exceedances,
        Subject::Members => Show::Members,
        Subject::Pairings(which) => Show::Pairings(*which),
        Subject::Board(days) => Show::Board(*days),
        Subject::Request(number) => Show::Request(*number),
    })
}

/// Copies the id of a pairing, if one is named.
fn named_by(alloc: Global, id: Option<&str>) -> Result<Option<PairingId>, MemoryFault>
    ensures { IfOk result (λ named. named ≡ option_copied id.entry) }
{
    Ok(match id {
        Some(id) => Some(PairingId::new(copy_of(alloc, id)?)),
        None => None,
    })
}

/// Copies a text.
fn copy_of(alloc: Global, text: &str) -> Result<Text, MemoryFault>
    ensures { IfOk result (λ copy. copy ≡ text.now) }
{
    Ok(Text::new(String::from_str(alloc, text)?))
}

/// Reports what a book shows.
fn write_report(
    alloc: Global,
    shown: Result<Roster, BookFault>,
    what: &Show,
    form: Form,
) -> Result<Shown, AskFault>
    ensures { spec.ReportsShown shown what.now form result }
{
    match shown {
        Ok(roster) => shown_of(written(alloc, &roster, what, form)),
        Err(fault) => Err(AskFault::Book(fault)),
    }
}

/// Writes a report on a roster, in a form.
fn written(alloc: Global, roster: &Roster, what: &Show, form: Form) -> Result<String, ReportFault>
    ensures { spec.IsReportText roster.now what.now form result }
{
    match form {
        Form::Text => text_of(alloc, roster, what),
        Form::Json => json_of(alloc, roster, what),
    }
}

/// Writes a report on a roster as text.
fn text_of(alloc: Global, roster: &Roster, what: &Show) -> Result<String, ReportFault>
    ensures { spec.IsReportText roster.now what.now forms.Text result }
{
    match what {
        Show::Crew(who) => roster_text(alloc, roster, who),
        Show::Limits { crew, with } => limits_text(alloc, roster, crew, with.as_ref()),
        Show::Pairing(id) => pairing_text(alloc, roster, id),
        Show::Exceedances => exceedance_text(alloc, roster),
        Show::Members => as_report(members_text(alloc, roster)),
        Show::Pairings(which) => as_report(pairings_text(alloc, roster, *which)),
        Show::Board(days) => as_report(board_text(alloc, roster, *days)),
        Show::Request(number) => as_report(request_text(alloc, roster, *number)),
    }
}

/// Writes a report on a roster as JSON.
fn json_of(alloc: Global, roster: &Roster, what: &Show) -> Result<String, ReportFault>
    ensures { spec.IsReportText roster.now what.now forms.Json result }
{
    match what {
        Show::Crew(who) => roster_json(alloc, roster, who),
        Show::Limits { crew, with } => limits_json(alloc, roster, crew, with.as_ref()),
        Show::Pairing(id) => pairing_json(alloc, roster, id),
        Show::Exceedances => as_report(exceedances_json(alloc, roster)),
        Show::Members => as_report(members_json(alloc, roster)),
        Show::Pairings(which) => as_report(pairings_json(alloc, roster, *which)),
        Show::Board(days) => as_report(board_json(alloc, roster, *days)),
        Show::Request(number) => as_report(request_json(alloc, roster, *number)),
    }
}

/// Makes a report of a list, if there was memory for it.
fn as_report(text: Result<String, MemoryFault>) -> Result<String, ReportFault>
    ensures { spec.IsListed text result }
{
    match text {
        Ok(text) => Ok(text),
        Err(_) => Err(ReportFault::Memory),
    }
}

/// Names what is shown, by its text or why there is none.
fn shown_of(text: Result<String, ReportFault>) -> Result<Shown, AskFault>
    ensures { result ≡ spec.shown_of text }
{
    match text {
        Ok(text) => Ok(Shown::Text(text)),
        Err(ReportFault::NoSuchCrew) => Ok(Shown::NoSuchCrew),
        Err(ReportFault::NoSuchPairing) => Ok(Shown::NoSuchPairing),
        Err(ReportFault::Memory) => Err(AskFault::Memory),
    }
}
