//! What the tests try.

use crate::allocation::reports::MemoryReports;
use crate::allocation::{entries, growing, machine, texts};
use crate::fault::Fault;
use request::Form;
use std::alloc::Global;

/// Calls that are tried together.
#[derive(Clone, Copy)]
pub enum Part {
    /// A table of values under keys grows.
    OrdMap,
    /// An instant is written behind others.
    Write,
    /// Duties are added to a history.
    Insert,
    /// Commands are judged, and those that are accepted are applied.
    Step,
    /// Entries are set in a roster.
    Put,
    /// Commands are written as kept texts.
    Canonical,
    /// Reports are made.
    Report,
    /// Reports are made in JSON.
    ReportJson,
    /// Schedules are read.
    Schedule,
}

impl Part {
    /// Tries its calls.
    pub fn try_once(self, alloc: Global, reports: &mut MemoryReports) -> Result<String, Fault> {
        match self {
            Part::OrdMap => growing::fill(alloc, reports),
            Part::Write => growing::write(alloc, reports),
            Part::Insert => growing::insert(alloc, reports),
            Part::Step => machine::step(alloc, reports),
            Part::Put => entries::put(alloc, reports),
            Part::Canonical => texts::canonical(alloc, reports),
            Part::Report => texts::report_all(alloc, reports, Form::Text),
            Part::ReportJson => texts::count_json(alloc, reports),
            Part::Schedule => texts::schedule(alloc, reports),
        }
    }
}
