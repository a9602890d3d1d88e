//! In which form a report is asked for.
//! Both forms of each report: `tests/report_json.py`.

/// The form of a report.
#[derive(Clone, Copy, Debug, PartialEq, Eq, Drop)]
pub enum Form {
    /// Lines of text, for people.
    Text,
    /// One object of JSON, for programs.
    Json,
}
