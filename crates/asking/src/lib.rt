//! What a book is asked in bytes, and what it answers: a request or many, one a line, which may only be checked, a report as text
//! or as JSON, the count of requests, and a schedule whose pairings are added.
#![tactic(auto)]

mod answers;
mod answers_text;
mod checks;
mod count;
pub mod laws;
mod lines;
mod reports;
mod requests;
mod schedules;

pub use answers::{AnswerKind, AskFault, JsonAnswer};
pub use checks::check_request;
pub use count::ask_count;
pub use lines::{ask_lines, check_lines};
pub use reports::{Shown, ask_report};
pub use requests::ask_request;
pub use schedules::{Listener, NotAllAsked, ask_schedule};
