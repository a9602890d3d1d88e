//! What clients write and read: requests as JSON, schedules as CSV, and refusals as JSON. What the book keeps of a command and
//! of its reply is handed on.
#![tactic(auto)]

mod fault;
mod fields;
mod grouping;
pub mod laws;
mod number_member;
mod reading;
mod refusal_text;
mod requests;
mod scheduled;
mod schedules;

/// The most bytes of a request's body, and of a schedule.
pub const MOST_BYTES: usize = 1_048_576;

pub use refusal_text::{fault_to_json, refusal_to_json};
pub use requests::command_of_json;
pub use schedules::schedule_of_csv;
pub use stored_json::{
    CodecFault, JsonField, canonical, read_canonical, read_reply, reply_to_json,
};
