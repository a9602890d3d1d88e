//! The program of the roster book: what a command line asks for, and how it is answered.
#![tactic(auto)]

mod check_command;
mod do_command;
mod duty_command;
mod ended;
mod import_command;
mod init_command;
mod lines;
mod lines_command;
mod program;
mod refusal;
mod serve_command;
mod serving;
mod show_command;
mod status;
mod stop;

pub use check_command::{check_json, check_lines};
pub use console::{Action, action};
pub use do_command::ask_json;
pub use import_command::import_csv;
pub use lines_command::ask_lines;
pub use period_verdict::{LineFault, duty_line};
pub use program::{Performed, perform, perform_from};
pub use refusal::tell_refusal;
pub use show_command::show_text;
pub use status::Status;
pub use stop::Stop;
