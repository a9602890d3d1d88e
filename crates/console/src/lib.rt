//! What a command line asks for, read by `clap`.
#![tactic(auto)]

mod actions;
mod command_line;

pub use actions::Action;
pub use command_line::action;
