//! What is asked for, as the command line, HTTP and the book name it: a request by its number, a report by its subject and its form,
//! days by a first and a last.
#![tactic(auto)]

mod days;
mod form;
mod number;
mod subject;

pub use days::Days;
pub use form::Form;
pub use number::RequestNumber;
pub use subject::{Listed, Subject};
