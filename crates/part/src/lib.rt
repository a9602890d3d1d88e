//! The part of the book's state that a command or a report needs: what it is, how it is gathered by key, and how a command is
//! judged by no more of it than that takes.
#![tactic(auto)]

mod gathering;
mod in_days;
mod judging;
pub mod laws;
mod named;
mod near;
mod pick;
mod showing;
mod source;

pub use gathering::gather;
pub use judging::judge;
pub use showing::gather_shown;
pub use source::Source;
