//! What a book answers one command, and a list of them.
use command::{Refusal, Reply};
use store::StoreFault;

/// What a command is answered.
#[derive(PartialEq, Eq, Drop)]
pub enum Answer {
    /// It is kept, with this reply; a repeated one was kept before.
    Accepted(Reply),
    /// It has changed nothing, for this reason.
    Refused(Refusal),
}

/// What some commands in turn were answered.
#[derive(Drop)]
pub struct Run {
    /// The answers, up to the first fault.
    pub answers: Vec<Answer>,
    /// The fault that ended them, if there was one.
    pub fault: Option<StoreFault>,
}
