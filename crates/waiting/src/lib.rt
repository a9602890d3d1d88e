//! Connections side by side: each waits for the bytes of its own request, and only a whole request is answered, one after the other.
#![tactic(auto)]

mod answerer;
mod connection;
mod dialogue;
mod fault;
mod incoming;
mod outgoing;
mod room;

pub use answerer::Answerer;
pub use fault::ServeFault;
pub use http_exchange::{ChannelFault, Served};
pub use room::Room;
