//! Instants in whole minutes, and the local time of a POSIX zone.
#![tactic(auto)]

mod minute;
mod zone;

pub use minute::{Minute, TimeFault};
pub use zone::{Zone, ZoneFault};
