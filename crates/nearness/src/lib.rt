//! How near the duties of a crew member are to each limit of 14 CFR Part 117, and by how much they exceed it.
#![tactic(auto)]

mod all_limits;
pub mod laws;
mod periods;
mod rests;
mod windows;
mod year;

pub use all_limits::{Nearness, nearest, nearest_of_new};
pub use periods::{MeasuredPeriod, PeriodLimit};
pub use windows::FullestWindow;
