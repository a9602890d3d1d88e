//! How near a member's duties are to each limit of 14 CFR Part 117: as values, and as an exact text.
#![tactic(auto)]

mod hours;
pub mod laws;
mod lines;
mod member_limits;
mod named_duties;
mod nearest;

pub use member_limits::limits_text;
pub use nearest::{FirstMinute, NearestLimit, nearest_limits};
