//! The verdict on one flight duty period by Tables A and B, as a line.
#![tactic(auto)]

mod fault;
mod flight_duty;
mod texts;
mod verdict;

pub use fault::LineFault;
pub use texts::Hours;
pub use verdict::duty_line;
