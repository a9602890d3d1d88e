//! The duties of crew members: flight duty periods and their segments, pairings, ground duties, periods flown for
//! another certificate holder, and actual times; and a member's duties in force with the minutes that they hold (14 CFR
//! 117.3 and 1.1).
#![tactic(auto)]

mod actual;
mod checks;
mod duty_in_force;
mod fault;
mod fdp;
mod fdp_in_force;
mod ground_duty;
mod history;
mod id;
mod intervals;
mod kind;
mod merging;
mod outside;
mod pairing;
mod placed_duty;
mod scan;
mod segment;
mod shape;
mod span;
pub mod tag;

pub use actual::Actual;
pub use duty_in_force::DutyInForce;
pub use fault::{DutyFault, Field};
pub use fdp::Fdp;
pub use fdp_in_force::FdpInForce;
pub use ground_duty::Ground;
pub use history::History;
pub use id::{Airport, BaseId, CrewId, Flight, GroundId, Id, OutsideId, PairingId};
pub use intervals::{Interval, Intervals};
pub use kind::Kind;
pub use outside::Outside;
pub use pairing::Pairing;
pub use placed_duty::Duty;
pub use scan::{DutyTest, SpanTest, any_duty, any_span};
pub use segment::{BlockTimes, Segment, Timed, flight_minutes, last_block_in};
pub use shape::is_plain_text;
pub use span::Span;
pub use tag::Shaped;
