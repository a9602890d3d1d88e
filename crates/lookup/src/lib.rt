//! Entries of the state of a book, read by key from its tables. A read changes nothing. A store's fault, or a row that no entry has, is
//! 90, and out of memory 91.
#![tactic(auto)]

mod bases;
mod count;
mod exceedance;
mod ground;
mod held;
mod ids;
mod kept_request;
mod member;
mod near;
mod outside;
mod pairing;
mod under_number;

pub use bases::bases_at;
pub use count::{RequestCount, count_at};
pub use exceedance::exceedances_at;
pub use ground::{ground_at, grounds_held_at};
pub use held::pairings_held_at;
pub use ids::{crew_ids_at, pairing_ids_at};
pub use kept_request::request_at;
pub use member::member_at;
pub use near::pairings_near_at;
pub use outside::{outside_at, outsides_held_at};
pub use pairing::pairing_at;
pub use under_number::requests_at;
