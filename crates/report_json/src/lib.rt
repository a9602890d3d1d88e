//! The reports as JSON, each as an exact text: a member's roster, a pairing, the lists of members and of pairings, the
//! exceedances, a member's limits, the board of some days, what is kept under the number of a request, and how many requests are
//! kept.
#![tactic(auto)]

mod board;
mod board_duties;
mod count;
mod duties;
mod exceedances;
mod exceeded;
mod kept;
pub mod laws;
mod member_roster;
mod members;
mod nearest_limits;
mod objects;
mod pairing;
mod pairings;
mod periods;

pub use board::board_json;
pub use count::count_json;
pub use exceedances::exceedances_json;
pub use kept::request_json;
pub use member_roster::roster_json;
pub use members::members_json;
pub use nearest_limits::limits_json;
pub use pairing::pairing_json;
pub use pairings::pairings_json;
