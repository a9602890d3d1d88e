//! What the book is read as: a member's roster, a pairing, the exceedances, the lists of members and of pairings, the board of
//! some days, and what is kept under the number of a request, each as an exact text.
#![tactic(auto)]

mod board;
mod board_members;
mod exceedances;
mod fault;
mod in_days;
mod instants;
mod kept;
pub mod laws;
mod line;
mod member_lines;
mod members;
mod pairing_lines;
mod pairings;
mod periods;
mod row;

pub use board::board_text;
pub use exceedances::exceedance_text;
pub use fault::ReportFault;
pub use in_days::{ground_meets, has_period_in, is_open_in, outside_meets};
pub use instants::instant;
pub use kept::request_text;
pub use member_lines::roster_text;
pub use members::members_text;
pub use pairing_lines::pairing_text;
pub use pairings::{is_listed, pairings_text};
pub use periods::{PeriodInForce, periods_of};
