//! Entries of a book's state, made of the records of their rows: what one key's records say.
#![tactic(auto)]

mod exceedances;
mod fault;
mod laws;
mod one_outside;
mod one_pairing;
mod outside_rows;
pub mod outside_segments;
pub mod periods;
mod plan_rows;
mod plans;
mod requests;
pub mod segments;

pub use exceedances::{duty_of, section_of};
pub use fault::{LoadFault, TableName};
pub use laws::{
    database_holds_one_of_either, database_holds_one_state, database_is_of_one_edition,
    right_first_is_said, rows_say_all,
};
pub use one_outside::outside_of_records;
pub use one_pairing::pairing_of_records;
pub use outside_rows::OutsideSegmentKey;
pub use plan_rows::{PeriodKey, PlanRows, SegmentKey};
pub use plans::pairing_of;
pub use requests::{command_of, key_of, reply_of};
