//! The tables of the book as a state of the machine.
#![tactic(auto)]

mod show;
mod source;
mod store;

pub use entries::{LoadFault, TableName, database_holds_one_state, rows_say_all};
pub use lookup::RequestCount;
pub use show::Show;
pub use state_rows::StoreFault;
pub use store::Store;
pub use writing::CreateFault;
