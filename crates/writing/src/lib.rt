//! A book made, one of version 1 made one of version 2, and an accepted change written, each in one transaction.
#![tactic(auto)]

mod commits;
mod fault;
mod making;
mod migrating;
mod records;
mod transaction;
mod writing;

pub use commits::{commit_change, make_book};
pub use fault::CreateFault;
pub use migrating::migrate_book;
pub use transaction::take_back;
