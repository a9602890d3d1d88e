//! The small types that hold the values of the roster book, each seen by contracts as a plain
//! value, and what all of these values can do: be copied, and be compared exactly.
#![tactic(auto)]

mod edit;
mod lawful_eq;
mod memory_fault;
mod ord_key;
mod ord_map;
mod sequence;
mod text;
mod try_clone;

pub use edit::Edit;
pub use lawful_eq::LawfulEq;
pub use memory_fault::MemoryFault;
pub use ord_key::OrdKey;
pub use ord_map::OrdMap;
pub use sequence::{Sequence, copies_of};
pub use text::Text;
pub use try_clone::TryClone;
