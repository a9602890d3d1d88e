//! Single tables: what their functions find by key, and what they add and remove.

mod keyed;
mod later;
mod making;
