//! Tests of a book over memory: what it answers in one session, asked one by one or all in one run, and which rows are then in the
//! tables; the part of the state that a command needs; a book stopped at each call on its files, also where that is one of version 1;
//! one that finds no memory; exchanges of HTTP with a book; and one over a loopback connection. A book in a file of the machine. Tests of
//! single tables: what their functions find by key, and what they add and remove; and a transaction that can't be taken back.
#![tactic(auto)]

#[cfg(test)]
mod allocation;
#[cfg(test)]
mod contents;
#[cfg(test)]
mod exchanges;
#[cfg(test)]
mod fault;
#[cfg(test)]
mod files;
#[cfg(test)]
mod loopback;
#[cfg(test)]
mod opening;
#[cfg(test)]
mod parts;
#[cfg(test)]
mod requests;
#[cfg(test)]
mod sessions;
#[cfg(test)]
mod single_tables;
#[cfg(test)]
mod stops;
#[cfg(test)]
mod undoing;
