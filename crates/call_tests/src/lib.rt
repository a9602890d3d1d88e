//! Tests of single calls over values: calls of the crates from `values` to `codec` that find no memory, copies of values,
//! periods as they are flown, periods that are flown for another certificate holder, what a history of duties counts, and
//! exchanges of HTTP with a handler that notes what it is asked.
#![tactic(auto)]

#[cfg(test)]
mod allocation;
#[cfg(test)]
mod clerk;
#[cfg(test)]
mod copies;
#[cfg(test)]
mod fault;
#[cfg(test)]
mod flown;
#[cfg(test)]
mod histories;
#[cfg(test)]
mod outside;
#[cfg(test)]
mod requests;
#[cfg(test)]
mod rows;
