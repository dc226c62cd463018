//! Tests of the running book by step calls: worked rows, and a generated instance on which some passes
//! step in a drawn order.
//!
//! The crate has no item but its tests, so that `book_table` is proved once.
#![tactic(auto)]

#[cfg(test)]
mod fixtures;
#[cfg(test)]
mod generated;
#[cfg(test)]
mod outcome;
#[cfg(test)]
mod rows;
#[cfg(test)]
mod stepping;
