//! Tests of what many workers share: a running book and a race.
//!
//! Searches ahead, offers and reports are called directly, beside bookings by step calls. Two workers
//! meet in the midst of a book, and a watch tells of one that goes on meanwhile. A race for the best
//! sample is run by hand. The crate has no item but its tests, so that the crates below are proved once.
#![tactic(auto)]

#[cfg(test)]
mod ahead;
#[cfg(test)]
mod booking;
#[cfg(test)]
mod fixtures;
#[cfg(test)]
mod meeting;
#[cfg(test)]
mod patient;
#[cfg(test)]
mod race;
