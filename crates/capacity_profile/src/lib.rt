//! Profile words: four lanes of 16 bits in one number, lane 0 the lowest.
//!
//! A word says how much of four resources is used in a period, or how much of them an activity
//! demands, or how much of them there is. No call takes memory. One caller, which adds a demand
//! where there is room for it:
//!
//! ```text
//! let capacity = pack([4, 4, 2, 0]);
//! let demand = pack([1, 3, 0, 0]);
//! if !blocked(word, demand, capacity) {
//!     word = add_lanes(word, demand);
//! }
//! ```
#![tactic(auto)]

mod lanes;
#[cfg(test)]
mod tests;

pub use lanes::{add_lanes, blocked, lane, lane_min, pack};
