//! A line of bookings whose cost follows how many bookings there are, and not how long they take.
//!
//! A [`Line`] books activities of an instance, each at its least start from a period on
//! ([`Line::place`]) or at its latest start by an end ([`Line::place_last`]), and answers exactly
//! the start that the definitions of `rc_instance` ask for. It can take its newest booking away
//! ([`Line::undo`]) and all of them ([`Line::clear`]). Only [`Line::new`] takes memory.
//!
//! Inside, a chain of nodes stands at each period in which something starts, ends or changes, with
//! what is free of each resource up to the next node. It stands on `rc_instance` alone. One caller,
//! which books activities as early as they fit and tells when all have ended:
//!
//! ```text
//! let mut line = Line::new(alloc, &instance)?;
//! let mut end = 0;
//! for activity in order {
//!     let start = line.place(*activity, 0);
//!     end = end.max(start + instance.duration(*activity));
//! }
//! ```
#![tactic(auto)]

mod axis;
mod capacities;
mod chain;
mod demands;
mod entry;
mod lanes;
mod line;
mod rows;
mod search;
#[cfg(test)]
mod tests;

pub use line::Line;
