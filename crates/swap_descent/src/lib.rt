//! Descent by adjacent swaps: a feasible list gets a shorter serial schedule.
//!
//! [`descend`] goes through rounds. A round exchanges the activities at the least position where the
//! one does not directly precede the next and the serial schedule of the list with these two
//! exchanged is shorter; where there is none, the list stays. Its answer is the `descent` of the
//! definitions with its serial schedule, which is never longer than that of the list that it began
//! with. A round walks once over the list on a line of bookings. A trial of an exchange takes nothing
//! back before its position, and is given up once the start of an activity and its tail, the time
//! of the longest chain from it on, reach the makespan. The crate stands on `event_line` and
//! `serial_plain` for the schedules, and on `time_windows` for the tails. One caller:
//!
//! ```text
//! let net = Net::of(alloc, instance)?;
//! let list = FeasibleList::of(alloc, &net, &order)?;
//! let (list, schedule) = descend(alloc, list, 100)?;
//! ```
#![tactic(auto)]

mod descent;
pub mod laws;
mod placing;
mod rounds;
#[cfg(test)]
mod tests;
mod trial;

pub use descent::descend;
