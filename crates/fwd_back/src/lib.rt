//! Forward-backward improvement of a feasible schedule (after Li and Willis 1992).
//!
//! [`improve`] moves each activity to its latest start within the makespan, those that end last
//! first, makes the serial schedule of the list by these starts, and does so again as long as the
//! makespan falls. Its answer is the `improved` schedule of the definitions: it is feasible, and
//! never longer than the one that it began with. The backward pass always finds a start, since each
//! activity still fits at its present start beside those that have moved. The crate stands on
//! `event_line`, whose line both passes use, on `priority_rules` for the lists, and on
//! `serial_plain` for the schedules. One caller:
//!
//! ```text
//! let net = Net::of(alloc, instance)?;
//! let list = list_by_number(alloc, &net)?;
//! net.instance().fits_all()?;
//! let mut line = Line::new(alloc, net.instance())?;
//! let mut schedule = Schedule::zero(alloc, net.instance().count())?;
//! serial_on(&list, &mut line, &mut schedule);
//! let better = improve(alloc, &net, &schedule)?;
//! ```
#![tactic(auto)]

mod backward;
pub mod laws;
mod next;
mod passes;
mod rounds;
#[cfg(test)]
mod tests;

pub use rounds::improve;
