//! The parallel schedule generation scheme (Kolisch 1996), on a line of bookings.
//!
//! [`parallel`] goes through the periods, and books in each what can start there: again and again the
//! first of a feasible list that is not booked, whose direct predecessors have ended, and that fits.
//! Its answer is the `parallel_schedule` of the definitions, or the first misfit of the instance. The
//! schedule is feasible and ends by the horizon, and it is non-delay: no activity waits in a period in
//! which it could run beside those that have started. It need not be shorter than the serial schedule
//! of the same list. The crate stands on `event_line`, whose line tells the least start of an activity
//! from a period on, so that the periods in between are passed over; on `activity_net` for the lists,
//! and on `serial_plain` for what a schedule shows of bookings. One caller:
//!
//! ```text
//! let net = Net::of(alloc, instance)?;
//! let list = list_by_number(alloc, &net)?;
//! let schedule = parallel(alloc, &list)?;
//! let makespan = schedule.makespan(net.instance());
//! ```
#![tactic(auto)]

pub mod laws;
mod progress;
mod scheme;
#[cfg(test)]
mod tests;

pub use scheme::parallel;
