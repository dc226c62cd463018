//! The serial schedule generation scheme (Kolisch 1996), on a line of bookings.
//!
//! [`serial`] books each activity of a feasible list in turn, at its least start. Its answer is the
//! `serial_schedule` of the definitions, which is feasible and ends by the horizon, or the first
//! misfit of the instance. [`serial_on`] writes the same schedule, of an instance without a misfit,
//! by bookings on an empty [`Line`](event_line::Line), so that one line serves for many lists: it
//! takes no memory. [`serial_step`] is one step of it, so that a list with another end can be
//! scheduled from where it differs, and [`serial_step_of`] the same step of an activity that is told,
//! so that a list can be chosen while it is booked. The crate stands on `rc_instance`,
//! `activity_net` and `event_line`. One caller:
//!
//! ```text
//! let net = Net::of(alloc, instance)?;
//! let list = FeasibleList::of(alloc, &net, &order)?;
//! let instance = net.instance();
//! instance.fits_all()?;
//! let mut line = Line::new(alloc, instance)?;
//! let mut schedule = Schedule::zero(alloc, instance.count())?;
//! serial_on(&list, &mut line, &mut schedule);
//! let makespan = schedule.makespan(instance);
//! ```
#![tactic(auto)]

mod fault;
mod on;
#[cfg(test)]
mod on_tests;
mod scheme;
#[cfg(test)]
mod tests;

pub use fault::SchemeFault;
pub use on::{serial_on, serial_step, serial_step_of};
pub use scheme::serial;
