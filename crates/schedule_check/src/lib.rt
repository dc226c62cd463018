//! Plans, and whether they are feasible schedules of an instance.
//!
//! [`read_plan`] gives the plan that a text of CSV is, or its first fault, exactly as
//! `read_plan_of` of `specs/` says. [`check`] gives the makespan of a plan, or its first violation:
//! an activity that is unknown or comes twice, else one that is missing, else one that starts too
//! early, else a period in which more of a resource is used than there is. That a plan without a
//! violation is a feasible schedule, that the bookings of a feasible schedule have none, and that
//! its CSV passes, are the contracts of `laws`. One caller:
//!
//! ```text
//! let plan = read_plan(alloc, &bytes)?;
//! match check(alloc, &instance, &plan) {
//!     Ok(makespan) => println!(rt; "ok makespan {makespan}")?,
//!     Err(CheckFault::Violated(violation)) => println!(rt; "{violation}")?,
//!     Err(CheckFault::Memory) => {}
//! }
//! ```
//!
//! It stands on `rc_instance`, reads numbers by `rc_edge`, and records by the kit's `csv`; its laws
//! speak of the CSV that `gantt_table` writes.
#![tactic(auto)]

mod check_fault;
mod early_starts;
mod fields;
pub mod laws;
mod naming;
mod over_capacity;
mod placement;
mod plan;
mod plan_fault;
mod reading;
mod records;
#[cfg(test)]
mod tests;
mod verdict;
mod violation;

pub use check_fault::CheckFault;
pub use placement::Placement;
pub use plan::Plan;
pub use plan_fault::{PlanFault, PlanKind};
pub use reading::read_plan;
pub use verdict::check;
pub use violation::Violation;
