//! Time windows of the activities of a net, and lower bounds on its makespan.
//!
//! `Windows::of(alloc, &net)?` passes twice over the order of the net, and then answers, in
//! periods: `earliest` and `latest`, the starts that an activity has between the chains before and
//! after it; `tail`, the longest time from its start to the end; `critical` and `capacity_bound`,
//! below which no feasible schedule has its makespan. Each is exactly what `specs/` defines, and
//! the laws that tie them to feasible schedules are the contracts of `laws`.
//!
//! It stands on `rc_instance` and `activity_net`.
#![tactic(auto)]

mod capacity;
pub mod laws;
mod longest;
#[cfg(test)]
mod tests;
mod windows;

pub use windows::Windows;
