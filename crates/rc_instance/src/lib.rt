//! Instances of the resource-constrained project scheduling problem, and the definitions that all crates share.
#![tactic(auto)]

mod build;
mod change;
mod fits;
mod instance;
pub mod laws;
pub mod limits;
mod memory;
mod misfit;
mod parts;
mod schedule;
#[cfg(test)]
mod tests;

pub use change::Change;
pub use instance::Instance;
pub use memory::Memory;
pub use misfit::Misfit;
pub use parts::{InstanceFault, Parts};
pub use schedule::Schedule;
