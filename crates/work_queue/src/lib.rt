//! Jobs by number, handed out to workers through a queue.
//!
//! [`hand_out`] pushes the numbers of the jobs into a queue, from which each worker takes the next one
//! until it is empty. The answers stand in order of the jobs, whichever worker did which:
//!
//! ```text
//! let tenfold = |_worker: u32, job: u32| Ok(10 * job);
//! let values = hand_out(rt, alloc, 3, 2, &tenfold)?; // 0, 10, 20
//! ```
//!
//! The queue is `crossbeam_queue`'s under a rule of its own (`specs/Rule.antt`): it holds the jobs from
//! some number up to the last one that was pushed, and those before stand once each among what the
//! workers took. No value of what a worker knows is made when the program runs.
#![tactic(auto)]

mod answers;
mod crew;
mod hand;
mod handing;
mod plays;
mod queue;
mod slots;

pub use handing::{MAX_WORKERS, hand_out};

#[cfg(test)]
mod tests;
