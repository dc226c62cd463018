//! Samples: serial schedules of lists by random keys, and the best one of a range.
//!
//! A sample is a number. With a seed it begins a generator, from which a key is drawn for each
//! activity; its list is that by these keys, and its value the makespan of the serial schedule of the
//! list. [`list_of_sample`] makes the list of a sample, [`sample_values`] answers the values of a
//! range in order, and [`best_sample`] its best sample, the least pair of a makespan and a number,
//! with any number of workers. One caller:
//!
//! ```text
//! let windows = Windows::of(alloc, &net)?;
//! let best = best_sample(rt, alloc, &net, &windows, seed, from, count, workers)?;
//! let list = list_of_sample(alloc, &net, seed, best.sample)?;
//! ```
//!
//! The workers share a [`Race`]: a table with two words, the next ticket and the best word, which
//! stand on cache lines of their own, so that a ticket that is drawn does not take the best word away
//! from those that load it. A caller of its own holds a [`Seeker`], takes samples, and settles each
//! by a bound or by its value:
//!
//! ```text
//! while let Some(sample) = race.take(&mut seeker) {
//!     if !race.give_up(&mut seeker, bound_of(sample)) {
//!         race.value(&mut seeker, value_of(sample));
//!     }
//! }
//! ```
//!
//! Samples that are given up never change the best: `close` answers the least pair, whatever the
//! seekers did. A worker chooses the activities of a sample one after another and places each at once,
//! so that one that is given up is neither chosen nor placed to its end. [`laws`] says how a range is
//! cut into parts for many machines.
//!
//! The crate stands on `serial_plain`, `priority_rules`, `event_line` and `time_windows`, which it
//! calls for each sample without taking memory, and on `race_rule`, the rule of the race.
#![tactic(auto)]

mod best;
mod closing;
mod crew;
mod keys;
pub mod laws;
mod opening;
mod plays;
mod race;
mod search;
mod seeker;
mod terms;
mod tools;
mod values;
mod word;
mod worker;

pub use best::{Best, MAX_SAMPLES};
pub use crew::best_sample;
pub use keys::{draw_keys, list_of_sample};
pub use opening::MAX_SEEKERS;
pub use race::Race;
pub use seeker::Seeker;
pub use terms::Terms;
pub use values::sample_values;

#[cfg(test)]
mod tests;
