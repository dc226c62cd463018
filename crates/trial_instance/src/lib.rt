//! A trial instance: a large input from a number.
//!
//! [`trial_instance`] makes an instance of so many activities and resources from a number, always the
//! same one, as `specs/Trial.antt` says. It has no cycle and no misfit.
//! It stands on `rc_instance`, on `key_sampling`, whose generator it draws from, and on a law of
//! `rc_edge`.
#![tactic(auto)]

mod draw;
mod trial;

pub use trial::{MAX_TRIAL_HORIZON, trial_instance};

#[cfg(test)]
mod tests;
