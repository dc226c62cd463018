//! The steps of the commands, each of which gives what the definition's step gives.

pub(crate) mod calendar;
pub(crate) mod descent;
pub(crate) mod improvement;
pub(crate) mod instance;
pub(crate) mod list;
pub(crate) mod live;
pub(crate) mod misfit;
pub(crate) mod network;
pub(crate) mod parallel;
pub(crate) mod plan;
pub(crate) mod schedule;
pub(crate) mod serial;
mod text;
pub(crate) mod told;
