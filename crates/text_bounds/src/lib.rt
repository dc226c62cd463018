//! How long the texts and the lines can be that are made of an instance that was read.
//!
//! Who gives a run a sink of a fixed size rests on these [`laws`]: the table of the schedule by
//! number, and the words of a fault, a cycle and a misfit, are all short, since the limits of an
//! instance and of a file are.
#![tactic(auto)]

pub mod laws;
