//! Tests of whole runs in memory: words and files in, a status, an output and a note out.
//!
//! One file a command has its cases as a table. A case is the words of a line, the files that there
//! are, and what the run comes to: the exit status, the output and the note. A text that stands in more
//! than one case is one of the fixtures. The crate has no item but its tests, so that the crates below
//! are proved without them.
#![tactic(auto)]

#[cfg(test)]
mod calendar;
#[cfg(test)]
mod case;
#[cfg(test)]
mod check;
#[cfg(test)]
mod convert;
#[cfg(test)]
mod descend;
#[cfg(test)]
mod edges;
#[cfg(test)]
mod fixtures;
#[cfg(test)]
mod generated;
#[cfg(test)]
mod hostile;
#[cfg(test)]
mod hostile_cuts;
#[cfg(test)]
mod hostile_ends;
#[cfg(test)]
mod hostile_gates;
#[cfg(test)]
mod improve;
#[cfg(test)]
mod limits;
#[cfg(test)]
mod live;
#[cfg(test)]
mod many;
#[cfg(test)]
mod parallel;
#[cfg(test)]
mod sample;
#[cfg(test)]
mod schedule;
#[cfg(test)]
mod text;
#[cfg(test)]
mod trial;
#[cfg(test)]
mod windows;
#[cfg(test)]
mod words;
#[cfg(test)]
mod workers;
