//! The edges of the scheduler: where bytes come in, where they go out, and a hook for tests.
//!
//! Code that reads files is generic over [`Files`], code that writes over [`Sink`], and code that
//! runs in threads over [`Gate`]. A fault comes only where a count of faults rose in the call, and
//! want of memory is an answer of its own. In memory they are [`MemFiles`], [`MemSink`] and
//! [`NoGate`]; a program's `main` makes [`RealFiles`], [`RealOut`] and [`RealNote`]. One caller:
//!
//! ```text
//! /// Copies a file to a sink; the inner answer is that of the sink.
//! fn copy<F: Files, S: Sink>(
//!     alloc: Global,
//!     name: &str,
//!     files: &mut F,
//!     out: &mut S,
//! ) -> Result<Result<(), SinkFault>, FetchFault> {
//!     let text = fetch_one(alloc, name, 4096, files)?;
//!     Ok(put_all(out, &text))
//! }
//! ```
//!
//! Texts are read as tokens, [`next_token`], which are mostly numbers, [`number_due`]; what is wrong
//! with a text is a [`TextFault`].
#![tactic(auto)]

mod entry;
mod fetches;
mod files;
mod gate;
mod instance;
mod laws;
mod mem_files;
mod mem_sink;
mod number;
mod planned;
mod real_files;
mod real_sinks;
mod sink;
mod source;
#[cfg(test)]
mod tests;
mod text_fault;
mod text_number;
#[cfg(test)]
mod text_tests;
mod token;

pub use entry::{activity_count, capacity, duration, resource_count, successor};
pub use fetches::{fetch_all, fetch_one};
pub use files::{FetchFault, Files};
pub use gate::{Gate, NoGate, Point};
pub use instance::built;
pub use laws::tokens_from_the_start;
pub use mem_files::MemFiles;
pub use mem_sink::MemSink;
pub use number::{NumberFault, read_number};
pub use real_files::RealFiles;
pub use real_sinks::{RealNote, RealOut};
pub use sink::{Sink, SinkFault, put_all};
pub use source::{
    NumberSource, push_demands, read_capacities, read_capacity, read_duration, read_successors,
};
pub use text_fault::{Item, TextFault, TextKind};
pub use text_number::{Number, number_due, refuse_if};
pub use token::{is_white, next_token};
