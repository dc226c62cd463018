//! Reads and writes instances in the `.sm` format of PSPLIB, single mode.
//!
//! [`read_sm`] answers exactly what the format's definition says of the bytes: the instance, or the
//! first fault in order of the text, with its kind and offset. One caller:
//!
//! ```text
//! /// The sum of the durations that a file tells, in periods.
//! fn work(alloc: Global, bytes: &[u8]) -> Result<u32, TextFault> {
//!     let instance = read_sm(alloc, bytes)?;
//!     Ok(instance.horizon())
//! }
//! ```
//!
//! [`write_sm`] writes an instance, and what it writes is read back as the same instance.
//!
//! Tokens, numbers and faults are those of `rc_edge`; the instance is one of `rc_instance`. The text
//! is walked once, line by line, by a [`cursor::Cursor`].
#![tactic(auto)]

mod cursor;
mod heads;
mod laws;
mod line;
mod number;
mod preamble;
mod read;
mod requests;
mod split;
mod successors;
mod token;
mod write;

pub use laws::{preamble_tells_topics, written_text_is_read_back};
pub use read::read_sm;
pub use write::write_sm;

#[cfg(test)]
mod tests;
