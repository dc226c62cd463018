//! Reads instances in the `.rcp` format of Patterson, lists of numbers, and calendars, and writes
//! instances in that format.
//!
//! [`read_rcp`], [`read_list`] and [`read_calendar`] answer exactly what the definition of the format
//! says of the bytes, or the first fault, with its kind and offset. One caller:
//!
//! ```text
//! /// The instance of two files, with its calendar.
//! fn read(alloc: Global, text: &[u8], calendar: &[u8]) -> Result<Instance, TextFault> {
//!     let instance = read_rcp(alloc, text)?;
//!     let changes = read_calendar(alloc, calendar, instance.resources())?;
//!     Ok(instance.with_calendar(changes))
//! }
//! ```
//!
//! Tokens, numbers and faults are those of `rc_edge`; the instance is one of `rc_instance`. A text is
//! walked once, by a [`cursor::Cursor`].
#![tactic(auto)]

mod calendar;
mod cursor;
mod head;
mod laws;
mod list_file;
mod parts;
mod read;
mod write;

pub use calendar::read_calendar;
pub use laws::written_text_is_read_back;
pub use list_file::read_list;
pub use read::read_rcp;
pub use write::write_rcp;

#[cfg(test)]
mod tests;
