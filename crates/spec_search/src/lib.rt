//! Searching ahead: starts of positions that are not due yet, found beside others' bookings.
//!
//! ```text
//! while let Some(position) = draw(&book, &mut pass) {
//!     if let Guess::Found { start, .. } = speculate(&book, &mut pass, position) {
//!         offer(&book, &mut pass, position, start);
//!     }
//!     ..
//! }
//! ```
//!
//! What was found is never above the serial start while the position is not due, so that whoever
//! books the position may begin its search there. No call takes memory, and none waits. It stands
//! on `book_table` and `book_search`.
#![tactic(auto)]

mod ahead;
mod guess;
mod offering;
mod ticket;

pub use ahead::speculate;
pub use guess::Guess;
pub use offering::offer;
pub use ticket::draw;
