//! Booking on a running book, in the order of its list.
//!
//! [`advance`] books position after position by one pass, until another pass has the next position in
//! hand, or all are booked. It waits for no other pass: where one is busy, it says so and rests. One
//! caller, with two passes of a book:
//!
//! ```text
//! if let Advance::Complete = advance(&book, &mut first, &NoGate) {
//!     advance(&book, &mut second, &NoGate);
//!     let closed = book.close(passes, None);
//! }
//! ```
#![tactic(auto)]

mod claiming;
mod known;
mod stop;
#[cfg(test)]
mod tests;

pub use claiming::advance;
pub use known::advance_known;
pub use stop::Advance;
