//! The running book: bookings in atomic words, which some callers make while others search ahead.
//!
//! A [`Book`] of a feasible list is opened with so many [`Pass`]es, one for each caller. Each call
//! that takes a pass makes one atomic step: it loads, stores or changes one word of the book. A pass
//! claims the next position of the list by the turn, adds the demand of its activity to the profile,
//! stores its start, and releases the turn. Whatever other passes do, the start is that of the serial
//! schedule. Once all are booked, its start words are the whole schedule.
//!
//! Only [`Book::open`] takes memory, and no call waits. `docs/BOOK.md` tells the whole of it.
#![tactic(auto)]

mod aimed;
mod book;
mod closed;
mod closing;
mod moves;
mod opening;
mod packed;
mod pass;
mod plays;
mod rule;
mod shut;
mod sizes;
mod steps;

pub use book::Book;
pub use book_rule::{Hand, Offer, Reach, Search};
pub use closed::Closed;
pub use pass::Pass;
