//! Workers that book a whole list together, and a watch that tells how far they have come.
//!
//! Each worker has a pass of one running book, in a thread of its own where one can be made, as long
//! as there is something to book. It draws a ticket, searches the position of it ahead of the bookings
//! and offers what it has found, and books what is due at its known start, until a ticket is past the
//! list; one that is alone only books. Whatever their steps and in whatever order these come, the closed book is the serial
//! schedule. One caller, of three workers and a watch of five looks, where `known` is the serial
//! schedule of the list, made before on a line of events:
//!
//! ```text
//! let (book, mut passes) = Book::open(alloc, &list, 4)?;
//! let out = vec![in alloc; 0; book.positions() as usize]?;
//! let watch = passes.pop().map(|pass| Watch { pass, times: 5, out });
//! let ran = run_book(&rt, book, passes, &known, &NoGate, watch, &mut note);
//! let schedule = ran.closed.into_schedule();
//! ```
//!
//! [`book_all`] is the same without a watch.
//!
//! It stands on `ordered_book`, `spec_search` and `report_reader`. It takes no memory, and waits
//! for nothing but its own threads.
#![tactic(auto)]

mod line;
mod run;
mod watch;
mod work;

pub use run::{Ran, book_all, run_book};
pub use watch::Watch;
