//! The rule of a race: several seekers value samples, each of which has a word, and share the least
//! word that was found.
//!
//! A race is a table of words, of which two say something. `ticket_word` is the place of the number
//! of the next ticket: who adds 1 to it draws the ticket that it was, and the ticket of each sample
//! is drawn once. `best_word` is the place of the best word so far, first [`NO_WORD`]: a sample that
//! is valued lowers it to its own word, and a sample whose word is known to be above it may be given
//! up. They stand on cache lines of their own, since who draws a ticket takes its line away from all
//! others, which load the best word at each step. A seeker carries a [`SeekerView`], what it knows.
//!
//! This crate speaks of lists of words alone. `specs/Rule.antt` states what holds between any two
//! steps, `proofs/` that each step keeps it, and that once all seekers have ended and are joined the
//! best word is the least of all. `key_sampling` makes a race of samples of it.
#![tactic(auto)]

mod view;

pub use view::{NO_WORD, SeekerView};
