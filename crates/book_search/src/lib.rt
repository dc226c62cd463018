//! The whole search of a start on a running book, by loads of its words.
//!
//! A pass that has just claimed a position, or that has begun a search ahead, searches the start of
//! its activity by [`seek`]: it reads the start of each predecessor, and then the profile from the
//! latest of their ends on, word by word, until every word of the activity has room. Where it comes
//! to the head of a block of 32 periods it loads the floors of the block first, and passes the whole
//! block where a floor leaves no room in it. Where it has loaded a word of each period of a block, it
//! stores their least values as the floor of the block.
//!
//! A holder of a position finds its serial start; a search ahead finds a start that is never later,
//! as long as its position is not claimed. No call takes memory, and none waits. One caller:
//!
//! ```text
//! book.begin_search(pass, position);
//! match seek(book, pass) {
//!     Some(start) => { /* chosen: it may be offered once the search has ended */ }
//!     None => { /* no start is left before the horizon: its position was claimed meanwhile */ }
//! }
//! ```
#![tactic(auto)]

mod floors;
mod seeking;

pub use seeking::seek;
