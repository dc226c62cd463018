//! The rule of the running book: what its words and its passes say at every moment.
//!
//! It has no call. The types say what a pass knows; `specs/` has the words of the list, the rule in
//! its eleven parts, and what each kind of step makes of a view; `proofs/` has the laws that each
//! step keeps the rule, over plain data.
#![tactic(auto)]

mod view;

pub use view::{Found, Hand, Kept, Offer, Reach, Search, View};
