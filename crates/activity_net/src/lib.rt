//! Networks of activities without a cycle, and feasible lists of their activities.
//!
//! [`Net::of`] takes an instance, and refuses it with a fixed [`Ring`] exactly where its precedence
//! has a cycle. A [`FeasibleList`] keeps an order of the activities of a net in its type: each once,
//! and after all its direct predecessors. One caller, which lists the activities in one such order:
//!
//! ```text
//! fn some_list<'n>(alloc: Global, net: &'n Net) -> Result<FeasibleList<'n>, AllocError> {
//!     let order = Vec::from_slice(alloc, net.order())?;
//!     Ok(FeasibleList::from_feasible(net, order))
//! }
//! ```
//!
//! It stands on `rc_instance` alone.
#![tactic(auto)]

mod bits;
mod fault;
mod feasible_list;
pub mod laws;
mod marks;
mod net;
mod predecessors;
mod reach;
mod removal;
mod ring;
#[cfg(test)]
mod tests;

pub use fault::{ListFault, NetFault};
pub use feasible_list::FeasibleList;
pub use net::Net;
pub use ring::Ring;
