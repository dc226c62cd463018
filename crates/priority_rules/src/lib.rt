//! Feasible lists by priority rules and by keys.
//!
//! `list_by_keys` takes, again and again, the activity of least key among those that are not listed
//! and whose direct predecessors all are: its list is `key_list` of its project. `list_of` does so
//! by a `Rule`, and a `Chooser` as often as wanted without taking memory. A `Picker` gives the
//! activities of such a list one after another, so that it can be given up before it is whole.
//!
//! ```text
//! let windows = Windows::of(alloc, &net)?;
//! let list = list_of(alloc, &net, &windows, Rule::Lft)?;
//! ```
//!
//! It stands on `activity_net`, whose lists it makes, and on `time_windows`, whose latest starts
//! two of the rules compare.
#![tactic(auto)]

mod chooser;
mod choosing;
mod key_list;
pub mod laws;
mod picker;
mod pile;
mod rule;
mod rule_list;

pub use chooser::Chooser;
pub use key_list::{list_by_keys, list_by_number};
pub use picker::Picker;
pub use rule::Rule;
pub use rule_list::list_of;

#[cfg(test)]
mod tests;
