//! The words of the command line, and the command that they say.
//!
//! [`read_words`] classes each word by the one table of options, gathers what the words give, and
//! hands it to the command that the first word names. Each command has a struct of its own.
//! [`read_many`] reads the words of the batch program, which have no command, over the same table.
#![tactic(auto)]

pub mod commands;
mod gathered;
pub mod laws;
mod many;
mod part;
mod table;
mod values;
mod words;

pub use commands::Command;
pub use many::{MANY_WORKERS, Many, plain_words, read_many};
pub use values::form::Form;
pub use values::format::Format;
pub use values::live::Live;
pub use values::name::Name;
pub use values::order::Order;
pub use values::rounds::Rounds;
pub use values::samples::Samples;
pub use values::shown::Shown;
pub use values::size::Size;
pub use values::workers::Workers;
pub use words::{Options, WordsFault, read_words};

#[cfg(test)]
mod tests;
