//! The top call of the scheduler: words in, files read, a text or a refusal out.
#![tactic(auto)]

mod answer;
pub mod calendar_laws;
mod commands;
pub mod fetch;
mod in_memory;
mod program;
mod refusal;
mod runs;
mod status;
mod steps;

pub use in_memory::run_in_memory;
pub use program::{Given, exit_code};
pub use rcpsp_words as words;
pub use rcpsp_words::{
    Command, Form, Format, Live, Name, Options, Order, Rounds, Samples, Shown, Size, WordsFault,
    Workers, read_words,
};
pub use refusal::Refusal;
pub use runs::{run, tell};
pub use status::Status;
