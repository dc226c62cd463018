//! Many files, each scheduled alone by one of several workers, and what they come to in order.
//!
//! [`run_many`] writes exactly the single runs `schedule NAME --workers 1`, joined in order of the names,
//! whichever worker did which. All files are fetched first; then [`hand_out`] gives them to the workers by
//! number, each run stands over its own file in memory and its own sinks, and what they came to is joined
//! and written at once:
//!
//! ```text
//! let status = run_many(rt, alloc, &words, &mut files, &mut out, &mut note, &NoGate);
//! ExitCode::from(status.code())
//! ```
#![tactic(auto)]

mod alone;
mod batch;
mod joined;
mod many;
mod program;
mod ran;
mod runs;

pub use many::run_many;
pub use program::exit_code;
pub use work_queue::{MAX_WORKERS, hand_out};
