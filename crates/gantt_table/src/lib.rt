//! The texts that show a schedule: a table, a chart and CSV; and the table of time windows.
//!
//! Each call gives, byte for byte, the text that `specs/` defines: `table_text`, `chart_text`,
//! `csv_text` and `window_text`. Its only error is want of memory.
//!
//! ```
//! let text = table(alloc, &instance, &schedule)?;
//! ```
//!
//! It stands on `rc_instance`, `rc_edge`, `activity_net` and `time_windows`, and writes CSV by the kit's
//! `csv`.
#![tactic(auto)]

mod chart_text;
mod csv_text;
mod finish;
mod table_text;
mod window_text;

pub use chart_text::chart;
pub use csv_text::csv_table;
pub use table_text::table;
pub use window_text::window_table;

#[cfg(test)]
mod tests;
