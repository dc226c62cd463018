//! Reports of a book that others book on: exactly the starts of a prefix of its list.
//!
//! ```text
//! let complete = report(&book, &mut pass, &mut starts);
//! // starts[0] to starts[complete - 1] are the serial starts of these positions
//! ```
//!
//! It stands on `book_table`, takes no memory and does not wait.
#![tactic(auto)]

ghost use Rattle.std.specs.Prelude.{◌/◌, ◌≤◌, length};
ghost use Rattle.book_rule.specs.Listed.{count};
ghost use Rattle.book_table.specs.Passes.{IsFree};
ghost use Rattle.report_reader.specs.Reported.{Reported, AreStarts};

use book_table::{Book, Pass};

/// Loads the turn, and answers how many bookings are complete at it.
///
/// That is half of the turn, rounded down, and no less than half of the turn that the pass had
/// seen. Entry i of `out` is then the serial start of position i, for each position below the
/// answer; the other entries stand. Of the pass only what it has seen and its search change: it has
/// made no booking, and it rests if it rested before.
pub fn report(book: &Book<'_>, pass: &mut Pass, out: &mut [u32]) -> u32
    requires own { IsFree book.now pass.old }
    requires room { count book.now.listing ≤ length out.old }
    ensures own { IsFree book.now pass.new }
    ensures told { Reported book.now.listing pass.old.view result pass.new.view }
    ensures longer { pass.old.view.seen / 2 ≤ result }
    ensures starts { AreStarts book.now.listing result out.old out.new }
{
    let turn = book.load_turn(pass);
    let complete = (turn / 2).min(book.positions() as u64) as u32;
    for position in 0..complete {
        let word = book.load_start(pass, position);
        out[position as usize] = (word - 1) as u32;
    }
    complete
}
