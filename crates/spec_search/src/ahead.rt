ghost use Rattle.std.specs.Prelude.{◌+◌, ◌*◌, ◌<◌, ◌≤◌};
ghost use Rattle.book_rule.specs.Listed.{count, width, horizon_of};
ghost use Rattle.book_table.specs.Passes.{IsFree};
ghost use Rattle.spec_search.specs.Guesses.{HasSearched, IsGuess};

use crate::guess::Guess;
use book_search::seek;
use book_table::{Book, Pass};

/// Searches a start for a position that need not be due yet, beside what others book meanwhile.
///
/// It loads the turn, the starts of the activity's predecessors and the profile, and the turn
/// again.
///
/// `Found`: the first turn was not past the position. The start is at least the least start beside
/// the bookings that were complete at the first turn. Where the second turn is not past the
/// position either, it is at most the least start beside those that were complete or in hand at the
/// second turn, and so at most the serial start. Where both are the same even turn, it is exactly
/// the least start.
///
/// `Late`: either the first turn was past the position, or no start was left from which the
/// activity ends by the horizon; then the turn was loaded once more, and is past the position.
///
/// At most so many profile words are loaded as there are. The pass has made no booking.
pub fn speculate(book: &Book<'_>, pass: &mut Pass, position: u32) -> Guess
    requires own { IsFree book.now pass.old }
    requires position { position < count book.now.listing }
    ensures own { IsFree book.now pass.new }
    ensures guess { IsGuess book.now.listing pass.old.view pass.new.view position result }
    ensures searched { HasSearched pass.old.view pass.new.view }
    ensures loads { pass.new.view.loaded
        ≤ pass.old.view.loaded + width book.now.listing * horizon_of book.now.listing }
{
    let before = book.begin_search(pass, position);
    if before > 2 * position as u64 {
        return Guess::Late { turn: before };
    }
    let Some(start) = seek(book, pass) else {
        let turn = book.load_turn(pass);
        return Guess::Late { turn };
    };
    let after = book.end_search(pass);
    Guess::Found {
        start,
        seen_before: before,
        seen_after: after,
    }
}
