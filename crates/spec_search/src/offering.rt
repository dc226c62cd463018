ghost use Rattle.std.specs.Prelude.{◌≡◌, ◌≤◌, slice_index};
ghost use Rattle.book_rule.specs.Views.{after_raise};
ghost use Rattle.book_table.specs.Passes.{IsFree};

use book_table::{Book, Pass};

/// Offers a start for a position: both are those that the pass has found last.
///
/// The offer for the position is then at least this start.
pub fn offer(book: &Book<'_>, pass: &mut Pass, position: u32, start: u32)
    requires own { IsFree book.now pass.old }
    requires position { position ≡ pass.old.view.found.position }
    requires start { start ≡ pass.old.view.found.start }
    ensures own { IsFree book.now pass.new }
    ensures raised { pass.new.view ≡ after_raise pass.old.view position start }
    ensures offered { start ≤ slice_index pass.new.view.offered position }
{
    book.raise_offer(pass, position, start);
}
