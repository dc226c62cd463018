ghost use Rattle.std.specs.Prelude.{◌≡◌, ◌<◌, ◌≤◌, IfSome, IfNone};
ghost use Rattle.book_rule.specs.Listed.{count};
ghost use Rattle.book_rule.specs.Views.{after_ticket};
ghost use Rattle.book_table.specs.Passes.{IsFree};

use book_table::{Book, Pass};

/// Draws a ticket: the position to search, or None exactly where the ticket is past the last
/// position.
///
/// No two passes draw the same ticket before the word of the tickets wraps, but no clause says so.
pub fn draw(book: &Book<'_>, pass: &mut Pass) -> Option<u32>
    requires own { IsFree book.now pass.old }
    ensures own { IsFree book.now pass.new }
    ensures drew { pass.new.view ≡ after_ticket pass.old.view pass.new.view.ticket }
    ensures ticket { IfSome result (λ position. (position ≡ pass.new.view.ticket)
        × (position < count book.now.listing)) }
    ensures none { IfNone result (count book.now.listing ≤ pass.new.view.ticket) }
{
    let ticket = book.take_ticket(pass);
    if ticket < book.positions() as u64 {
        Some(ticket as u32)
    } else {
        None
    }
}
