ghost use Rattle.std.specs.Prelude.{◌≡◌, ◌*◌, ◌%◌, ◌<◌, ◌≤◌, true};
ghost use Rattle.rc_instance.specs.Schedule.{serial_schedule};
ghost use Rattle.book_rule.specs.Listed.{IsBookable, count, begins, project_of};
ghost use Rattle.book_rule.specs.Views.{lets_rest};
ghost use Rattle.book_table.specs.Passes.{IsFree};
ghost use Rattle.ordered_book.specs.Advanced.{IsShown, HasBooked};

use crate::claiming::book_chosen;
use crate::stop::Advance;
use book_table::{Book, Pass};
use rc_edge::{Gate, Point};
use rc_instance::Schedule;

/// The same as [`advance`](crate::advance) where the serial schedule of the list is known: no start is
/// searched, and no profile word is loaded.
///
/// For each position it claims the turn with the known start, adds the demand, stores the start and
/// releases the turn. The gate is called at the same points.
pub fn advance_known<G: Gate>(
    book: &Book<'_>,
    pass: &mut Pass,
    known: &Schedule,
    gate: &G,
) -> Advance
    requires own { IsFree book.now pass.old }
    requires known { known.now
        ≡ serial_schedule (project_of book.now.listing) book.now.listing.order }
    ensures own { IsFree book.now pass.new }
    ensures rests { pass.new.view.resting ≡ true }
    ensures shown { IsShown book.now.listing pass.new.view.seen result }
    ensures later { pass.old.view.seen ≤ pass.new.view.seen }
    ensures looks { pass.old.view.looks < pass.new.view.looks }
    ensures booked { HasBooked book.now.listing pass.old.view pass.new.view }
    ensures loaded { pass.new.view.loaded ≡ pass.old.view.loaded }
{
    let last = 2 * book.positions() as u64;
    let mut turn = book.load_turn(pass);
    'turns: while turn % 2 == 0 {
        if turn == last {
            return Advance::Complete;
        }
        turn = book_known(book, pass, turn, known, gate);
    }
    Advance::Busy { turn }
}

// Tries to book the position of an even turn at its known start. Its answer is the turn that was loaded or shown last.
fn book_known<G: Gate>(
    book: &Book<'_>,
    pass: &mut Pass,
    turn: u64,
    known: &Schedule,
    gate: &G,
) -> u64
    requires own { IsFree book.now pass.old }
    requires bookable { IsBookable book.now.listing }
    requires seen { turn ≡ pass.old.view.seen }
    requires even { turn % 2 ≡ 0 }
    requires more { turn < 2 * count book.now.listing }
    requires known { known.now
        ≡ serial_schedule (project_of book.now.listing) book.now.listing.order }
    ensures own { IsFree book.now pass.new }
    ensures seen { pass.new.view.seen ≡ result }
    ensures rises { (turn < result) × (result ≤ 2 * count book.now.listing) }
    ensures rests { lets_rest book.now.listing result ≡ true → pass.new.view.resting ≡ true }
    ensures looks { pass.old.view.looks < pass.new.view.looks }
    ensures booked { HasBooked book.now.listing pass.old.view pass.new.view }
    ensures loaded { pass.new.view.loaded ≡ pass.old.view.loaded }
{
    let position = (turn / 2) as u32;
    let start = known_start(book, position, known);
    gate.at(pass.number(), Point::Claiming, position);
    if let Err(shown) = book.claim_known(pass, turn, start) {
        return shown;
    }
    gate.at(pass.number(), Point::Claimed, position);
    book_chosen(book, pass);
    gate.at(pass.number(), Point::Booked, position);
    book.load_turn(pass)
}

// The serial start of a position, from the known schedule.
fn known_start(book: &Book<'_>, position: u32, known: &Schedule) -> u32
    requires bookable { IsBookable book.now.listing }
    requires position { position < count book.now.listing }
    requires known { known.now
        ≡ serial_schedule (project_of book.now.listing) book.now.listing.order }
    ensures { result ≡ begins book.now.listing position }
{
    known.start(book.activity(position))
}
