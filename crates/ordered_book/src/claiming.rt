ghost use Rattle.std.specs.Prelude.{◌≡◌, ◌+◌, ◌*◌, ◌%◌, ◌<◌, ◌≤◌, true};
ghost use Rattle.book_rule.specs.Listed.{IsBookable, count};
ghost use Rattle.book_rule.specs.Reaches.{none_reached, is_whole};
ghost use Rattle.book_rule.specs.Searches.{is_chosen};
ghost use Rattle.book_rule.specs.Views.{lets_rest, full_hand, after_release};
ghost use Rattle.book_table.specs.Passes.{IsFree, Holds};
ghost use Rattle.book_search.specs.Sought.{HasOnlyRead};
ghost use Rattle.ordered_book.specs.Advanced.{IsShown, HasBooked};
ghost use Rattle.ordered_book.specs.Booking.{with_hand, IsBooked};

use crate::stop::Advance;
use book_search::seek;
use book_table::{Book, Pass};
use rc_edge::{Gate, Point};

/// Books positions in the order of the list, one after another, until another pass has one in hand or
/// all are booked; the pass rests afterwards.
///
/// Complete: the turn that was loaded or shown last is that of the end. Busy: it is that of a position
/// in hand of another pass. For each position it loads the offer, claims the turn, searches on from the
/// offer, adds the demand, stores the start and releases the turn; the gate is called before a claim,
/// after it, and once the position is booked. No memory is taken, and no other pass is waited for.
pub fn advance<G: Gate>(book: &Book<'_>, pass: &mut Pass, gate: &G) -> Advance
    requires { IsFree book.now pass.old }
    ensures own { IsFree book.now pass.new }
    ensures rests { pass.new.view.resting ≡ true }
    ensures shown { IsShown book.now.listing pass.new.view.seen result }
    ensures later { pass.old.view.seen ≤ pass.new.view.seen }
    ensures looks { pass.old.view.looks < pass.new.view.looks }
    ensures booked { HasBooked book.now.listing pass.old.view pass.new.view }
{
    let last = 2 * book.positions() as u64;
    let mut turn = book.load_turn(pass);
    'turns: while turn % 2 == 0 {
        if turn == last {
            return Advance::Complete;
        }
        turn = book_next(book, pass, turn, gate);
    }
    Advance::Busy { turn }
}

// Tries to book the position of an even turn. Its answer is the turn that was loaded or shown last.
pub(crate) fn book_next<G: Gate>(book: &Book<'_>, pass: &mut Pass, turn: u64, gate: &G) -> u64
    requires own { IsFree book.now pass.old }
    requires bookable { IsBookable book.now.listing }
    requires seen { turn ≡ pass.old.view.seen }
    requires even { turn % 2 ≡ 0 }
    requires more { turn < 2 * count book.now.listing }
    ensures own { IsFree book.now pass.new }
    ensures seen { pass.new.view.seen ≡ result }
    ensures rises { (turn < result) × (result ≤ 2 * count book.now.listing) }
    ensures rests { lets_rest book.now.listing result ≡ true → pass.new.view.resting ≡ true }
    ensures looks { pass.old.view.looks < pass.new.view.looks }
    ensures booked { HasBooked book.now.listing pass.old.view pass.new.view }
{
    let position = (turn / 2) as u32;
    book.load_offer(pass, position);
    gate.at(pass.number(), Point::Claiming, position);
    if let Err(shown) = book.claim(pass, turn) {
        return shown;
    }
    gate.at(pass.number(), Point::Claimed, position);
    book_in_hand(book, pass);
    gate.at(pass.number(), Point::Booked, position);
    book.load_turn(pass)
}

// Books the position in hand: it searches the start, and books it there.
fn book_in_hand(book: &Book<'_>, pass: &mut Pass)
    requires own { Holds book.now pass.old }
    requires bookable { IsBookable book.now.listing }
    requires hand { pass.old.view.hand ≡ full_hand }
    requires begins { HasOnlyRead book.now.listing 0 pass.old.view.search }
    ensures own { IsFree book.now pass.new }
    ensures booked { IsBooked book.now.listing pass.old.view pass.new.view }
{
    // The holder of a position always finds its start.
    let _ = seek(book, pass);
    book_chosen(book, pass);
}

// Books the position in hand, whose start is chosen: it adds the demand, stores the start, and releases the turn.
pub(crate) fn book_chosen(book: &Book<'_>, pass: &mut Pass)
    requires own { Holds book.now pass.old }
    requires bookable { IsBookable book.now.listing }
    requires chosen { is_chosen book.now.listing pass.old.view.search ≡ true }
    requires none { pass.old.view.hand.added ≡ none_reached }
    ensures own { IsFree book.now pass.new }
    ensures released { pass.new.view ≡ after_release pass.old.view }
{
    add_words(book, pass);
    book.store_start(pass);
    book.release(pass);
}

// Adds the demand of the activity in hand to each word of its booking.
fn add_words(book: &Book<'_>, pass: &mut Pass)
    requires own { Holds book.now pass.old }
    requires bookable { IsBookable book.now.listing }
    requires chosen { is_chosen book.now.listing pass.old.view.search ≡ true }
    requires none { pass.old.view.hand.added ≡ none_reached }
    ensures own { Holds book.now pass.new }
    ensures only { pass.new.view ≡ with_hand pass.old.view pass.new.view }
    ensures whole { is_whole book.now.listing pass.new.view.search.position pass.new.view.hand.added ≡ true }
{
    let search = pass.search();
    let mut added = pass.hand().added;
    'words: while !book.is_whole(search.position, added) {
        book.add_profile(pass, search.least + added.periods, added.words);
        added = pass.hand().added;
    }
}
