// Bookings of one position each, by step calls.
ghost use Rattle.std.specs.Prelude.{OnOk};
ghost use Rattle.book_table.specs.Passes.{IsPassOf, IsFree, Holds};
ghost use Rattle.book_search.specs.Sought.{HasOnlyRead};

use book_search::seek;
use book_table::{Book, Pass};
use std::test::Fail;

// A booking here takes at most so many steps.
const STEPS: u32 = 100;

// Adds the demand of the activity in hand to the next word of its booking.
fn add_next(book: &Book<'_>, pass: &mut Pass) -> Result<(), Fail>
    requires { Holds book.now pass.old }
    ensures { IsPassOf book.now pass.new }
{
    let search = pass.search();
    let added = pass.hand().added;
    let period = search.least.checked_add(added.periods);
    let period = period.ok_or("a booking ends by the horizon")?;
    let inside = added.periods < book.lasts(search.position) && added.words < book.words();
    if book.is_chosen(search) && inside {
        book.add_profile(pass, period, added.words);
        return Ok(());
    }
    Err(Fail::from("there is a next word"))
}

// The next step of a pass that holds a position and has found its start.
fn step_in_hand(book: &Book<'_>, pass: &mut Pass) -> Result<(), Fail>
    requires { Holds book.now pass.old }
    ensures { IsPassOf book.now pass.new }
{
    let search = pass.search();
    let hand = pass.hand();
    if !book.is_chosen(search) {
        return Err(Fail::from("the start of a holder is chosen"));
    } else if !book.is_whole(search.position, hand.added) {
        add_next(book, pass)?;
    } else if !hand.stored {
        book.store_start(pass);
    } else {
        book.release(pass);
    }
    Ok(())
}

// Books the position in hand, whose start is found.
fn book_in_hand(book: &Book<'_>, pass: &mut Pass) -> Result<(), Fail>
    requires { IsPassOf book.now pass.old }
    ensures { OnOk result (IsFree book.now pass.new) }
{
    'steps: for _ in 0..STEPS {
        if !pass.hand().holds {
            return Ok(());
        }
        step_in_hand(book, pass)?;
    }
    Err(Fail::from("a booking takes so many steps"))
}

// Claims the position that is due.
pub(crate) fn claim_next(book: &Book<'_>, pass: &mut Pass) -> Result<(), Fail>
    requires { IsFree book.now pass.old }
    ensures own { OnOk result (IsPassOf book.now pass.new) }
    ensures begins { OnOk result (HasOnlyRead book.now.listing 0 pass.new.view.search) }
{
    let turn = book.load_turn(pass);
    if turn % 2 != 0 || turn == 2 * book.positions() as u64 {
        return Err(Fail::from("a position is due"));
    }
    let Ok(()) = book.claim(pass, turn) else {
        return Err(Fail::from("no other pass has claimed it"));
    };
    if pass.search().least > book.horizon() {
        return Err(Fail::from("a search begins by the horizon"));
    }
    Ok(())
}

// Books the position that is due.
fn book_one(book: &Book<'_>, pass: &mut Pass) -> Result<(), Fail>
    requires { IsFree book.now pass.old }
    ensures { OnOk result (IsFree book.now pass.new) }
{
    claim_next(book, pass)?;
    if seek(book, pass).is_none() {
        return Err(Fail::from("a holder finds its start"));
    }
    book_in_hand(book, pass)
}

// Books so many positions.
pub(crate) fn book_some(book: &Book<'_>, pass: &mut Pass, count: u32) -> Result<(), Fail>
    requires { IsFree book.now pass.old }
    ensures { OnOk result (IsFree book.now pass.new) }
{
    'bookings: for _ in 0..count {
        book_one(book, pass)?;
    }
    Ok(())
}
