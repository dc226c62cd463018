// One step of a pass, whatever it has come to.
ghost use Rattle.std.specs.Prelude.{◌≡◌, ℕ, ◌<◌, true, false, length, slice_index_or, IsTrue};
ghost use Rattle.book_table.specs.Passes.{IsPassOf, IsFree, Holds, AreAll, AreAtRest};

use book_table::{Book, Pass};
use std::test::Fail;

// Loads what the search needs next, and says whether there was something to load.
fn search_on(book: &Book<'_>, pass: &mut Pass) -> bool
    requires { IsPassOf book.now pass.old }
    ensures own { IsPassOf book.now pass.new }
    ensures number { pass.new.view.number ≡ pass.old.view.number }
    ensures hand { pass.new.view.hand ≡ pass.old.view.hand }
{
    let search = pass.search();
    if search.read < book.before_count(search.position) {
        let predecessor = book.before(search.position, search.read);
        book.load_start(pass, book.position_of(predecessor));
        return true;
    }
    let Some(period) = search.least.checked_add(search.free.periods) else {
        return false;
    };
    let index = search.free.words;
    let inside = period < book.horizon() && index < book.words();
    if inside {
        book.load_profile(pass, period, index);
    }
    inside
}

// Adds the demand of the activity in hand to the next word of its booking.
fn add_next(book: &Book<'_>, pass: &mut Pass) -> Result<(), Fail>
    requires own { Holds book.now pass.old }
    ensures own { IsPassOf book.now pass.new }
    ensures number { pass.new.view.number ≡ pass.old.view.number }
{
    let search = pass.search();
    let added = pass.hand().added;
    let period = search.least.checked_add(added.periods);
    let period = period.ok_or("a booking ends by the horizon")?;
    let inside = added.periods < book.lasts(search.position) && added.words < book.words();
    if book.is_chosen(search) && inside {
        book.add_profile(pass, period, added.words);
        return Ok(());
    }
    Err(Fail::from("there is a next word"))
}

// The next step of a pass that holds a position.
fn step_in_hand(book: &Book<'_>, pass: &mut Pass) -> Result<(), Fail>
    requires { Holds book.now pass.old }
    ensures own { IsPassOf book.now pass.new }
    ensures number { pass.new.view.number ≡ pass.old.view.number }
{
    let search = pass.search();
    let hand = pass.hand();
    if !book.is_chosen(search) {
        if !search_on(book, pass) {
            return Err(Fail::from("the search of a holder goes on"));
        }
    } else if !book.is_whole(search.position, hand.added) {
        add_next(book, pass)?;
    } else if !hand.stored {
        book.store_start(pass);
    } else {
        book.release(pass);
    }
    Ok(())
}

// The next step of a search ahead, which is ended and offered once its start is chosen. It answers
// whether there was one.
fn step_ahead(book: &Book<'_>, pass: &mut Pass) -> bool
    requires free { IsFree book.now pass.old }
    requires ahead { pass.old.view.search.ahead ≡ true }
    ensures own { IsFree book.now pass.new }
    ensures number { pass.new.view.number ≡ pass.old.view.number }
{
    let search = pass.search();
    if !book.is_chosen(search) {
        return search_on(book, pass);
    }
    book.end_search(pass);
    book.raise_offer(pass, search.position, search.least);
    true
}

// The next step of a pass that holds nothing and does not search: it claims an even turn, and else loads
// the turn; one draw in 32 lets it search ahead.
fn step_at_turn(book: &Book<'_>, pass: &mut Pass, draw: u64)
    requires { IsFree book.now pass.old }
    ensures own { IsPassOf book.now pass.new }
    ensures number { pass.new.view.number ≡ pass.old.view.number }
{
    let seen = pass.seen();
    if seen % 2 == 0 && seen < 2 * book.positions() as u64 {
        book.load_offer(pass, (seen / 2) as u32);
        let _ = book.claim(pass, seen);
        return;
    }
    let next = seen / 2 + draw / 32 % 8;
    if draw % 32 == 31 && next < book.positions() as u64 {
        book.begin_search(pass, next as u32);
    } else {
        book.load_turn(pass);
    }
}

// The next step of a pass.
pub(crate) fn step(book: &Book<'_>, pass: &mut Pass, draw: u64) -> Result<(), Fail>
    requires { IsPassOf book.now pass.old }
    ensures own { IsPassOf book.now pass.new }
    ensures number { pass.new.view.number ≡ pass.old.view.number }
{
    if pass.hand().holds {
        return step_in_hand(book, pass);
    }
    let went_on = pass.search().ahead && step_ahead(book, pass);
    if !went_on {
        step_at_turn(book, pass, draw);
    }
    Ok(())
}

// A number that depends on a seed and a count in no simple way (the finish of `SplitMix64`).
fn mixed(seed: u64, count: u64) -> u64 {
    let sum = count.wrapping_mul(0x9e37_79b9_7f4a_7c15).wrapping_add(seed);
    let once = (sum ^ (sum >> 30)).wrapping_mul(0xbf58_476d_1ce4_e5b9);
    let twice = (once ^ (once >> 27)).wrapping_mul(0x94d0_49bb_1331_11eb);
    twice ^ (twice >> 31)
}

// Up to so many steps until all passes rest, by each in turn, or in an order that is drawn from a seed.
pub(crate) fn steps(
    book: &Book<'_>,
    passes: &mut Vec<Pass>,
    count: u64,
    seed: Option<u64>,
) -> Result<(), Fail>
    requires { AreAll book.now passes.old.items }
    ensures { AreAll book.now passes.new.items }
{
    for at in 0..count {
        if passes.len() == 0 || are_at_rest(book, passes) {
            return Ok(());
        }
        let (caller, draw) = match seed {
            None => (at, 0),
            Some(seed) => (mixed(seed, at), mixed(seed, at) / 64),
        };
        let caller = (caller % passes.len() as u64) as usize;
        step_of(book, passes, caller, draw)?;
    }
    Ok(())
}

// The next step of one of the passes.
pub(crate) fn step_of(
    book: &Book<'_>,
    passes: &mut Vec<Pass>,
    caller: usize,
    draw: u64,
) -> Result<(), Fail>
    requires all { AreAll book.now passes.old.items }
    requires caller { caller < length passes.old.items }
    ensures { AreAll book.now passes.new.items }
{
    step(book, &mut passes[caller], draw)
}

// Whether all of the passes rest.
pub(crate) fn are_at_rest(book: &Book<'_>, passes: &Vec<Pass>) -> bool
    requires { AreAll book.now passes.now.items }
    ensures { IsTrue result → AreAtRest book.now passes.now.items }
{
    passes.iter().all(|pass| pass.resting())
}
