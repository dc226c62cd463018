ghost use Rattle.std.specs.Prelude.{◌≡◌, ℕ, ◌+◌, ◌/◌, ◌<◌, ◌≤◌, true, MatchBool, MatchOption};
ghost use Rattle.book_rule.specs.Listed.{IsBookable, before_count, lasts, horizon_of};
ghost use Rattle.book_rule.specs.Searches.{is_chosen};
ghost use Rattle.book_table.specs.Passes.{IsPassOf};
ghost use Rattle.book_search.specs.Sought.{HasOnlyRead, IsSought, LoadsFew};
ghost use Rattle.book_search.specs.Runs.{AreKept};
ghost use Rattle.book_search.specs.Steps.{IsReading, IsUnderWay, IsDue, SearchesOn, IsPast, place_of};

use crate::floors::{Floors, load_word};
use book_table::{Book, Pass, Search};

/// Searches the start of the activity at the position of the pass's search, which has read nothing
/// yet, from its least start on.
///
/// Some: the start, in periods; the search has chosen it. None: no start is left from which the
/// activity would end by the horizon. That never comes to a pass that holds the position. Of the
/// pass only its search, its count of loaded words and the values that it keeps change.
pub fn seek(book: &Book<'_>, pass: &mut Pass) -> Option<u32>
    requires own { IsPassOf book.now pass.old }
    requires begins { HasOnlyRead book.now.listing 0 pass.old.view.search }
    ensures own { IsPassOf book.now pass.new }
    ensures sought { IsSought pass.old.view pass.new.view }
    ensures loads { LoadsFew book.now.listing pass.old.view pass.new.view }
    ensures found { MatchOption result
        (horizon_of book.now.listing
        < pass.new.view.search.least + lasts book.now.listing pass.old.view.search.position)
        (λ start. (start ≡ pass.new.view.search.least)
        × (start + lasts book.now.listing pass.old.view.search.position
        ≤ horizon_of book.now.listing)) }
    ensures chosen { pass.new.view.search.least
        + lasts book.now.listing pass.old.view.search.position ≤ horizon_of book.now.listing
        → is_chosen book.now.listing pass.new.view.search ≡ true }
{
    let horizon = book.horizon();
    read_predecessors(book, pass);
    find_room(book, pass, horizon)
}

// Reads the start of each predecessor, in rising order of their numbers.
fn read_predecessors(book: &Book<'_>, pass: &mut Pass)
    requires own { IsPassOf book.now pass.old }
    requires begins { HasOnlyRead book.now.listing 0 pass.old.view.search }
    requires bookable { IsBookable book.now.listing }
    ensures own { IsPassOf book.now pass.new }
    ensures read { IsReading book.now.listing
        (before_count book.now.listing pass.old.view.search.position) pass.old.view pass.new.view }
{
    let position = pass.search().position;
    'places: for place in 0..book.before_count(position) {
        let predecessor = book.position_of(book.before(position, place));
        book.load_start(pass, predecessor);
    }
}

// Loads the profile from the least start on, until all words of the activity have room.
fn find_room(book: &Book<'_>, pass: &mut Pass, horizon: u32) -> Option<u32>
    requires own { IsPassOf book.now pass.old }
    requires read { HasOnlyRead book.now.listing
        (before_count book.now.listing pass.old.view.search.position) pass.old.view.search }
    requires bookable { IsBookable book.now.listing }
    requires horizon { horizon ≡ horizon_of book.now.listing }
    ensures own { IsPassOf book.now pass.new }
    ensures under { IsUnderWay book.now.listing pass.new.view.search }
    ensures on { SearchesOn book.now.listing pass.old.view pass.new.view }
    ensures found { MatchOption result
        (horizon_of book.now.listing
        < pass.new.view.search.least + lasts book.now.listing pass.old.view.search.position)
        (λ start. (start ≡ pass.new.view.search.least)
        × (start + lasts book.now.listing pass.old.view.search.position
        ≤ horizon_of book.now.listing)) }
    ensures chosen { pass.new.view.search.least
        + lasts book.now.listing pass.old.view.search.position ≤ horizon_of book.now.listing
        → is_chosen book.now.listing pass.new.view.search ≡ true }
{
    let mut search = pass.search();
    let mut floors = Floors::none();
    let duration = book.lasts(search.position);
    'rooms: while search.least + duration <= horizon {
        if book.is_whole(search.position, search.free) {
            return Some(search.least);
        }
        search = go_on(book, pass, search, &mut floors);
    }
    None
}

// Loads the next word that the search needs, or passes the block whose first period it has come to.
fn go_on(book: &Book<'_>, pass: &mut Pass, search: Search, floors: &mut Floors) -> Search
    requires own { IsPassOf book.now pass.old }
    requires is { pass.old.view.search ≡ search }
    requires due { IsDue book.now.listing search }
    requires bookable { IsBookable book.now.listing }
    requires kept { AreKept pass.old.view.block pass.old.view.kept floors.old }
    ensures own { IsPassOf book.now pass.new }
    ensures is { pass.new.view.search ≡ result }
    ensures under { IsUnderWay book.now.listing result }
    ensures on { SearchesOn book.now.listing pass.old.view pass.new.view }
    ensures further { place_of search < place_of result }
    ensures kept { AreKept pass.new.view.block pass.new.view.kept floors.new }
{
    let period = search.least + search.free.periods;
    if passes_block(book, pass, period, search.free.words) {
        return pass.search();
    }
    load_word(book, pass, floors, period, search.free.words);
    pass.search()
}

// Whether the search comes to a block at its first word, and a floor leads it past the block.
fn passes_block(book: &Book<'_>, pass: &mut Pass, period: u32, index: u32) -> bool
    requires own { IsPassOf book.now pass.old }
    requires period { period < horizon_of book.now.listing }
    ensures own { IsPassOf book.now pass.new }
    ensures past { MatchBool result
        (IsPast book.now.listing (period / 32) pass.old.view pass.new.view)
        (pass.new.view ≡ pass.old.view) }
{
    if index != 0 || period % 32 != 0 {
        return false;
    }
    let least = pass.search().least;
    'floors: for index in 0..book.words() {
        book.load_floor(pass, period / 32, index);
        if pass.search().least != least {
            return true;
        }
    }
    false
}
