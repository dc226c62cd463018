// Opening a book: its table, its words and its passes are made, and all memory is taken.
ghost use Rattle.std.specs.Prelude.{◌≡◌, ℕ, ◌+◌, ◌*◌, ◌/◌, ◌<◌, ◌≤◌, true, false, [], length, replicate, IfOk};
ghost use Rattle.rc_instance.specs.Misfit.{HasNoMisfit};
ghost use Rattle.book_rule.specs.Listed.{count};
ghost use Rattle.book_rule.specs.Layout.{place};
ghost use Rattle.book_rule.specs.Views.{new_view, first_view};
ghost use Rattle.book_table.specs.Passes.{AreFresh, fresh_pass};
ghost use Rattle.book_table.specs.BookView.{ArePlaces};

use crate::book::Book;
use crate::packed::{needs_of, rooms_of};
use crate::pass::Pass;
use crate::plays::Part;
use crate::sizes::FIRST_START;
use activity_net::FeasibleList;
use atomic_table::{Seat, Table};
use book_rule::{Hand, Offer, Reach, Search, View};
use rc_instance::{Memory, Schedule};
use std::alloc::Global;

const NONE: Reach = Reach {
    periods: 0,
    words: 0,
};

impl<'n> Book<'n> {
    /// Opens a book of a list with so many passes, numbered from 0: pass 0 is active, the others rest.
    ///
    /// No booking is made yet. All memory that the book and its passes need is taken here:
    /// it is refused only where there is not so much.
    pub fn open(
        alloc: Global,
        list: &'n FeasibleList<'n>,
        passes: u32,
    ) -> Result<(Book<'n>, Vec<Pass>), Memory>
        requires fits { HasNoMisfit list.now.network.project }
        requires passes { (1 ≤ passes) × (passes ≤ 65) }
        ensures { IfOk result (λ opened. (opened.0.listing ≡ list.now) × (opened.0.passes ≡ passes) × AreFresh opened.0 opened.1.items) }
    {
        let (book, first) = Book::of_one(alloc, list, passes)?;
        let all = book.with_others(alloc, first, passes)?;
        Ok((book, all))
    }

    // The book, and its first pass.
    fn of_one(
        alloc: Global,
        list: &'n FeasibleList<'n>,
        passes: u32,
    ) -> Result<(Book<'n>, Pass), Memory>
        requires fits { HasNoMisfit list.now.network.project }
        requires passes { 1 ≤ passes }
        ensures { IfOk result (λ opened. (opened.0.listing ≡ list.now) × (opened.0.passes ≡ passes) × (opened.1 ≡ fresh_pass opened.0 0 false 1)) }
    {
        let instance = list.net().instance();
        let positions = instance.count();
        let words = (instance.resources() + 3) / 4;
        let horizon = instance.horizon();
        let places = places_of(alloc, list)?;
        let needs = needs_of(alloc, list)?;
        let rooms = rooms_of(alloc, list)?;
        let counts = vec![in alloc; 0; passes as usize]?;
        let schedule = Schedule::zero(alloc, positions)?;
        let offered = vec![in alloc; 0; positions as usize]?;
        let zeros = vec![in alloc; 0; word_total(positions, words, horizon)]?;
        let (table, seat) = Table::of_words(alloc, &zeros, list)?;
        let book = Book {
            list,
            table,
            passes,
            positions,
            words,
            horizon,
            places,
            needs,
            rooms,
            counts,
            schedule,
        };
        Ok((book, Pass::new(seat, 0, false, offered)))
    }

    // The first pass, and those that are made of it, up to so many.
    fn with_others(&self, alloc: Global, first: Pass, passes: u32) -> Result<Vec<Pass>, Memory>
        requires passes { (1 ≤ passes) × (passes ≡ self.now.passes) }
        requires first { first ≡ fresh_pass self.now 0 false 1 }
        ensures { IfOk result (λ all. AreFresh self.now all.items) }
    {
        let mut first = first;
        let mut all = Vec::with_capacity(alloc, passes as usize)?;
        for number in 1..passes {
            let offered = vec![in alloc; 0; self.positions as usize]?;
            all.push(self.another(&mut first, number, offered))?;
        }
        all.insert(0, first)?;
        Ok(all)
    }

    // One pass more, which rests: pass 0 is cut in two.
    fn another(&self, first: &mut Pass, number: u32, offered: Vec<u32>) -> Pass
        requires first { first.old ≡ fresh_pass self.now 0 false number }
        requires offered { offered.items ≡ replicate (count self.now.listing) 0 }
        ensures first { first.new ≡ fresh_pass self.now 0 false (number + 1) }
        ensures another { result ≡ fresh_pass self.now number true 0 }
    {
        let seat = self.table.shared.split_seat::<Part>(&mut first.seat);
        Pass::new(seat, number, true, offered)
    }
}

impl Pass {
    // A pass that has done nothing yet.
    fn new(seat: Seat<(), View>, number: u32, resting: bool, offered: Vec<u32>) -> Pass
        requires view { seat.me.0 ≡ new_view seat.me.0.list number resting seat.me.0.made }
        requires offered { offered.items ≡ seat.me.0.offered }
        requires slots { seat.me.1 ≡ [] }
        ensures { result ≡ record { table = seat.table_id; view = seat.me.0 } }
    {
        Pass {
            seat,
            number,
            seen: 0,
            mine: 0,
            loaded: 0,
            resting,
            offered,
            adopted: Offer {
                position: 0,
                start: 0,
            },
            search: Search {
                position: 0,
                ahead: false,
                begun: 0,
                read: 0,
                least: 0,
                free: NONE,
            },
            hand: Hand {
                holds: false,
                added: NONE,
                stored: false,
            },
            apart: [0; 16],
        }
    }
}

// How many words the table of a book has.
fn word_total(positions: u32, words: u32, horizon: u32) -> usize
    requires words { words ≤ 4 }
    requires horizon { horizon ≤ 131070 }
    ensures { result ≡ 32 + (positions + (positions + (place words horizon 0 + place words ((horizon + 31) / 32) 0))) }
{
    let blocks = (horizon + 31) / 32;
    let cells = horizon as usize * words as usize;
    let floors = blocks as usize * words as usize;
    FIRST_START + 2 * positions as usize + cells + floors
}

// The position of each activity of a list, in order of number.
fn places_of(alloc: Global, list: &FeasibleList<'_>) -> Result<Vec<u32>, Memory>
    ensures { IfOk result (λ places. ArePlaces list.now places.items) }
{
    let order = list.order();
    let mut places = vec![in alloc; 0; order.len()]?;
    for position in 0..list.net().instance().count() {
        places[order[position as usize] as usize - 1] = position;
    }
    Ok(places)
}
