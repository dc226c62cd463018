ghost use Rattle.std.specs.Prelude.{◌≡◌, ℕ, ◌<◌, [], IfOk, slice_index};
ghost use Rattle.rc_instance.specs.Project.{IsActivity};
ghost use Rattle.book_rule.specs.Listed.{IsBookable, count, width, horizon_of, activity_at, project_of, lasts};
ghost use Rattle.book_table.specs.Passes.{RunningBook};

use crate::rule::BookRule;
use activity_net::FeasibleList;
use atomic_table::Table;
use book_rule::View;
use rc_instance::Schedule;
use std::alloc::Global;
use std::marker::Model;

/// A book of the bookings of a feasible list, in the atomic words of one table. Contracts see which
/// table it is, its list, and how many passes it has.
#[derive(Drop)]
pub struct Book<'n> {
    pub(crate) list: &'n FeasibleList<'n>,
    pub(crate) table: Table<(), View, FeasibleList<'n>, BookRule, Global>,
    pub(crate) passes: u32,
    pub(crate) positions: u32,
    pub(crate) words: u32,
    pub(crate) horizon: u32,
    // The position of each activity, in order of number.
    pub(crate) places: Vec<u32>,
    // What each position needs, packed, word after word; and how much there is in every period: no
    // word where some capacity changes.
    pub(crate) needs: Vec<u64>,
    pub(crate) rooms: Vec<u64>,
    // How many bookings each pass has made, once the book is closed, and its schedule.
    pub(crate) counts: Vec<u32>,
    pub(crate) schedule: Schedule,
}

impl<'n> Model for Book<'n> {
    ghost use Rattle.book_table.specs.Passes.{RunningBook};

    ghost Value = { RunningBook };

    ghost use Rattle.book_table.specs.BookView.{book_of, KeepsBook};

    ghost view = { book_of };

    ghost invariant = { KeepsBook };
}

impl<'n> Book<'n> {
    /// The list whose activities are booked.
    pub fn list(&self) -> &'n FeasibleList<'n>
        ensures value { result.now ≡ self.now.listing }
        ensures bookable { IsBookable self.now.listing }
    {
        self.list
    }
}
