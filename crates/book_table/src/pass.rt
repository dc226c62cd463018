ghost use Rattle.std.specs.Prelude.{◌≡◌, ℕ, min, ◌<◌, length, slice_index};
ghost use Rattle.book_table.specs.Passes.{PassToken};

use atomic_table::Seat;
use book_rule::{Hand, Offer, Search, View};
use std::marker::Model;

/// The token by which one caller acts on a book. Contracts see the table it steps on, and its view:
/// what it knows.
///
/// Positions and turns are counted from 0: the turn is 2 c where c bookings are complete and none is
/// in hand, and 2 c + 1 while position c is in hand.
#[derive(Drop)]
pub struct Pass {
    pub(crate) seat: Seat<(), View>,
    pub(crate) number: u32,
    pub(crate) seen: u64,
    pub(crate) mine: u32,
    pub(crate) loaded: u64,
    pub(crate) resting: bool,
    pub(crate) offered: Vec<u32>,
    pub(crate) adopted: Offer,
    pub(crate) search: Search,
    pub(crate) hand: Hand,
    // Two passes of a vector share no cache line: each is written at every step of its worker.
    pub(crate) apart: [u64; 16],
}

impl Model for Pass {
    ghost use Rattle.book_table.specs.Passes.{PassToken};

    ghost Value = { PassToken };

    ghost use Rattle.book_table.specs.BookView.{pass_of, KeepsPass};

    ghost view = { pass_of };

    ghost invariant = { KeepsPass };
}

impl Pass {
    /// Its number among the passes of the book, from 0.
    pub fn number(&self) -> u32
        ensures { result ≡ self.now.view.number }
    {
        self.number
    }

    /// The greatest turn that it has loaded or made.
    pub fn seen(&self) -> u64
        ensures { result ≡ self.now.view.seen }
    {
        self.seen
    }

    /// How many bookings it has made.
    pub fn mine(&self) -> u32
        ensures { result ≡ self.now.view.mine }
    {
        self.mine
    }

    /// How many profile words it has loaded; it stays at the greatest number once it is there.
    pub fn loaded(&self) -> u64
        ensures { result ≡ min self.now.view.loaded 18446744073709551615 }
    {
        self.loaded
    }

    /// Whether it rests: it has seen that another pass has a position in hand, or that all are booked,
    /// and has claimed nothing since.
    pub fn resting(&self) -> bool
        ensures { result ≡ self.now.view.resting }
    {
        self.resting
    }

    /// The greatest start that it has offered for a position, 0 where none.
    pub fn offered(&self, position: u32) -> u32
        requires { position < length self.now.view.offered }
        ensures { result ≡ slice_index self.now.view.offered position }
    {
        self.offered[position as usize]
    }

    /// Its search, as far as it has come.
    pub fn search(&self) -> Search
        ensures { result ≡ self.now.view.search }
    {
        self.search
    }

    /// What it has in hand. If it holds, that is the position of its search.
    pub fn hand(&self) -> Hand
        ensures { result ≡ self.now.view.hand }
    {
        self.hand
    }
}
