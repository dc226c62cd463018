ghost use Rattle.std.specs.Prelude.{◌≡◌, ◌≢◌, ℕ, ◌+◌, ◌*◌, ◌/◌, ◌%◌, ◌<◌, ◌≤◌, true, false, slice_index, IfOk, IfErr};
ghost use Rattle.book_rule.specs.Listed.{count, begins, width, horizon_of};
ghost use Rattle.book_rule.specs.Reaches.{is_whole};
ghost use Rattle.book_rule.specs.Searches.{is_chosen};
ghost use Rattle.book_rule.specs.Layout.{blocks};
ghost use Rattle.book_rule.specs.Views.{after_turn, after_claim, after_known_claim, after_add, after_store, after_release, after_ticket, after_raise};
ghost use Rattle.book_rule.specs.Knowledge.{IsNextWord};
ghost use Rattle.book_rule.specs.Told.{Looked, Begun, Ended, Loaded, StartLoaded, OfferLoaded, FloorLoaded, IsKeptFloor};
ghost use Rattle.book_table.specs.Passes.{IsPassOf, IsFree, Holds};

use crate::book::Book;
use crate::moves::next_reach;
use crate::pass::Pass;
use crate::plays::{Add, Claim, Draw, End, Look, Release, Store, StoreFloor};
use crate::sizes::{FIRST_START, TICKET, TURN};
use book_rule::{Hand, Reach, Search};
use std::marker::Brand;

const NONE: Reach = Reach {
    periods: 0,
    words: 0,
};

impl<'n> Book<'n> {
    /// Loads the turn.
    ///
    /// The pass rests where the turn is odd, or where all is booked. The least start of its search, if
    /// it is ahead of that turn, is at most the least start beside what is booked by then.
    pub fn load_turn(&self, pass: &mut Pass) -> u64
        requires { IsFree self.now pass.old }
        ensures own { IsFree self.now pass.new }
        ensures told { Looked self.now.listing pass.old.view result pass.new.view }
    {
        let turn = self.table.shared.load::<Look>(&mut pass.seat, TURN);
        pass.seen = turn;
        pass.resting |= self.lets_rest(turn);
        turn
    }

    /// Loads the turn, and begins a search of a position: from start 0 on, with no predecessor read.
    pub fn begin_search(&self, pass: &mut Pass, position: u32) -> u64
        requires own { IsFree self.now pass.old }
        requires position { position < count self.now.listing }
        ensures own { IsFree self.now pass.new }
        ensures told { Begun position self.now.listing pass.old.view result pass.new.view }
    {
        self.begin::<Brand>(pass, position)
    }

    /// Loads the turn, and ends the search: what it has found is the last that the pass has found.
    ///
    /// The least start is at least the least start beside what was booked as the search began.
    pub fn end_search(&self, pass: &mut Pass) -> u64
        requires own { IsFree self.now pass.old }
        requires ahead { pass.old.view.search.ahead ≡ true }
        requires chosen { is_chosen self.now.listing pass.old.view.search ≡ true }
        ensures own { IsFree self.now pass.new }
        ensures told { Ended self.now.listing pass.old.view result pass.new.view }
    {
        let turn = self.table.shared.load::<End>(&mut pass.seat, TURN);
        pass.seen = turn;
        pass.resting |= self.lets_rest(turn);
        pass.search.ahead = false;
        turn
    }

    /// Claims the even turn that the pass has seen, by one compare and exchange. The pass then holds
    /// the position of that turn, and searches its start from the adopted offer on; or it is shown
    /// a later turn.
    pub fn claim(&self, pass: &mut Pass, turn: u64) -> Result<(), u64>
        requires own { IsFree self.now pass.old }
        requires seen { turn ≡ pass.old.view.seen }
        requires even { turn % 2 ≡ 0 }
        requires more { turn < 2 * count self.now.listing }
        ensures own { IsPassOf self.now pass.new }
        ensures won { IfOk result (λ _. pass.new.view ≡ after_claim pass.old.view turn) }
        ensures lost { IfErr result (λ v. (pass.new.view ≡ after_turn self.now.listing pass.old.view v) × (turn < v) × (v ≤ 2 * count self.now.listing)) }
    {
        let found = self
            .table
            .shared
            .compare_exchange::<Claim>(&mut pass.seat, TURN, turn, turn + 1);
        if found != turn {
            pass.seen = found;
            pass.resting |= self.lets_rest(found);
            return Err(found);
        }
        let position = (turn / 2) as u32;
        let adopted = pass.adopted;
        pass.seen = turn + 1;
        pass.resting = false;
        pass.hand = Hand {
            holds: true,
            added: NONE,
            stored: false,
        };
        pass.search = Search {
            position,
            ahead: false,
            begun: turn,
            read: 0,
            least: if adopted.position == position {
                adopted.start
            } else {
                0
            },
            free: NONE,
        };
        Ok(())
    }

    /// The same where the serial start of that position is known: it is chosen at once, and no word is
    /// loaded to search it.
    pub fn claim_known(&self, pass: &mut Pass, turn: u64, start: u32) -> Result<(), u64>
        requires own { IsFree self.now pass.old }
        requires seen { turn ≡ pass.old.view.seen }
        requires even { turn % 2 ≡ 0 }
        requires more { turn < 2 * count self.now.listing }
        requires known { start ≡ begins self.now.listing (turn / 2) }
        ensures own { IsPassOf self.now pass.new }
        ensures won { IfOk result (λ _. pass.new.view ≡ after_known_claim self.now.listing pass.old.view turn start) }
        ensures lost { IfErr result (λ v. (pass.new.view ≡ after_turn self.now.listing pass.old.view v) × (turn < v) × (v ≤ 2 * count self.now.listing)) }
    {
        self.claim_at::<Brand>(pass, turn, start)
    }

    /// Loads a profile word. Where it is the next word that the search needs, the search goes on: past
    /// this word, or past this period where the word leaves no room.
    pub fn load_profile(&self, pass: &mut Pass, period: u32, index: u32) -> u64
        requires own { IsPassOf self.now pass.old }
        requires period { period < horizon_of self.now.listing }
        requires index { index < width self.now.listing }
        ensures own { IsPassOf self.now pass.new }
        ensures told { Loaded period index self.now.listing pass.old.view result pass.new.view }
    {
        self.profile::<Brand>(pass, period, index)
    }

    /// Loads the start word of a position: 0, or its start plus 1. Where it is that of the next
    /// predecessor that the search reads, the search goes on from its finish.
    pub fn load_start(&self, pass: &mut Pass, position: u32) -> u64
        requires own { IsPassOf self.now pass.old }
        requires position { position < count self.now.listing }
        ensures own { IsPassOf self.now pass.new }
        ensures told { StartLoaded position self.now.listing pass.old.view result pass.new.view }
    {
        self.start::<Brand>(pass, position)
    }

    /// Adds the demand of the activity in hand to the next word of its booking.
    pub fn add_profile(&self, pass: &mut Pass, period: u32, index: u32)
        requires own { Holds self.now pass.old }
        requires chosen { is_chosen self.now.listing pass.old.view.search ≡ true }
        requires next { IsNextWord self.now.listing pass.old.view period index }
        ensures own { Holds self.now pass.new }
        ensures added { pass.new.view ≡ after_add self.now.listing pass.old.view }
    {
        let word = self.profile_place(period, index);
        let demand = self.demand_word(pass.search.position, index);
        self.table
            .shared
            .fetch_add::<Add>(&mut pass.seat, word, demand);
        pass.hand.added = next_reach(self.words, pass.hand.added);
    }

    /// Stores the start of the position in hand, once its demand was added to all words.
    pub fn store_start(&self, pass: &mut Pass)
        requires own { Holds self.now pass.old }
        requires chosen { is_chosen self.now.listing pass.old.view.search ≡ true }
        requires whole { is_whole self.now.listing pass.old.view.search.position pass.old.view.hand.added ≡ true }
        ensures own { Holds self.now pass.new }
        ensures stored { pass.new.view ≡ after_store pass.old.view }
    {
        let word = FIRST_START + pass.search.position as usize;
        self.table
            .shared
            .store::<Store>(&mut pass.seat, word, pass.search.least as u64 + 1);
        pass.hand.stored = true;
    }

    /// Releases the position in hand: the turn is one more, and one more booking is complete.
    pub fn release(&self, pass: &mut Pass)
        requires own { Holds self.now pass.old }
        requires stored { pass.old.view.hand.stored ≡ true }
        ensures own { IsFree self.now pass.new }
        ensures released { pass.new.view ≡ after_release pass.old.view }
    {
        self.table
            .shared
            .fetch_add::<Release>(&mut pass.seat, TURN, 1);
        pass.seen += 1;
        pass.mine += 1;
        pass.resting = false;
        pass.hand = Hand {
            holds: false,
            added: NONE,
            stored: false,
        };
    }

    /// Draws a ticket. Tickets may wrap: no clause says that one is drawn once.
    pub fn take_ticket(&self, pass: &mut Pass) -> u64
        requires { IsFree self.now pass.old }
        ensures own { IsFree self.now pass.new }
        ensures drew { pass.new.view ≡ after_ticket pass.old.view result }
    {
        self.table
            .shared
            .fetch_add::<Draw>(&mut pass.seat, TICKET, 1)
    }

    /// Loads the offer for a position, which is at least what the pass has offered there itself.
    pub fn load_offer(&self, pass: &mut Pass, position: u32) -> u32
        requires own { IsFree self.now pass.old }
        requires position { position < count self.now.listing }
        ensures own { IsFree self.now pass.new }
        ensures told { OfferLoaded position self.now.listing pass.old.view result pass.new.view }
    {
        self.adopt::<Brand>(pass, position)
    }

    /// Raises the offer for a position to a start: both are those that the pass has found last.
    pub fn raise_offer(&self, pass: &mut Pass, position: u32, start: u32)
        requires own { IsFree self.now pass.old }
        requires found { (position ≡ pass.old.view.found.position) × (start ≡ pass.old.view.found.start) }
        ensures own { IsFree self.now pass.new }
        ensures raised { pass.new.view ≡ after_raise pass.old.view position start }
    {
        self.raise::<Brand>(pass, position, start)
    }

    /// Loads the floor of a block of 32 periods. Where the next period that the search needs is in the
    /// block, and the floor leaves no room in any of its periods, the search goes on past it.
    pub fn load_floor(&self, pass: &mut Pass, block: u32, index: u32) -> u64
        requires own { IsPassOf self.now pass.old }
        requires block { block < blocks self.now.listing }
        requires index { index < width self.now.listing }
        ensures own { IsPassOf self.now pass.new }
        ensures told { FloorLoaded block index self.now.listing pass.old.view result pass.new.view }
    {
        self.floor::<Brand>(pass, block, index)
    }

    /// Stores a floor of a block of 32 periods: lane by lane it is at most values that the pass has
    /// loaded from each word of the block.
    pub fn store_floor(&self, pass: &mut Pass, block: u32, index: u32, floor: u64)
        requires own { IsPassOf self.now pass.old }
        requires block { block < blocks self.now.listing }
        requires index { index < width self.now.listing }
        requires kept { IsKeptFloor self.now.listing pass.old.view block index floor }
        ensures own { IsPassOf self.now pass.new }
        ensures same { pass.new.view ≡ pass.old.view }
    {
        let word = self.floor_place(block, index);
        self.table
            .shared
            .store::<StoreFloor>(&mut pass.seat, word, floor);
    }
}
