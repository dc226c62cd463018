// The steps whose position, start, period or block is told to their play by the call.
ghost use Rattle.std.specs.Prelude.{◌≡◌, ◌≢◌, ℕ, ◌+◌, ◌*◌, ◌/◌, ◌%◌, ◌<◌, ◌≤◌, true, false, slice_index, IfOk, IfErr};
ghost use Rattle.book_rule.specs.Listed.{count, begins, width, horizon_of};
ghost use Rattle.book_rule.specs.Layout.{blocks};
ghost use Rattle.book_rule.specs.Views.{after_turn, after_known_claim, after_raise};
ghost use Rattle.book_rule.specs.Told.{Begun, Loaded, StartLoaded, OfferLoaded, FloorLoaded};
ghost use Rattle.book_table.specs.Passes.{IsPassOf, IsFree};

use crate::book::Book;
use crate::pass::Pass;
use crate::plays::{
    Aim, Begin, ClaimKnown, LoadFloor, LoadOffer, LoadProfile, LoadStart, RaiseOffer,
};
use crate::sizes::FIRST_START;
use book_rule::{Hand, Offer, Reach, Search};

const NONE: Reach = Reach {
    periods: 0,
    words: 0,
};

impl<'n> Book<'n> {
    pub(crate) fn begin<A: Aim>(&self, pass: &mut Pass, position: u32) -> u64
        requires own { IsFree self.now pass.old }
        requires position { position < count self.now.listing }
        requires aim { position ≡ A.place }
        ensures own { IsFree self.now pass.new }
        ensures told { Begun position self.now.listing pass.old.view result pass.new.view }
    {
        let turn = self.table.shared.load::<Begin<A>>(&mut pass.seat, 0);
        pass.seen = turn;
        pass.resting |= self.lets_rest(turn);
        pass.search = Search {
            position,
            ahead: true,
            begun: turn,
            read: 0,
            least: 0,
            free: NONE,
        };
        turn
    }

    pub(crate) fn claim_at<A: Aim>(&self, pass: &mut Pass, turn: u64, start: u32) -> Result<(), u64>
        requires own { IsFree self.now pass.old }
        requires seen { turn ≡ pass.old.view.seen }
        requires even { turn % 2 ≡ 0 }
        requires more { turn < 2 * count self.now.listing }
        requires known { start ≡ begins self.now.listing (turn / 2) }
        requires aim { start ≡ A.place }
        ensures own { IsPassOf self.now pass.new }
        ensures won { IfOk result (λ _. pass.new.view ≡ after_known_claim self.now.listing pass.old.view turn start) }
        ensures lost { IfErr result (λ v. (pass.new.view ≡ after_turn self.now.listing pass.old.view v) × (turn < v) × (v ≤ 2 * count self.now.listing)) }
    {
        let found = self
            .table
            .shared
            .compare_exchange::<ClaimKnown<A>>(&mut pass.seat, 0, turn, turn + 1);
        if found != turn {
            pass.seen = found;
            pass.resting |= self.lets_rest(found);
            return Err(found);
        }
        let position = (turn / 2) as u32;
        pass.seen = turn + 1;
        pass.resting = false;
        pass.hand = Hand {
            holds: true,
            added: NONE,
            stored: false,
        };
        pass.search = Search {
            position,
            ahead: false,
            begun: turn,
            read: self.before_count(position),
            least: start,
            free: Reach {
                periods: self.lasts(position),
                words: 0,
            },
        };
        Ok(())
    }

    pub(crate) fn profile<A: Aim>(&self, pass: &mut Pass, period: u32, index: u32) -> u64
        requires own { IsPassOf self.now pass.old }
        requires period { period < horizon_of self.now.listing }
        requires index { index < width self.now.listing }
        requires aim { (period ≡ A.place) × (index ≡ A.index) }
        ensures own { IsPassOf self.now pass.new }
        ensures told { Loaded period index self.now.listing pass.old.view result pass.new.view }
    {
        let place = self.profile_place(period, index);
        let word = self
            .table
            .shared
            .load::<LoadProfile<A>>(&mut pass.seat, place);
        pass.loaded = pass.loaded.saturating_add(1);
        pass.search = self.after_word(pass.search, period, index, word);
        word
    }

    pub(crate) fn start<A: Aim>(&self, pass: &mut Pass, position: u32) -> u64
        requires own { IsPassOf self.now pass.old }
        requires position { position < count self.now.listing }
        requires aim { position ≡ A.place }
        ensures own { IsPassOf self.now pass.new }
        ensures told { StartLoaded position self.now.listing pass.old.view result pass.new.view }
    {
        let word = self
            .table
            .shared
            .load::<LoadStart<A>>(&mut pass.seat, FIRST_START + position as usize);
        pass.search = self.after_start(pass.search, position, word);
        word
    }

    pub(crate) fn adopt<A: Aim>(&self, pass: &mut Pass, position: u32) -> u32
        requires own { IsFree self.now pass.old }
        requires position { position < count self.now.listing }
        requires aim { position ≡ A.place }
        ensures own { IsFree self.now pass.new }
        ensures told { OfferLoaded position self.now.listing pass.old.view result pass.new.view }
    {
        let place = self.offer_place(position);
        let start = self
            .table
            .shared
            .load::<LoadOffer<A>>(&mut pass.seat, place) as u32;
        pass.adopted = Offer { position, start };
        start
    }

    pub(crate) fn raise<A: Aim>(&self, pass: &mut Pass, position: u32, start: u32)
        requires own { IsFree self.now pass.old }
        requires found { (position ≡ pass.old.view.found.position) × (start ≡ pass.old.view.found.start) }
        requires aim { position ≡ A.place }
        ensures own { IsFree self.now pass.new }
        ensures raised { pass.new.view ≡ after_raise pass.old.view position start }
    {
        let place = self.offer_place(position);
        self.table
            .shared
            .fetch_max::<RaiseOffer<A>>(&mut pass.seat, place, start as u64);
        let offered = &mut pass.offered[position as usize];
        *offered = (*offered).max(start);
    }

    pub(crate) fn floor<A: Aim>(&self, pass: &mut Pass, block: u32, index: u32) -> u64
        requires own { IsPassOf self.now pass.old }
        requires block { block < blocks self.now.listing }
        requires index { index < width self.now.listing }
        requires aim { (block ≡ A.place) × (index ≡ A.index) }
        ensures own { IsPassOf self.now pass.new }
        ensures told { FloorLoaded block index self.now.listing pass.old.view result pass.new.view }
    {
        let place = self.floor_place(block, index);
        let word = self
            .table
            .shared
            .load::<LoadFloor<A>>(&mut pass.seat, place);
        pass.search = self.after_floor(pass.search, block, index, word);
        word
    }
}
