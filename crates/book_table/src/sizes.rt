// What a book knows of its list: how long its positions last, what they need, and where its words stand.
ghost use Rattle.std.specs.Prelude.{◌≡◌, ℕ, ◌+◌, ◌*◌, ◌<◌, ◌≤◌};
ghost use Rattle.rc_instance.specs.Project.{IsActivity};
ghost use Rattle.capacity_profile.specs.Lanes.{lane_of};
ghost use Rattle.book_rule.specs.Listed.{count, width, horizon_of, activity_at, project_of, lasts, before_count, before, need, room, IsBookable};
ghost use Rattle.book_rule.specs.Layout.{place, profile_word, floor_word, offer_word, blocks, word_count};
ghost use Rattle.book_rule.specs.Searches.{block_end};
ghost use Rattle.book_rule.specs.Views.{lets_rest};

use crate::book::Book;
use crate::packed::room_word;

// The places of the turn, of the tickets and of the first start: on cache lines of their own, so that
// a ticket that is drawn does not take the turn away from those that book, nor a start the tickets.
pub(crate) const TURN: usize = 0;

pub(crate) const TICKET: usize = 16;

pub(crate) const FIRST_START: usize = 32;

impl<'n> Book<'n> {
    /// How many positions there are.
    pub fn positions(&self) -> u32
        ensures value { result ≡ count self.now.listing }
        ensures bookable { IsBookable self.now.listing }
    {
        self.positions
    }

    /// How many words a period has.
    pub fn words(&self) -> u32
        ensures value { result ≡ width self.now.listing }
        ensures few { result ≤ 4 }
    {
        self.words
    }

    /// How many periods there are.
    pub fn horizon(&self) -> u32
        ensures value { result ≡ horizon_of self.now.listing }
        ensures small { result ≤ 131070 }
        ensures bookable { IsBookable self.now.listing }
    {
        self.horizon
    }

    /// How many blocks of 32 periods there are, the last one cut at the horizon.
    pub fn blocks(&self) -> u32
        ensures { result ≡ blocks self.now.listing }
    {
        (self.horizon + 31) / 32
    }

    /// The first period past a block, or past all.
    pub fn block_end(&self, block: u32) -> u32
        requires { block < blocks self.now.listing }
        ensures value { result ≡ block_end self.now.listing block }
        ensures within { (32 * block < result) × (result ≤ 131070) }
    {
        self.horizon.min(32 * block + 32)
    }

    /// The activity at a position.
    pub fn activity(&self, position: u32) -> u32
        requires { position < count self.now.listing }
        ensures value { result ≡ activity_at self.now.listing position }
        ensures activity { IsActivity (project_of self.now.listing) result }
    {
        self.list.order()[position as usize]
    }

    /// The position of an activity.
    pub fn position_of(&self, activity: u32) -> u32
        requires { IsActivity (project_of self.now.listing) activity }
        ensures within { result < count self.now.listing }
        ensures value { activity_at self.now.listing result ≡ activity }
    {
        self.places[activity as usize - 1]
    }

    /// How many periods the activity at a position takes.
    #[tactic(auto, unfolding(book_rule::specs::Listed::lasts))]
    pub fn lasts(&self, position: u32) -> u32
        requires { position < count self.now.listing }
        ensures value { result ≡ lasts self.now.listing position }
        ensures small { result ≤ 65535 }
    {
        self.list.net().instance().duration(self.activity(position))
    }

    /// How many direct predecessors it has.
    #[tactic(auto, unfolding(book_rule::specs::Listed::before_count))]
    pub fn before_count(&self, position: u32) -> u32
        requires { position < count self.now.listing }
        ensures { result ≡ before_count self.now.listing position }
    {
        self.list.net().predecessor_count(self.activity(position))
    }

    /// Its direct predecessor at a place of their rising order, counted from 0.
    #[tactic(auto, unfolding(book_rule::specs::Listed::before_count, book_rule::specs::Listed::before))]
    pub fn before(&self, position: u32, index: u32) -> u32
        requires position { position < count self.now.listing }
        requires index { index < before_count self.now.listing position }
        ensures value { result ≡ before self.now.listing position index }
        ensures activity { IsActivity (project_of self.now.listing) result }
    {
        self.list.net().predecessor(self.activity(position), index)
    }

    // Whether a pass that has seen this turn rests.
    pub(crate) fn lets_rest(&self, turn: u64) -> bool
        ensures { result ≡ lets_rest self.now.listing turn }
    {
        turn % 2 == 1 || turn == 2 * self.positions as u64
    }

    // What the activity at a position needs of the resources in a word.
    pub(crate) fn demand_word(&self, position: u32, index: u32) -> u64
        requires position { position < count self.now.listing }
        requires runs { 0 < lasts self.now.listing position }
        requires index { index < width self.now.listing }
        ensures { (l : ℕ) → l < 4 → lane_of result l ≡ need self.now.listing position index l }
    {
        self.needs[place(self.words, position, index)]
    }

    // How much there is in a period of the resources in a word.
    pub(crate) fn capacity_word(&self, period: u32, index: u32) -> u64
        requires { index < width self.now.listing }
        ensures { (l : ℕ) → l < 4 → lane_of result l ≡ room self.now.listing index l period }
    {
        match self.rooms.get(index as usize) {
            Some(word) => *word,
            None => room_word(self.list, index, period),
        }
    }

    // Where the offer for a position stands.
    pub(crate) fn offer_place(&self, position: u32) -> usize
        requires { position < count self.now.listing }
        ensures value { result ≡ offer_word self.now.listing position }
        ensures within { result < word_count self.now.listing }
    {
        FIRST_START + self.positions as usize + position as usize
    }

    // Where a word of a period stands.
    pub(crate) fn profile_place(&self, period: u32, index: u32) -> usize
        requires period { period < horizon_of self.now.listing }
        requires index { index < width self.now.listing }
        ensures value { result ≡ profile_word self.now.listing period index }
        ensures within { result < word_count self.now.listing }
    {
        FIRST_START + 2 * self.positions as usize + place(self.words, period, index)
    }

    // Where a floor of a block stands.
    pub(crate) fn floor_place(&self, block: u32, index: u32) -> usize
        requires block { block < blocks self.now.listing }
        requires index { index < width self.now.listing }
        ensures value { result ≡ floor_word self.now.listing block index }
        ensures within { result < word_count self.now.listing }
    {
        let floors = place(self.words, self.horizon, 0);
        FIRST_START + 2 * self.positions as usize + floors + place(self.words, block, index)
    }
}

// A column of a row, where a row has so many words, and is a period or a block.
pub(crate) fn place(words: u32, row: u32, column: u32) -> usize
    requires words { words ≤ 4 }
    requires row { row ≤ 131070 }
    requires column { column ≤ 4 }
    ensures value { result ≡ place words row column }
    ensures small { result ≤ 524284 }
{
    row as usize * words as usize + column as usize
}
