// What a loaded word makes of a search, as `specs/` of `book_rule` say it.
ghost use Rattle.std.specs.Prelude.{◌≡◌, ℕ, ◌+◌, ◌*◌, ◌<◌, ◌≤◌, true};
ghost use Rattle.book_rule.specs.Listed.{count, width, horizon_of, lasts};
ghost use Rattle.book_rule.specs.Reaches.{next_reach, is_whole};
ghost use Rattle.book_rule.specs.Layout.{blocks};
ghost use Rattle.book_rule.specs.Searches.{has_read, is_chosen, is_full, is_block_full, reads_next, needs_next, needs_block, after_start, after_word, after_floor};
ghost use Rattle.book_rule.specs.Told.{IsStartWord};

use crate::book::Book;
use book_rule::{Reach, Search};
use capacity_profile::blocked;

const NONE: Reach = Reach {
    periods: 0,
    words: 0,
};

impl<'n> Book<'n> {
    /// Whether a word of a period leaves no room there for the activity at a position.
    pub fn is_full(&self, position: u32, period: u32, index: u32, word: u64) -> bool
        requires position { position < count self.now.listing }
        requires runs { 0 < lasts self.now.listing position }
        requires index { index < width self.now.listing }
        ensures { result ≡ is_full self.now.listing position period index word }
    {
        blocked(
            word,
            self.demand_word(position, index),
            self.capacity_word(period, index),
        )
    }

    /// Whether a word leaves no room for it in any period of a block.
    #[tactic(auto, unfolding(book_rule::specs::Searches::is_block_full))]
    pub fn is_block_full(&self, position: u32, block: u32, index: u32, word: u64) -> bool
        requires position { position < count self.now.listing }
        requires runs { 0 < lasts self.now.listing position }
        requires block { block < blocks self.now.listing }
        requires index { index < width self.now.listing }
        ensures { result ≡ is_block_full self.now.listing position block index word }
    {
        let end = self.block_end(block);
        (32 * block..end).all(|period| self.is_full(position, period, index, word))
    }

    /// Whether all words of the activity at a position were reached.
    pub fn is_whole(&self, position: u32, reach: Reach) -> bool
        requires { position < count self.now.listing }
        ensures { result ≡ is_whole self.now.listing position reach }
    {
        self.words == 0 || reach.periods == self.lasts(position)
    }

    /// Whether the search has read all predecessors.
    pub fn has_read(&self, search: Search) -> bool
        requires { search.position < count self.now.listing }
        ensures { result ≡ has_read self.now.listing search }
    {
        search.read == self.before_count(search.position)
    }

    /// Whether its start is chosen: it has read all predecessors, and all periods have room.
    pub fn is_chosen(&self, search: Search) -> bool
        requires { search.position < count self.now.listing }
        ensures { result ≡ is_chosen self.now.listing search }
    {
        self.has_read(search) && self.is_whole(search.position, search.free)
    }

    fn reads_next(&self, position: u32, search: Search) -> bool
        requires there { search.position < count self.now.listing }
        requires position { position < count self.now.listing }
        ensures value { result ≡ reads_next self.now.listing position search }
        ensures more { result ≡ true → search.read < 4294967295 }
    {
        search.read < self.before_count(search.position)
            && self.activity(position) == self.before(search.position, search.read)
    }

    // The search once the start word of a position was loaded.
    pub(crate) fn after_start(&self, search: Search, position: u32, word: u64) -> Search
        requires there { search.position < count self.now.listing }
        requires position { position < count self.now.listing }
        requires word { word ≤ 131071 }
        ensures { result ≡ after_start self.now.listing position word search }
    {
        if !self.reads_next(position, search) {
            return search;
        }
        let least = if word == 0 {
            search.least
        } else {
            search.least.max((word - 1) as u32 + self.lasts(position))
        };
        Search {
            read: search.read + 1,
            free: NONE,
            least,
            ..search
        }
    }

    fn needs_next(&self, search: Search, period: u32, index: u32) -> bool
        requires { search.position < count self.now.listing }
        ensures { result ≡ needs_next self.now.listing period index search }
    {
        self.has_read(search)
            && search.free.periods < self.lasts(search.position)
            && period as u64 == search.least as u64 + search.free.periods as u64
            && index == search.free.words
    }

    // The search once a word of a period was loaded.
    pub(crate) fn after_word(&self, search: Search, period: u32, index: u32, word: u64) -> Search
        requires there { search.position < count self.now.listing }
        requires period { period < horizon_of self.now.listing }
        requires index { index < width self.now.listing }
        ensures { result ≡ after_word self.now.listing period index word search }
    {
        if !self.needs_next(search, period, index) {
            search
        } else if self.is_full(search.position, period, index, word) {
            Search {
                least: period + 1,
                free: NONE,
                ..search
            }
        } else {
            Search {
                free: next_reach(self.words, search.free),
                ..search
            }
        }
    }

    fn needs_block(&self, search: Search, block: u32) -> bool
        requires there { search.position < count self.now.listing }
        requires block { block < blocks self.now.listing }
        ensures { result ≡ needs_block self.now.listing block search }
    {
        let next = search.least as u64 + search.free.periods as u64;
        self.has_read(search)
            && search.free.periods < self.lasts(search.position)
            && 32 * block as u64 <= next
            && next < self.block_end(block) as u64
    }

    // The search once the floor of a block was loaded.
    pub(crate) fn after_floor(&self, search: Search, block: u32, index: u32, floor: u64) -> Search
        requires there { search.position < count self.now.listing }
        requires block { block < blocks self.now.listing }
        requires index { index < width self.now.listing }
        ensures { result ≡ after_floor self.now.listing block index floor search }
    {
        if self.needs_block(search, block)
            && self.is_block_full(search.position, block, index, floor)
        {
            Search {
                least: self.block_end(block),
                free: NONE,
                ..search
            }
        } else {
            search
        }
    }
}

// One word further, where a period has so many.
pub(crate) fn next_reach(words: u32, reach: Reach) -> Reach
    requires words { (reach.words < words) × (words ≤ 4) }
    requires periods { reach.periods ≤ 131070 }
    ensures { result ≡ next_reach words reach }
{
    if reach.words + 1 < words {
        Reach {
            words: reach.words + 1,
            ..reach
        }
    } else {
        Reach {
            periods: reach.periods + 1,
            words: 0,
        }
    }
}
