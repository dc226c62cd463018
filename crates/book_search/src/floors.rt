// The floors of the block that a search goes through.
ghost use Rattle.std.specs.Prelude.{◌≡◌, ℕ, ◌/◌, ◌<◌, ◌≤◌, List};
ghost use Rattle.book_rule.specs.declared.view.Kept.{Kept};
ghost use Rattle.book_rule.specs.Listed.{width, horizon_of};
ghost use Rattle.book_rule.specs.Views.{after_profile};
ghost use Rattle.book_table.specs.Passes.{IsPassOf};
ghost use Rattle.book_search.specs.Runs.{AreKept, AreOf, AreWith};

use book_table::{Book, Pass};
use capacity_profile::lane_min;

// For each index of a word: up to which period the words of a block were loaded, one after another
// from its first period on, and the least values of their lanes.
#[derive(Clone, Copy)]
pub(crate) struct Floors {
    pub(crate) block: u32,
    pub(crate) next: [u32; 4],
    pub(crate) least: [u64; 4],
}

impl Floors {
    // Of no word yet.
    pub(crate) fn none() -> Floors
        ensures { (block : ℕ) (all : List Kept) → AreKept block all result }
    {
        Floors {
            block: 0,
            next: [0; 4],
            least: [u64::MAX; 4],
        }
    }

    // Those of a block: of no word yet, where they were of another one.
    fn at(self, block: u32) -> Floors
        requires { block ≤ 4096 }
        ensures block { result.block ≡ block }
        ensures runs { AreOf self result }
    {
        if self.block == block {
            return self;
        }
        Floors {
            block,
            next: [32 * block; 4],
            least: [u64::MAX; 4],
        }
    }

    // With one word more, where it is the next at its index.
    fn with_word(self, period: u32, index: u32, word: u64) -> Floors
        requires period { period ≤ 131070 }
        requires index { index < 4 }
        ensures block { result.block ≡ self.block }
        ensures runs { AreWith self period index word result }
    {
        let at = index as usize;
        if self.next[at] != period {
            return self;
        }
        let mut more = self;
        more.next[at] = period + 1;
        more.least[at] = lane_min(self.least[at], word);
        more
    }
}

// Loads a word of a period, and stores the floor of its block there once all its words were loaded.
pub(crate) fn load_word(
    book: &Book<'_>,
    pass: &mut Pass,
    floors: &mut Floors,
    period: u32,
    index: u32,
)
    requires own { IsPassOf book.now pass.old }
    requires period { (period < horizon_of book.now.listing) × (period ≤ 131070) }
    requires index { (index < width book.now.listing) × (index < 4) }
    requires kept { AreKept pass.old.view.block pass.old.view.kept floors.old }
    ensures own { IsPassOf book.now pass.new }
    ensures loaded { (word : ℕ)
        × (pass.new.view ≡ after_profile book.now.listing pass.old.view period index word) }
    ensures kept { AreKept pass.new.view.block pass.new.view.kept floors.new }
{
    let word = book.load_profile(pass, period, index);
    let more = floors.at(period / 32).with_word(period, index, word);
    store_whole(book, pass, &more, period, index);
    *floors = more;
}

// Stores the floor of a period's block at an index, once all its words were loaded.
fn store_whole(book: &Book<'_>, pass: &mut Pass, floors: &Floors, period: u32, index: u32)
    requires own { IsPassOf book.now pass.old }
    requires period { period < horizon_of book.now.listing }
    requires index { (index < width book.now.listing) × (index < 4) }
    requires block { floors.now.block ≡ period / 32 }
    requires kept { AreKept pass.old.view.block pass.old.view.kept floors.now }
    ensures own { IsPassOf book.now pass.new }
    ensures same { pass.new.view ≡ pass.old.view }
{
    let block = period / 32;
    if floors.next[index as usize] == book.block_end(block) {
        book.store_floor(pass, block, index, floors.least[index as usize]);
    }
}
