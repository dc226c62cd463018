ghost use Rattle.std.specs.Prelude.{◌≡◌, ℕ, ◌+◌, ◌^◌, ◌<◌, ◌≤◌, true, false, IfSome, IfNone, IsSome, None, slice_index, unwrap_or, if◌then◌else◌};
ghost use Rattle.key_sampling.specs.Samples.{sample_makespan};
ghost use Rattle.key_sampling.specs.Words.{words_of};
ghost use Rattle.race_rule.specs.Rule.{word_count};

use crate::plays::{Limit, Looks, OfSamples, Takes, Values};
use crate::seeker::Seeker;
use crate::terms::Terms;
use crate::word::word_of;
use atomic_table::Table;
use race_rule::SeekerView;
use std::alloc::Global;
use std::marker::Brand;

// The places of the two words of the table: on cache lines of their own, so that a ticket that is
// drawn does not take the best word away from those that load it.
pub(crate) const TICKET: usize = 0;

pub(crate) const BEST: usize = 16;

/// A shared search for the best sample of a range, by several seekers.
///
/// Each sample is taken once. Who has one in hand either values it, or gives it up where a bound of
/// its makespan shows that it is not the best. Only `open` takes memory, and no call waits.
#[derive(Drop)]
pub struct Race<'n> {
    pub(crate) table: Table<(), SeekerView, Terms<'n>, OfSamples, Global>,
    pub(crate) terms: Terms<'n>,
    ghost words: { words_of table.shared.key ≡ words_of terms },
    ghost from: { table.shared.key.from ≡ terms.from },
    ghost wide: { table.shared.table_id.words ≡ word_count },
    ghost none: { table.shared.table_id.slots ≡ 0 },
    ghost within: { terms.from + terms.count ≤ 2 ^ 32 },
}

impl<'n> Race<'n> {
    ghost use Rattle.key_sampling.specs.Race.{view_of, sample_in_hand, IsSeekerOf, IsSameSeeker, StaysAtWork, HasDrawn, HasLookedAt, HasLooked, HasValued};
    ghost use Rattle.race_rule.specs.Views.{after_look};
    ghost use Rattle.race_rule.specs.Plays.{IsSeen};

    /// Takes the next sample, if one is left, or ends.
    ///
    /// It draws one ticket, by one addition to the word of the tickets. The ticket is above each that
    /// this seeker drew before. Where it is below the count of samples, its sample is answered and is
    /// in hand; and exactly else the answer is None, and the seeker has ended.
    pub fn take(&self, seeker: &mut Seeker) -> Option<u32>
        requires own { IsSeekerOf self.now seeker.old }
        requires idle { sample_in_hand (view_of seeker.old) ≡ None }
        requires going { (view_of seeker.old).ended ≡ false }
        ensures own { IsSeekerOf self.now seeker.new }
        ensures same { IsSameSeeker seeker.old seeker.new }
        ensures drawn { HasDrawn self.now.terms (view_of seeker.old) (view_of seeker.new) result }
        ensures hand { result ≡ sample_in_hand (view_of seeker.new) }
        ensures ended { IfNone result ((view_of seeker.new).ended ≡ true) }
        ensures going { IfSome result (λ _. (view_of seeker.new).ended ≡ false) }
        ensures rises { IfSome result (λ _. ((view_of seeker.old).next < (view_of seeker.new).next)
            × ((view_of seeker.new).next ≤ self.now.terms.count)) }
    {
        let ticket = self
            .table
            .shared
            .fetch_add::<Takes>(&mut seeker.seat, TICKET, 1);
        if ticket >= u64::from(self.terms.count) {
            seeker.ended = true;
            return None;
        }
        let sample = self.terms.from + ticket as u32;
        seeker.hand = Some(sample);
        Some(sample)
    }

    /// Gives the sample in hand up, if the best word shows that it is not the best, whatever its
    /// makespan from the bound on.
    ///
    /// It loads the best word once, which raises the count of looks by one. The word loaded is that of
    /// a sample of the range or `2^64 - 1`; it is not above the best word that the seeker saw before,
    /// and not above the word of any sample that it has settled. Exactly where the word of the bound
    /// and the sample is above it, the sample is settled and nothing is in hand.
    pub fn give_up(&self, seeker: &mut Seeker, bound: u32) -> bool
        requires own { IsSeekerOf self.now seeker.old }
        requires hand { IsSome (sample_in_hand (view_of seeker.old)) }
        requires bound { bound ≤ sample_makespan self.now.terms.net.now.project self.now.terms.seed
            (unwrap_or (sample_in_hand (view_of seeker.old)) 0) }
        ensures stays { StaysAtWork self.now seeker.old seeker.new }
        ensures looked { HasLooked bound (view_of seeker.old) (view_of seeker.new) result
            (unwrap_or (sample_in_hand (view_of seeker.old)) 0) }
        ensures hand { sample_in_hand (view_of seeker.new)
            ≡ (if result then None else sample_in_hand (view_of seeker.old)) }
    {
        let Some(sample) = seeker.hand else {
            unreachable!()
        };
        self.look::<Brand>(seeker, word_of(bound, sample))
    }

    // The same, for the word of the bound and the sample.
    fn look<L: Limit>(&self, seeker: &mut Seeker, limit: u64) -> bool
        requires own { IsSeekerOf self.now seeker.old }
        requires limit { limit ≡ L.limit }
        requires low { IfSome (view_of seeker.old).hand
            (λ ticket. limit ≤ slice_index (words_of self.now.terms) ticket) }
        ensures stays { StaysAtWork self.now seeker.old seeker.new }
        ensures looked { HasLookedAt limit (view_of seeker.old) (view_of seeker.new) result }
        ensures hand { sample_in_hand (view_of seeker.new)
            ≡ (if result then None else sample_in_hand (view_of seeker.old)) }
    {
        let best = self.table.shared.load::<Looks<L>>(&mut seeker.seat, BEST);
        seeker.best_seen = best;
        if best < limit {
            seeker.hand = None;
            true
        } else {
            false
        }
    }

    /// Settles the sample in hand by its makespan.
    ///
    /// It lowers the best word to the sample's, if that is less, in one step. The best word that
    /// stands then is at most that of the sample, and of each that this seeker settled before.
    pub fn value(&self, seeker: &mut Seeker, makespan: u32)
        requires own { IsSeekerOf self.now seeker.old }
        requires hand { IsSome (sample_in_hand (view_of seeker.old)) }
        requires makespan { makespan ≡ sample_makespan self.now.terms.net.now.project
            self.now.terms.seed (unwrap_or (sample_in_hand (view_of seeker.old)) 0) }
        ensures stays { StaysAtWork self.now seeker.old seeker.new }
        ensures valued { HasValued makespan (view_of seeker.old) (view_of seeker.new)
            (unwrap_or (sample_in_hand (view_of seeker.old)) 0) }
        ensures hand { sample_in_hand (view_of seeker.new) ≡ None }
    {
        let Some(sample) = seeker.hand else {
            unreachable!()
        };
        let word = word_of(makespan, sample);
        let found = self
            .table
            .shared
            .fetch_min::<Values>(&mut seeker.seat, BEST, word);
        seeker.best_seen = found.min(word);
        seeker.hand = None;
    }
}
