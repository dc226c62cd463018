ghost use Rattle.std.specs.Prelude.{◌≡◌, ℕ, ◌+◌, true, All};
ghost use Rattle.key_sampling.specs.Best.{IsBest};

use crate::best::Best;
use crate::plays::Gathers;
use crate::race::{BEST, Race};
use crate::seeker::Seeker;
use crate::word::SAMPLES;

impl<'n> Race<'n> {
    ghost use Rattle.race_rule.specs.Views.{with_gathered};
    ghost use Rattle.key_sampling.specs.Race.{view_of, IsSeekerOf, IsFirst, AreSeekers};

    /// The best sample of the range: the least makespan, and of those that have it the least number.
    ///
    /// All seekers of the race are handed back, in order of number, and each has ended.
    pub fn close(self, seekers: Vec<Seeker>) -> Best
        requires all { AreSeekers self seekers.items }
        requires ended { All (λ seeker. (view_of seeker).ended ≡ true) seekers.items }
        ensures { IsBest self.entry.terms.net.now.project self.entry.terms.seed
            self.entry.terms.from self.entry.terms.count result }
    {
        let mut rest = seekers.into_iter();
        let Some(mut first) = rest.next() else {
            unreachable!()
        };
        for other in rest {
            self.gather(&mut first, other);
        }
        self.best(first)
    }

    // Seeker 0 takes in the next one.
    fn gather(&self, first: &mut Seeker, other: Seeker)
        requires own { IsSeekerOf self.now first.old }
        requires other { IsSeekerOf self.now other }
        requires first { first.old.seat.id ≡ 0 }
        requires ended { (view_of other).ended ≡ true }
        requires next { (view_of other).number ≡ (view_of first.old).joined + 1 }
        ensures own { IsSeekerOf self.now first.new }
        ensures first { first.new.seat.id ≡ 0 }
        ensures view { view_of first.new ≡ with_gathered (view_of first.old) (view_of other) }
    {
        let Seeker { seat, .. } = other;
        self.table
            .shared
            .join_seat::<Gathers>(&mut first.seat, seat);
    }

    // The best sample, once seeker 0 has taken in all others.
    fn best(self, first: Seeker) -> Best
        requires own { IsSeekerOf self first }
        requires first { first.seat.id ≡ 0 }
        requires ended { (view_of first).ended ≡ true }
        requires all { (view_of first).joined + 1 ≡ (view_of first).made }
        ensures { IsBest self.entry.terms.net.now.project self.entry.terms.seed
            self.entry.terms.from self.entry.terms.count result }
    {
        let Race { table, .. } = self;
        let Seeker { seat, .. } = first;
        let closed = table.close_with(seat);
        let best = closed.word(BEST);
        closed.free();
        Best {
            makespan: (best / SAMPLES) as u32,
            sample: (best % SAMPLES) as u32,
        }
    }
}
