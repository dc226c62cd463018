ghost use Rattle.std.specs.Prelude.{◌≡◌, ℕ, ◌+◌, ◌<◌, ◌≤◌, IfOk};
ghost use Rattle.key_sampling.specs.Best.{IsRange};

use crate::plays::Another;
use crate::race::{BEST, Race};
use crate::seeker::Seeker;
use crate::terms::Terms;
use activity_net::Net;
use atomic_table::Table;
use race_rule::NO_WORD;
use rc_instance::Memory;
use std::alloc::Global;

/// The most seekers of a race.
pub const MAX_SEEKERS: u32 = 64;

// The words of the table, up to the best word.
const WORDS: usize = BEST + 1;

impl<'n> Race<'n> {
    ghost use Rattle.race_rule.specs.Views.{with_another};
    ghost use Rattle.key_sampling.specs.Race.{view_of, IsSeekerOf, IsRaceOf, IsFirst, IsFresh, IsOpened};

    /// A race for the best sample of a range, and its seekers, numbered from 0 on. No ticket is drawn.
    ///
    /// It is refused only for want of memory.
    pub fn open(
        alloc: Global,
        net: &'n Net,
        seed: u64,
        from: u32,
        count: u32,
        seekers: u32,
    ) -> Result<(Race<'n>, Vec<Seeker>), Memory>
        requires range { IsRange from count }
        requires seekers { (1 ≤ seekers) × (seekers ≤ MAX_SEEKERS) }
        ensures { IfOk result (λ opened. IsRaceOf net.now seed from count opened.0
            × IsOpened seekers opened.0 opened.1.items) }
    {
        let (race, mut first) = Race::with_first(
            alloc,
            Terms {
                net,
                seed,
                from,
                count,
            },
        )?;
        let mut all = Vec::with_capacity(alloc, seekers as usize)?;
        for number in 1..seekers {
            let other = race.another(&mut first, number);
            all.push(other)?;
        }
        all.insert(0, first)?;
        Ok((race, all))
    }

    // A race with seeker 0 alone.
    fn with_first(alloc: Global, terms: Terms<'n>) -> Result<(Race<'n>, Seeker), Memory>
        requires range { IsRange terms.from terms.count }
        ensures { IfOk result (λ opened. (opened.0.terms ≡ terms.entry) × IsFresh opened.0 0 opened.1
            × IsFirst 1 0 opened.1) }
    {
        // An order of the net shows that the list of each sample is feasible.
        let _order = terms.net.order();
        let mut words = [0; WORDS];
        words[BEST] = NO_WORD;
        let (table, seat) = Table::of_words(alloc, &words, &terms)?;
        let first = Seeker {
            seat,
            number: 0,
            hand: None,
            ended: false,
            best_seen: NO_WORD,
        };
        Ok((Race { table, terms }, first))
    }

    // Makes another seeker, which gets the next number.
    fn another(&self, first: &mut Seeker, number: u32) -> Seeker
        requires own { IsFresh self.now 0 first.old }
        requires first { IsFirst number 0 first.old }
        requires few { number < MAX_SEEKERS }
        ensures own { IsFresh self.now 0 first.new }
        ensures first { IsFirst (number + 1) 0 first.new }
        ensures other { IsFresh self.now number result }
    {
        let seat = self.table.shared.split_seat::<Another>(&mut first.seat);
        Seeker {
            seat,
            number,
            hand: None,
            ended: false,
            best_seen: NO_WORD,
        }
    }
}
