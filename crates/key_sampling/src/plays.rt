// The rule of the table of a race, and the names of its steps.
ghost use Rattle.std.specs.Prelude.{ℕ};
ghost use Rattle.race_rule.specs.Views.{blank, newcomer, with_another, another, with_gathered};
ghost use Rattle.race_rule.specs.Rule.{RaceRule};
ghost use Rattle.race_rule.specs.Plays.{IsTaking, IsLooking, IsValuing};
ghost use Rattle.key_sampling.specs.Words.{words_of};

use crate::terms::Terms;
use atomic_table::{Join, Play, Split, TableRule};
use race_rule::SeekerView;
use std::marker::{Brand, PhantomData};

// The rule of a race over the words of its samples.
pub(crate) struct OfSamples;

impl<'n> TableRule<(), SeekerView, Terms<'n>> for OfSamples {
    ghost holds = { λ terms. RaceRule (words_of terms) terms.from };

    ghost first = { λ terms. newcomer (words_of terms) terms.from 0 1 };
}

// A ticket is drawn.
pub(crate) struct Takes;

impl Play<(), SeekerView> for Takes {
    ghost then = { IsTaking };
}

// The word up to which the best word must not lie below, for a sample to be given up.
pub(crate) trait Limit {
    ghost limit: { ℕ };
}

impl Limit for Brand {
    ghost limit = { 0 };
}

// The best word is loaded, and compared with a limit.
pub(crate) struct Looks<L: Limit> {
    marker: PhantomData<L>,
}

impl<L: Limit> Play<(), SeekerView> for Looks<L> {
    ghost then = { IsLooking L.limit };
}

// The best word is lowered to the sample's.
pub(crate) struct Values;

impl Play<(), SeekerView> for Values {
    ghost then = { IsValuing };
}

// Seeker 0 makes another.
pub(crate) struct Another;

impl Split<SeekerView> for Another {
    ghost left = { with_another };

    ghost right = { another };
}

// Seeker 0 takes another in.
pub(crate) struct Gathers;

impl Join<SeekerView> for Gathers {
    ghost both = { with_gathered };

    ghost spent = { blank };
}
