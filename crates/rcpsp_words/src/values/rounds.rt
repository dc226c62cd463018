ghost use Rattle.std.specs.Prelude.{◌≡◌, ℕ, ◌≤◌};
ghost use Rattle.rcpsp_words.specs.Values.Rounds.{rounds_of};

use std::marker::Model;

/// How many rounds a descent goes through at most: 1 to 1,000. Contracts see it as that number.
#[derive(Debug, Drop)]
pub struct Rounds {
    count: u32,
}

impl Model for Rounds {
    ghost Value = { ℕ };

    ghost view = { λ rounds. rounds.count };

    ghost invariant = { λ rounds. (1 ≤ rounds.count) × (rounds.count ≤ 1000) };
}

impl Rounds {
    /// So many rounds, where a number is given.
    pub(crate) fn of(number: Option<u64>) -> Option<Option<Rounds>>
        ensures { result ≡ rounds_of number }
    {
        let Some(count) = number else {
            return Some(None);
        };
        if 1 <= count && count <= 1000 {
            Some(Some(Rounds {
                count: count as u32,
            }))
        } else {
            None
        }
    }

    /// How many they are.
    pub fn count(&self) -> u32
        ensures value { result ≡ self.now }
        ensures limits { (1 ≤ result) × (result ≤ 1000) }
    {
        self.count
    }
}
