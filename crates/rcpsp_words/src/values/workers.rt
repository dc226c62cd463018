ghost use Rattle.std.specs.Prelude.{◌≡◌, ℕ, ◌≤◌};
ghost use Rattle.rcpsp_words.specs.Values.Workers.{workers_of};

use std::marker::Model;

/// How many workers share a piece of work: 1 to 64. Contracts see it as that number.
#[derive(Debug, Drop)]
pub struct Workers {
    count: u32,
}

impl Model for Workers {
    ghost Value = { ℕ };

    ghost view = { λ workers. workers.count };

    ghost invariant = { λ workers. (1 ≤ workers.count) × (workers.count ≤ 64) };
}

impl Workers {
    /// So many workers, or 4 where no number is given.
    pub(crate) fn of(number: Option<u64>) -> Option<Workers>
        ensures { result ≡ workers_of number }
    {
        let count = number.unwrap_or(4);
        if 1 <= count && count <= 64 {
            Some(Workers {
                count: count as u32,
            })
        } else {
            None
        }
    }

    /// How many they are.
    pub fn count(&self) -> u32
        ensures value { result ≡ self.now }
        ensures limits { (1 ≤ result) × (result ≤ 64) }
    {
        self.count
    }
}
