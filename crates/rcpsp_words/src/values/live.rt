ghost use Rattle.std.specs.Prelude.{◌≡◌, ℕ, ◌≤◌};
ghost use Rattle.rcpsp_words.specs.Values.Live.{live_in};

use std::marker::Model;

/// How often a run tells how far it has come before its end: 1 to 1,000 times. Contracts see it as
/// that number.
#[derive(Debug, Drop)]
pub struct Live {
    times: u32,
}

impl Model for Live {
    ghost Value = { ℕ };

    ghost view = { λ live. live.times };

    ghost invariant = { λ live. (1 ≤ live.times) × (live.times ≤ 1000) };
}

impl Live {
    /// So often.
    pub(crate) fn of(number: u64) -> Option<Live>
        ensures { result ≡ live_in number }
    {
        if 1 <= number && number <= 1000 {
            Some(Live {
                times: number as u32,
            })
        } else {
            None
        }
    }

    /// How often it is.
    pub fn times(&self) -> u32
        ensures value { result ≡ self.now }
        ensures limits { (1 ≤ result) × (result ≤ 1000) }
    {
        self.times
    }
}
