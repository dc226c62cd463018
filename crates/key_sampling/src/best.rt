ghost use Rattle.std.specs.Prelude.{◌≡◌};

/// The most samples of a range.
pub const MAX_SAMPLES: u32 = 1_000_000;

/// The best of some samples: the least makespan, in periods, and the least number of a sample that
/// has it.
#[derive(Clone, Copy, Debug, PartialEq, Eq)]
pub struct Best {
    pub makespan: u32,
    pub sample: u32,
}

impl Best {
    ghost use Rattle.key_sampling.specs.Best.{better, is_no_worse};

    /// The better of two: that of least makespan, and of equal ones that of least number.
    #[tactic(auto, unfolding(crate::specs::Best::is_no_worse))]
    pub fn better(self, other: Best) -> Best
        ensures { result ≡ better self other }
    {
        if self.makespan < other.makespan
            || self.makespan == other.makespan && self.sample <= other.sample
        {
            self
        } else {
            other
        }
    }
}
