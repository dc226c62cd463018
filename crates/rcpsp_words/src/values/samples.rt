ghost use Rattle.std.specs.Prelude.{◌≡◌, ◌+◌, ◌^◌, ◌≤◌};
ghost use Rattle.rcpsp_words.specs.Values.Samples.{SampleRange, samples_of};

use std::marker::Model;

/// A range of samples: from a number on, so many. There are 1 to 1,000,000, and each has a number
/// below 2 to the power of 32.
#[derive(Debug, Drop)]
pub struct Samples {
    from: u32,
    count: u32,
}

impl Model for Samples {
    ghost Value = { SampleRange };

    ghost view = { λ samples. record { from = samples.from; count = samples.count } };

    ghost invariant = { λ samples. (1 ≤ samples.count) × (samples.count ≤ 1000000)
        × (samples.from + samples.count ≤ 2 ^ 32) };
}

impl Samples {
    /// The samples from a number on, or else from 0, so many, or else 100.
    pub(crate) fn of(from: Option<u64>, count: Option<u64>) -> Option<Samples>
        ensures { result ≡ samples_of from count }
    {
        let from = from.unwrap_or(0);
        let count = count.unwrap_or(100);
        if from <= 4_294_967_295
            && 1 <= count
            && count <= 1_000_000
            && from + count <= 4_294_967_296
        {
            Some(Samples {
                from: from as u32,
                count: count as u32,
            })
        } else {
            None
        }
    }

    /// The number of the first sample.
    pub fn from(&self) -> u32
        ensures { result ≡ self.now.from }
    {
        self.from
    }

    /// How many they are.
    pub fn count(&self) -> u32
        ensures value { result ≡ self.now.count }
        ensures limits { (1 ≤ self.now.count) × (self.now.count ≤ 1000000)
            × (self.now.from + self.now.count ≤ 2 ^ 32) }
    {
        self.count
    }
}
