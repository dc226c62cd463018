ghost use Rattle.std.specs.Prelude.{◌≡◌};
ghost use Rattle.key_sampling.specs.Words.{word_of};

// How many samples have a number.
pub(crate) const SAMPLES: u64 = 1 << 32;

// A makespan and a sample in one word.
pub(crate) fn word_of(makespan: u32, sample: u32) -> u64
    ensures { result ≡ word_of makespan sample }
{
    u64::from(makespan) * SAMPLES + u64::from(sample)
}
