ghost use Rattle.std.specs.Prelude.{◌≡◌, ℕ, length, IfOk};
ghost use Rattle.rc_instance.specs.Project.{activity_count};
ghost use Rattle.activity_net.specs.Network.{Network, Listing};
ghost use Rattle.key_sampling.specs.Samples.{generator_of, first_words, sample_list};

use activity_net::{FeasibleList, Net};
use priority_rules::list_by_keys;
use rand_core::utils::NextWord;
use rand_pcg::Pcg32;
use rc_instance::Memory;
use std::alloc::Global;

/// The list of a sample: by keys that are drawn for the activities, in order of number, from the
/// generator that the seed and the number of the sample begin.
pub fn list_of_sample<'n>(
    alloc: Global,
    net: &'n Net,
    seed: u64,
    sample: u32,
) -> Result<FeasibleList<'n>, Memory>
    ensures { IfOk result (λ list. list ≡ record {
      network = net.now;
      order = sample_list net.now.project seed sample;
    }) }
{
    let mut keys = vec![in alloc; 0; net.instance().count() as usize]?;
    draw_keys(seed, sample, &mut keys);
    list_by_keys(alloc, net, &keys)
}

/// The first words of the generator that a seed and a sample begin, in order: the sample is the
/// number of its stream.
pub fn draw_keys(seed: u64, sample: u32, keys: &mut [u32])
    ensures { keys.new ≡ first_words (length keys.old) (generator_of seed sample) }
{
    let mut generator = Pcg32::new(seed, u64::from(sample));
    for key in keys.iter_mut() {
        *key = generator.next_word();
    }
}
