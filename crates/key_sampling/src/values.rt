ghost use Rattle.std.specs.Prelude.{◌≡◌, ◌≢◌, ℕ, ◌+◌, ◌^◌, ◌<◌, ◌≤◌, ◌⊎◌, ◌↔◌, length, slice_index, IfOk, IsTrue, EachIndex};
ghost use Rattle.rc_instance.specs.Misfit.{HasNoMisfit};
ghost use Rattle.key_sampling.specs.Best.{IsRange};
ghost use Rattle.key_sampling.specs.Samples.{sample_makespan, sample_values};
ghost use Rattle.key_sampling.specs.Values.{ShowsValues};

use crate::tools::Tools;
use activity_net::Net;
use rayon::prelude::*;
use rc_instance::Memory;
use std::alloc::Global;
use std::thread::Threads;

// Stands where no value is written: each value is below it.
const NO_VALUE: u32 = u32::MAX;

// How many samples a thread values with the tools that it makes.
const CHUNK: usize = 256;

/// The makespans of the samples of a range, in order, by as many threads as there are processors.
///
/// The instance has no misfit.
pub fn sample_values(
    rt: &(impl Threads + Sync),
    alloc: Global,
    net: &Net,
    seed: u64,
    from: u32,
    count: u32,
) -> Result<Vec<u32>, Memory>
    requires fits { HasNoMisfit net.now.project }
    requires range { IsRange from count }
    ensures { IfOk result (λ values. values.items ≡ sample_values net.now.project seed from count) }
{
    let mut values = vec![in alloc; NO_VALUE; count as usize]?;
    fill_all(rt, alloc, net, seed, from, &mut values);
    if all_written(&values) {
        Ok(values)
    } else {
        Err(Memory)
    }
}

// Writes the values of a range, chunk by chunk. A chunk whose tools found no memory is left as it is.
fn fill_all(
    rt: &(impl Threads + Sync),
    alloc: Global,
    net: &Net,
    seed: u64,
    from: u32,
    values: &mut [u32],
)
    requires fits { HasNoMisfit net.now.project }
    requires range { from + length values.old ≤ 2 ^ 32 }
    requires empty { EachIndex values.old (λ k. slice_index values.old k ≡ NO_VALUE) }
    ensures { ShowsValues net.now.project seed from (length values.old) values.new }
{
    par_chunks_mut_for_each(
        rt,
        values,
        CHUNK,
        |start: usize, chunk: &mut [u32]|
            requires { HasNoMisfit net.now.project
                × (from + start < 2 ^ 32) × (from + (start + length chunk.now) ≤ 2 ^ 32)
                × EachIndex chunk.now (λ k. slice_index chunk.now k ≡ NO_VALUE) }
            ensures { (k : ℕ) → k < length chunk.entry.now
                → (slice_index chunk.exit.now k ≡ NO_VALUE) ⊎ (slice_index chunk.exit.now k
                ≡ sample_makespan net.entry.now.project seed (from + (start + k))) }
        { fill(alloc, net, seed, from + start as u32, chunk) },
    );
}

// Writes the values of a range, or none where the tools find no memory.
fn fill(alloc: Global, net: &Net, seed: u64, from: u32, values: &mut [u32])
    requires fits { HasNoMisfit net.now.project }
    requires range { from + length values.old ≤ 2 ^ 32 }
    requires empty { EachIndex values.old (λ k. slice_index values.old k ≡ NO_VALUE) }
    ensures { ShowsValues net.now.project seed from (length values.old) values.new }
{
    let Ok(mut tools) = Tools::new(alloc, net) else {
        return;
    };
    for (place, value) in values.iter_mut().enumerate() {
        *value = tools.value(seed, from + place as u32);
    }
}

fn all_written(values: &[u32]) -> bool
    ensures { IsTrue result ↔ EachIndex values.now (λ k. slice_index values.now k ≢ NO_VALUE) }
{
    values.iter().all(|value| *value != NO_VALUE)
}
