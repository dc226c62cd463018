ghost use Rattle.std.specs.Prelude.{◌≡◌, ◌≤◌, IfOk, All};
ghost use Rattle.rc_instance.specs.Misfit.{HasNoMisfit};
ghost use Rattle.key_sampling.specs.Best.{IsRange, IsBest, best_of};
ghost use Rattle.key_sampling.specs.Workers.{IsReady, HasEnded, HaveEnded};

use crate::best::Best;
use crate::opening::MAX_SEEKERS;
use crate::race::Race;
use crate::search::search;
use crate::worker::{Worker, seekers_of, workers_of};
use activity_net::Net;
use rc_instance::Memory;
use std::alloc::Global;
use std::thread;
use std::thread::Threads;
use time_windows::Windows;

/// The best sample of a range: the least makespan, and of those that have it the least number.
///
/// So many workers race for it, and each gives up the samples that cannot be the best. The answer is
/// the same whatever their number is and however they come on. The windows are those of the net, and
/// the instance has no misfit. All memory is taken before the first sample is begun.
pub fn best_sample(
    rt: &(impl Threads + Sync),
    alloc: Global,
    net: &Net,
    windows: &Windows<'_>,
    seed: u64,
    from: u32,
    count: u32,
    workers: u32,
) -> Result<Best, Memory>
    requires fits { HasNoMisfit net.now.project }
    requires windows { windows.now ≡ net.now }
    requires range { IsRange from count }
    requires workers { (1 ≤ workers) × (workers ≤ MAX_SEEKERS) }
    ensures best { IfOk result (IsBest net.now.project seed from count) }
    ensures computed { IfOk result (λ best. best ≡ best_of net.now.project seed from count) }
{
    let (race, seekers) = Race::open(alloc, net, seed, from, count, workers)?;
    let mut ended = Vec::with_capacity(alloc, workers as usize)?;
    let mut crew = workers_of(alloc, net, seekers)?;
    run_all(rt, &race, windows, &mut crew);
    seekers_of(crew, &mut ended);
    Ok(race.close(ended))
}

// Lets each worker search in a thread of its own, until no sample is left.
pub(crate) fn run_all(
    rt: &(impl Threads + Sync),
    race: &Race<'_>,
    windows: &Windows<'_>,
    crew: &mut [Worker<'_>],
)
    requires windows { windows.now ≡ race.now.terms.net.now }
    requires fits { HasNoMisfit race.now.terms.net.now.project }
    requires ready { All (IsReady race.now) crew.old }
    ensures { HaveEnded race.now crew.old crew.new }
{
    let threads = crew.len().max(1);
    thread::for_each_mut(
        rt,
        crew,
        threads,
        &|_, worker: &mut Worker<'_>|
            requires { (windows.now ≡ race.now.terms.net.now)
                × HasNoMisfit race.now.terms.net.now.project × IsReady race.now worker.now }
            ensures { HasEnded race.entry.now worker.entry.now worker.exit.now }
        { search(race, windows, worker) },
    );
}
