// A race for the best sample, by direct calls of its only seeker.
ghost use Rattle.std.specs.Prelude.{◌≡◌, MatchBool, IfOk, OnOk};
ghost use Rattle.rc_instance.specs.Misfit.{HasNoMisfit};
ghost use Rattle.key_sampling.specs.Best.{IsRange};
ghost use Rattle.key_sampling.specs.Samples.{sample_makespan};
ghost use Rattle.key_sampling.specs.Race.{value_in, IsRaceOf, IsOpened};
ghost use Rattle.worker_tests.specs.Alone.{IsIdle, IsAtSample, HasStopped};

use crate::fixtures::{SIX, net_of};
use activity_net::Net;
use key_sampling::{Best, Race, Seeker, sample_values};
use std::alloc::Global;
use std::process::Abort;
use std::test::*;
use std::thread::Threads;

// The only seeker of a new race.
fn only_one(race: &Race<'_>, seekers: Vec<Seeker>) -> Result<Seeker, Fail>
    requires { IsOpened 1 race.now seekers.items }
    ensures { IfOk result (IsIdle race.now) }
{
    let mut seekers = seekers;
    let Some(seeker) = seekers.pop() else {
        return Err(Fail::from("there is a seeker"));
    };
    Ok(seeker)
}

// The value of a sample.
fn value_of(
    rt: &(impl Threads + Sync),
    alloc: Global,
    net: &Net,
    seed: u64,
    sample: u32,
) -> Result<u32, Fail>
    requires { HasNoMisfit net.now.project }
    ensures { IfOk result (λ value. value ≡ sample_makespan net.now.project seed sample) }
{
    let values = sample_values(rt, alloc, net, seed, sample, 1)?;
    if values.len() != 1 {
        return Err(Fail::from("there is one value"));
    }
    Ok(values[0])
}

// Takes the next sample, which is the one that is due.
fn take_due(race: &Race<'_>, seeker: &mut Seeker, due: u32) -> Result<(), Fail>
    requires { IsIdle race.now seeker.old }
    ensures { OnOk result (IsAtSample race.now seeker.new due) }
{
    let Some(sample) = race.take(seeker) else {
        return Err(Fail::from("a sample is left"));
    };
    if sample != due {
        return Err(Fail::from("samples come in order"));
    }
    Ok(())
}

// Tries to give the sample in hand up by its value.
fn give_up(race: &Race<'_>, seeker: &mut Seeker, sample: u32, value: u32) -> bool
    requires hand { IsAtSample race.now seeker.old sample }
    requires value { value ≡ value_in race.now sample }
    ensures { MatchBool result (IsIdle race.now seeker.new) (IsAtSample race.now seeker.new sample) }
{
    race.give_up(seeker, value)
}

// Values the sample in hand, unless it can be given up; answers whether it was given up.
fn settle(race: &Race<'_>, seeker: &mut Seeker, sample: u32, value: u32) -> bool
    requires hand { IsAtSample race.now seeker.old sample }
    requires value { value ≡ value_in race.now sample }
    ensures { IsIdle race.now seeker.new }
{
    if give_up(race, seeker, sample, value) {
        return true;
    }
    race.value(seeker, value);
    false
}

// Finds that no sample is left.
fn stop(race: &Race<'_>, seeker: &mut Seeker) -> Result<(), Fail>
    requires { IsIdle race.now seeker.old }
    ensures { OnOk result (HasStopped race.now seeker.new) }
{
    let None = race.take(seeker) else {
        return Err(Fail::from("no sample is left"));
    };
    Ok(())
}

// Takes the samples 54 to 63 in order, each of which has the value 6. The first one is valued, and
// the others are given up, since their numbers are greater.
fn settle_all<R: Threads + Sync + Abort>(
    rt: &R,
    alloc: Global,
    net: &Net,
    race: &Race<'_>,
    seeker: &mut Seeker,
) -> Result<(), Fail>
    requires idle { IsIdle race.now seeker.old }
    requires race { IsRaceOf net.now 42 54 10 race.now }
    requires fits { HasNoMisfit net.now.project }
    ensures { OnOk result (HasStopped race.now seeker.new) }
{
    'samples: for sample in 54..64 {
        take_due(race, seeker, sample)?;
        let value = value_of(rt, alloc, net, 42, sample)?;
        assert_eq!(rt; value, 6);
        assert_eq!(rt; settle(race, seeker, sample, value), sample > 54);
        assert_eq!(rt; seeker.best_seen(), (6 << 32) + 54);
    }
    stop(race, seeker)
}

// The best sample of a race whose only seeker has stopped.
fn closed(alloc: Global, race: Race<'_>, seeker: Seeker) -> Result<Best, Fail>
    requires { HasStopped race seeker }
{
    let mut seekers = Vec::new(alloc);
    seekers.push(seeker)?;
    Ok(race.close(seekers))
}

#[test]
fn the_first_of_equal_samples_wins_and_the_others_are_given_up(
    rt: HostRuntime,
) -> Result<(), Fail> {
    let net = net_of(rt.alloc(), SIX)?;
    let (race, seekers) = Race::open(rt.alloc(), &net, 42, 54, 10, 1)?;
    let mut seeker = only_one(&race, seekers)?;
    settle_all(&rt, rt.alloc(), &net, &race, &mut seeker)?;
    let best = closed(rt.alloc(), race, seeker)?;
    assert_eq!(rt; (best.makespan, best.sample), (6, 54));
    Ok(())
}
