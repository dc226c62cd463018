ghost use Rattle.std.specs.Prelude.{IfOk};
ghost use Rattle.rc_instance.specs.Misfit.{HasNoMisfit};

use super::*;
use crate::crew::run_all;
use crate::word::word_of;
use crate::worker::workers_of;
use activity_net::Net;
use rc_instance::{Instance, Parts};
use std::alloc::Global;
use std::test::*;
use time_windows::Windows;

// The keys of sample 54 of seed 42.
static KEYS: [u32; 6] = [
    0xa15c02b7, 0x7b47f409, 0xba1d3330, 0x83d2f293, 0xbfa4784b, 0xcbed606e,
];

// Six activities that share one resource of capacity 2.
fn six(alloc: Global) -> Result<Net, Fail>
    ensures { IfOk result (λ net. HasNoMisfit net.project) }
{
    let successors: [&[u32]; 6] = [&[2, 3, 4], &[5], &[6], &[6], &[6], &[]];
    let mut lists = Vec::new(alloc);
    for list in successors {
        lists.push(Vec::from_slice(alloc, list)?)?;
    }
    let parts = Parts {
        capacities: Vec::from_slice(alloc, &[2])?,
        durations: Vec::from_slice(alloc, &[0, 3, 2, 2, 1, 0])?,
        demands: Vec::from_slice(alloc, &[0, 2, 1, 1, 1, 0])?,
        successors: lists,
    };
    let instance = Instance::build(alloc, parts)?;
    instance.fits_all()?;
    Ok(Net::of(alloc, instance)?)
}

#[test]
fn a_sample_has_its_list_and_its_value(rt: HostRuntime) -> Result<(), Fail> {
    let net = six(rt.alloc())?;
    let list = list_of_sample(rt.alloc(), &net, 42, 54)?;
    assert_eq!(rt; list.order(), [1, 2, 4, 3, 5, 6].as_slice());
    let values = sample_values(&rt, rt.alloc(), &net, 42, 54, 1)?;
    assert_eq!(rt; values.as_slice(), [6].as_slice());
    let values = sample_values(&rt, rt.alloc(), &net, 1, 4_294_967_295, 1)?;
    assert_eq!(rt; values.as_slice(), [6].as_slice());
    Ok(())
}

#[test]
fn any_number_of_workers_finds_the_least(rt: HostRuntime) -> Result<(), Fail> {
    let net = six(rt.alloc())?;
    let windows = Windows::of(rt.alloc(), &net)?;
    let least = Best {
        makespan: 6,
        sample: 54,
    };
    for workers in [1, 4, 64] {
        let best = best_sample(&rt, rt.alloc(), &net, &windows, 42, 54, 10, workers)?;
        assert_eq!(rt; best, least);
    }
    Ok(())
}

#[test]
fn what_cannot_win_is_given_up_before_it_is_begun(rt: HostRuntime) -> Result<(), Fail> {
    let net = six(rt.alloc())?;
    let windows = Windows::of(rt.alloc(), &net)?;
    let (race, seekers) = Race::open(rt.alloc(), &net, 42, 54, 10, 1)?;
    let mut workers = workers_of(rt.alloc(), &net, seekers)?;
    run_all(&rt, &race, &windows, &mut workers);
    for worker in &workers {
        assert_eq!(rt; worker.seeker.best_seen(), word_of(6, 54));
        assert_eq!(rt; worker.tools.keys.as_slice(), KEYS.as_slice());
    }
    Ok(())
}
