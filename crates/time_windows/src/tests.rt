ghost use Rattle.rc_instance.specs.Project.{IsResource};

use super::*;
use activity_net::Net;
use rc_instance::{Change, Instance, Memory, Parts};
use std::alloc::Global;
use std::test::*;

// The instance of these parts, if their lists have their lengths.
fn instance_of(
    alloc: Global,
    capacities: &[u32],
    durations: &[u32],
    demands: &[u32],
    successors: &[&[u32]],
) -> Result<Instance, Fail> {
    let mut lists = Vec::new(alloc);
    for list in successors {
        lists.push(list.to_vec(alloc)?)?;
    }
    let cells = durations.len().checked_mul(capacities.len());
    if lists.len() != durations.len() || cells != Some(demands.len()) {
        return Err(Fail::from("the lists have their lengths"));
    }
    let parts = Parts {
        capacities: capacities.to_vec(alloc)?,
        durations: durations.to_vec(alloc)?,
        demands: demands.to_vec(alloc)?,
        successors: lists,
    };
    Ok(Instance::build(alloc, parts)?)
}

// Six activities and one resource of capacity 2.
fn six(alloc: Global) -> Result<Instance, Fail> {
    instance_of(
        alloc,
        &[2],
        &[0, 3, 2, 2, 1, 0],
        &[0, 2, 1, 1, 1, 0],
        &[&[2, 3, 4], &[5], &[6], &[6], &[6], &[]],
    )
}

// The same instance with a capacity of 4 in period 1, and of 1 from then on.
fn with_peak(alloc: Global, instance: Instance) -> Result<Instance, Memory>
    requires { IsResource instance 1 }
{
    let peak = Change {
        resource: 1,
        period: 1,
        capacity: 4,
    };
    let rest = Change {
        resource: 1,
        period: 2,
        capacity: 1,
    };
    let changes = vec![in alloc; peak, rest]?;
    Ok(instance.with_calendar(changes))
}

// The earliest start, the tail and the latest start of each activity.
fn rows(alloc: Global, windows: &Windows) -> Result<Vec<(u32, u32, u32)>, Memory> {
    let mut rows = Vec::new(alloc);
    for activity in 1..windows.net().instance().count() + 1 {
        let earliest = windows.earliest(activity);
        rows.push((earliest, windows.tail(activity), windows.latest(activity)))?;
    }
    Ok(rows)
}

fn is_send<T: Send>(_: &T) {}

fn is_sync<T: Sync>(_: &T) {}

#[test]
fn windows_are_the_worked_ones(rt: HostRuntime) -> Result<(), Fail> {
    let alloc = rt.alloc();
    let net = Net::of(alloc, six(alloc)?)?;
    let windows = Windows::of(alloc, &net)?;
    let expected = [
        (0, 4, 0),
        (0, 4, 0),
        (0, 2, 2),
        (0, 2, 2),
        (3, 1, 3),
        (4, 0, 4),
    ];
    assert_eq!(rt; rows(alloc, &windows)?.as_slice(), expected.as_slice());
    assert_eq!(rt; windows.critical(), 4);
    assert_eq!(rt; windows.capacity_bound(), 6);
    is_send(&windows);
    is_sync(&windows);
    Ok(())
}

#[test]
fn bounds_are_the_worked_ones(rt: HostRuntime) -> Result<(), Fail> {
    let alloc = rt.alloc();
    for (capacities, demands, bound, why) in [
        ([].as_slice(), [].as_slice(), 0, "no resource"),
        (&[0], &[0, 0], 0, "a resource of which there is none"),
        (&[2], &[3, 1], 0, "an activity that demands more"),
        (&[2], &[1, 3], 2, "one that takes no time demands more"),
        (&[2, 3], &[1, 3, 0, 0], 3, "the greatest counts"),
    ] {
        let instance = instance_of(alloc, capacities, &[3, 0], demands, &[&[], &[]])?;
        let net = Net::of(alloc, instance)?;
        let windows = Windows::of(alloc, &net)?;
        assert_eq!(rt; windows.capacity_bound(), bound, "{why}");
    }
    Ok(())
}

#[test]
fn top_capacity_is_that_of_the_calendar(rt: HostRuntime) -> Result<(), Fail> {
    let alloc = rt.alloc();
    let instance = six(alloc)?;
    assert_eq!(rt; instance.resources(), 1);
    let net = Net::of(alloc, with_peak(alloc, instance)?)?;
    assert_eq!(rt; Windows::of(alloc, &net)?.capacity_bound(), 3);
    Ok(())
}
