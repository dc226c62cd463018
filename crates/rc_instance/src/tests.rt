ghost use Rattle.std.specs.Prelude.{◌≡◌, ◌*◌, ◌≤◌, length, IfOk};
ghost use Rattle.rc_instance.specs.Project.{resource_count};

use crate::limits::{MAX_CAPACITY, MAX_CHANGE_PERIOD, MAX_HORIZON};
use crate::{Change, Instance, InstanceFault, Memory, Misfit, Parts, Schedule};
use std::alloc::{AllocError, Global};
use std::test::Fail;

fn is_send<T: Send>(_: &T) {}

fn is_sync<T: Sync>(_: &T) {}

/// So many activities that demand nothing, of which the first takes this long and the others no
/// time, and so many resources of this capacity.
fn idle(
    alloc: Global,
    activities: usize,
    resources: usize,
    duration: u32,
    capacity: u32,
) -> Result<Parts, AllocError>
    requires some { 1 ≤ activities }
    requires activities { activities ≤ 2000 }
    requires resources { resources ≤ 20 }
    ensures successors { IfOk result (λ parts.
        length parts.successors.items ≡ length parts.durations.items) }
    ensures demands { IfOk result (λ parts. length parts.demands.items
        ≡ length parts.durations.items * length parts.capacities.items) }
{
    let mut durations = vec![in alloc; 0; activities]?;
    durations[0] = duration;
    let mut successors = Vec::new(alloc);
    for _ in 0..activities {
        successors.push(Vec::new(alloc))?;
    }
    Ok(Parts {
        capacities: vec![in alloc; capacity; resources]?,
        durations,
        demands: vec![in alloc; 0; activities * resources]?,
        successors,
    })
}

#[test]
fn an_instance_may_reach_its_limits(rt: HostRuntime) -> Result<(), Fail> {
    let alloc = rt.alloc();
    let many = InstanceFault::TooManyActivities { count: 1001 };
    let wide = InstanceFault::TooManyResources { count: 17 };
    let long = InstanceFault::TooLong { sum: 65_536 };
    let large = InstanceFault::CapacityTooLarge {
        resource: 1,
        capacity: 65_536,
    };
    for (activities, resources, duration, capacity, fault) in [
        (1000, 16, 65_535, 65_535, None),
        (1001, 16, 65_535, 65_535, Some(many)),
        (1000, 17, 65_535, 65_535, Some(wide)),
        (1000, 16, 65_536, 65_535, Some(long)),
        (1000, 16, 65_535, 65_536, Some(large)),
    ] {
        let parts = idle(alloc, activities, resources, duration, capacity)?;
        assert_eq!(rt; Instance::build(alloc, parts).err(), fault);
    }
    Ok(())
}

/// One activity of the greatest duration, and a resource of capacity 3.
fn long(alloc: Global) -> Result<Instance, Fail>
    ensures { IfOk result (λ instance. 1 ≤ resource_count instance) }
{
    match Instance::build(alloc, idle(alloc, 1, 1, 65_535, 3)?) {
        Ok(instance) if instance.resources() == 1 => Ok(instance),
        _ => Err(Fail::from("no instance")),
    }
}

#[test]
fn a_calendar_may_reach_the_last_period(rt: HostRuntime) -> Result<(), Fail> {
    let alloc = rt.alloc();
    let instance = long(alloc)?;
    let last = Change {
        resource: 1,
        period: MAX_CHANGE_PERIOD,
        capacity: MAX_CAPACITY,
    };
    let instance = instance.with_calendar(vec![in alloc; last]?);
    assert_eq!(rt; instance.horizon(), MAX_HORIZON);
    assert_eq!(rt; instance.change(0), last);
    for (period, capacity) in [(0, 3), (65_534, 3), (65_535, 65_535)] {
        assert_eq!(rt; instance.capacity_at(1, period), capacity, "{period}");
    }
    let schedule = Schedule::zero(alloc, instance.count())
        .ok()
        .ok_or("no schedule")?;
    assert_eq!(rt; schedule.makespan(&instance), 65_535);
    is_send(&instance);
    is_sync(&instance);
    is_send(&schedule);
    is_sync(&schedule);
    Ok(())
}

#[test]
fn faults_say_what_they_are(rt: HostRuntime) -> Result<(), Fail> {
    let misfit = Misfit {
        activity: 2,
        resource: 1,
        demand: 5,
        capacity: 4,
    };
    let misfit = format!(in rt.alloc(); "{misfit}")?;
    assert_eq!(rt;
        misfit.as_str(),
        "activity 2 needs 5 of resource 1, capacity 4"
    );
    let fault = InstanceFault::TooLong { sum: 65_536 };
    let faults = format!(in rt.alloc(); "{fault}, {Memory}")?;
    assert_eq!(rt; faults.as_str(), "too long, out of memory");
    Ok(())
}
