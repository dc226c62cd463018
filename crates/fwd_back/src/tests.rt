ghost use Rattle.std.specs.Prelude.{◌≡◌, ◌≤◌, length};
ghost use Rattle.rc_instance.specs.Project.{IsResource};

use super::*;
use activity_net::{FeasibleList, Net};
use event_line::Line;
use rc_instance::{Change, Instance, Memory, Parts, Schedule};
use serial_plain::serial_on;
use std::alloc::Global;
use std::test::*;

// Six activities beside one resource of capacity 2, which may pause in periods 1 and 2, the list of a
// schedule, its starts, and those of the improved schedule.
struct Row {
    durations: [u32; 6],
    demands: [u32; 6],
    successors: [&'static [u32]; 6],
    pauses: bool,
    order: [u32; 6],
    starts: [u32; 6],
    better: [u32; 6],
}

static ROWS: [Row; 3] = [
    Row {
        durations: [0, 1, 3, 2, 2, 0],
        demands: [0, 1, 1, 1, 1, 0],
        successors: [&[2, 4, 5], &[3], &[6], &[6], &[6], &[]],
        pauses: false,
        order: [1, 4, 5, 2, 3, 6],
        starts: [0, 2, 3, 0, 0, 6],
        better: [0, 0, 1, 0, 2, 4],
    },
    Row {
        durations: [0, 3, 2, 2, 1, 0],
        demands: [0, 2, 1, 1, 1, 0],
        successors: [&[2, 3, 4], &[5], &[6], &[6], &[6], &[]],
        pauses: false,
        order: [1, 2, 3, 4, 5, 6],
        starts: [0, 0, 3, 3, 5, 6],
        better: [0, 0, 3, 3, 5, 6],
    },
    Row {
        durations: [0, 3, 2, 2, 1, 0],
        demands: [0, 2, 1, 1, 1, 0],
        successors: [&[2, 3, 4], &[5], &[6], &[6], &[6], &[]],
        pauses: true,
        order: [1, 2, 3, 4, 5, 6],
        starts: [0, 3, 6, 6, 8, 9],
        better: [0, 3, 6, 6, 8, 9],
    },
];

// The net of a row.
fn net_of(alloc: Global, row: &Row) -> Result<Net, Fail> {
    let mut successors = Vec::new(alloc);
    for list in &row.successors {
        successors.push(Vec::from_slice(alloc, list)?)?;
    }
    let parts = Parts {
        capacities: vec![in alloc; 2]?,
        durations: Vec::from_slice(alloc, &row.durations)?,
        demands: Vec::from_slice(alloc, &row.demands)?,
        successors,
    };
    let mut instance = Instance::build(alloc, parts)?;
    if row.pauses && instance.resources() == 1 {
        instance = with_pause(alloc, instance)?;
    }
    Ok(Net::of(alloc, instance).ok().ok_or("no cycle")?)
}

// The same instance with nothing of its first resource in periods 1 and 2.
fn with_pause(alloc: Global, instance: Instance) -> Result<Instance, Memory>
    requires { IsResource instance 1 }
{
    let stop = Change {
        resource: 1,
        period: 1,
        capacity: 0,
    };
    let resume = Change {
        resource: 1,
        period: 3,
        capacity: 2,
    };
    let changes = vec![in alloc; stop, resume]?;
    Ok(instance.with_calendar(changes))
}

// The schedule of a list, and its improved schedule.
fn both(alloc: Global, list: &FeasibleList<'_>) -> Result<(Schedule, Schedule), Fail> {
    let net = list.net();
    let instance = net.instance();
    instance.fits_all()?;
    let mut line = Line::new(alloc, instance)?;
    let mut schedule = Schedule::zero(alloc, instance.count())?;
    serial_on(list, &mut line, &mut schedule);
    let better = improve(alloc, net, &schedule)?;
    Ok((schedule, better))
}

// Whether a schedule has these starts.
fn has_starts(schedule: &Schedule, starts: &[u32; 6]) -> bool {
    if schedule.count() != 6 {
        return false;
    }
    for (place, start) in starts.iter().enumerate() {
        if schedule.start(place as u32 + 1) != *start {
            return false;
        }
    }
    true
}

#[test]
fn schedules_are_improved_as_worked(rt: HostRuntime) -> Result<(), Fail> {
    let alloc = rt.alloc();
    for row in &ROWS {
        let net = net_of(alloc, row)?;
        let list = FeasibleList::of(alloc, &net, &row.order)
            .ok()
            .ok_or("the order is feasible")?;
        let (schedule, better) = both(alloc, &list)?;
        assert!(rt; has_starts(&schedule, &row.starts));
        assert!(rt; has_starts(&better, &row.better));
    }
    Ok(())
}
