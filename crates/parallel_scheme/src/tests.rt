use super::*;
use activity_net::{FeasibleList, Net};
use rc_instance::{Instance, Misfit, Parts, Schedule};
use serial_plain::SchemeFault;
use std::alloc::Global;
use std::test::*;

// Activities beside one resource of capacity 2, a list of them, and their starts.
struct Row {
    durations: &'static [u32],
    demands: &'static [u32],
    successors: &'static [&'static [u32]],
    order: &'static [u32],
    starts: &'static [u32],
}

static ROWS: [Row; 3] = [
    // the second activity waits for the first, and needs all: the third starts at once
    Row {
        durations: &[2, 2, 4],
        demands: &[1, 2, 1],
        successors: &[&[2], &[], &[]],
        order: &[1, 2, 3],
        starts: &[0, 4, 0],
    },
    Row {
        durations: &[0, 3, 2, 2, 1, 0],
        demands: &[0, 2, 1, 1, 1, 0],
        successors: &[&[2, 3, 4], &[5], &[6], &[6], &[6], &[]],
        order: &[1, 2, 3, 4, 5, 6],
        starts: &[0, 0, 3, 3, 5, 6],
    },
    // of two that can start, the first of the list does
    Row {
        durations: &[0, 3, 2, 2, 1, 0],
        demands: &[0, 2, 1, 1, 1, 0],
        successors: &[&[2, 3, 4], &[5], &[6], &[6], &[6], &[]],
        order: &[1, 3, 2, 4, 5, 6],
        starts: &[0, 2, 0, 0, 5, 6],
    },
];

// One activity that needs more than there is.
static WIDE: Row = Row {
    durations: &[1],
    demands: &[3],
    successors: &[&[]],
    order: &[1],
    starts: &[],
};

// The net of a row.
fn net_of(alloc: Global, row: &Row) -> Result<Net, Fail> {
    let mut successors = Vec::new(alloc);
    for list in row.successors {
        successors.push(Vec::from_slice(alloc, list)?)?;
    }
    let parts = Parts {
        capacities: vec![in alloc; 2]?,
        durations: Vec::from_slice(alloc, row.durations)?,
        demands: Vec::from_slice(alloc, row.demands)?,
        successors,
    };
    let count = parts.durations.len();
    if parts.successors.len() != count || parts.demands.len() != count {
        return Err(Fail::from("the lists have their lengths"));
    }
    let instance = Instance::build(alloc, parts)?;
    Ok(Net::of(alloc, instance).ok().ok_or("no cycle")?)
}

// The answer to the list of a row.
fn answer(alloc: Global, row: &Row) -> Result<Result<Schedule, SchemeFault>, Fail> {
    let net = net_of(alloc, row)?;
    let list = FeasibleList::of(alloc, &net, row.order)
        .ok()
        .ok_or("the order is feasible")?;
    Ok(parallel(alloc, &list))
}

// Whether a schedule has these starts.
fn has_starts(schedule: &Schedule, starts: &[u32]) -> bool {
    if schedule.count() != starts.len() || starts.len() > 6 {
        return false;
    }
    for (place, start) in starts.iter().enumerate() {
        if schedule.start(place as u32 + 1) != *start {
            return false;
        }
    }
    true
}

#[test]
fn lists_are_scheduled_as_worked(rt: HostRuntime) -> Result<(), Fail> {
    let alloc = rt.alloc();
    for row in &ROWS {
        let schedule = answer(alloc, row)?.ok().ok_or("nothing is refused")?;
        assert!(rt; has_starts(&schedule, row.starts));
    }
    Ok(())
}

#[test]
fn a_misfit_is_refused_with_its_values(rt: HostRuntime) -> Result<(), Fail> {
    let refused = answer(rt.alloc(), &WIDE)?.err().ok_or("it does not fit")?;
    let misfit = Misfit {
        activity: 1,
        resource: 1,
        demand: 3,
        capacity: 2,
    };
    assert!(rt; refused == SchemeFault::Misfit(misfit));
    Ok(())
}
