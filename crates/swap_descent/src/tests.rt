use super::*;
use activity_net::{FeasibleList, Net};
use rc_instance::{Instance, Misfit, Parts, Schedule};
use serial_plain::SchemeFault;
use std::alloc::Global;
use std::test::*;

// Rounds of the descent from one list, the list after them, and its starts.
struct Row {
    rounds: u32,
    order: [u32; 6],
    starts: [u32; 6],
}

static ROWS: [Row; 4] = [
    Row {
        rounds: 0,
        order: [1, 4, 5, 2, 3, 6],
        starts: [0, 2, 3, 0, 0, 6],
    },
    Row {
        rounds: 1,
        order: [1, 4, 2, 5, 3, 6],
        starts: [0, 0, 2, 0, 1, 5],
    },
    Row {
        rounds: 2,
        order: [1, 4, 2, 3, 5, 6],
        starts: [0, 0, 1, 0, 2, 4],
    },
    Row {
        rounds: 9,
        order: [1, 4, 2, 3, 5, 6],
        starts: [0, 0, 1, 0, 2, 4],
    },
];

static SUCCESSORS: [&[u32]; 6] = [&[2, 4, 5], &[3], &[6], &[6], &[6], &[]];

// The net of six activities beside one resource of a capacity.
fn net_of(alloc: Global, capacity: u32) -> Result<Net, Fail> {
    let mut successors = Vec::new(alloc);
    for list in &SUCCESSORS {
        successors.push(Vec::from_slice(alloc, list)?)?;
    }
    let parts = Parts {
        capacities: vec![in alloc; capacity]?,
        durations: Vec::from_slice(alloc, &[0, 1, 3, 2, 2, 0])?,
        demands: Vec::from_slice(alloc, &[0, 1, 1, 1, 1, 0])?,
        successors,
    };
    let instance = Instance::build(alloc, parts)?;
    Ok(Net::of(alloc, instance).ok().ok_or("no cycle")?)
}

// The list from which each descent begins.
fn first_list(alloc: Global, net: &Net) -> Result<FeasibleList<'_>, Fail> {
    Ok(
        FeasibleList::of(alloc, net, &[1, 4, 5, 2, 3, 6])
            .ok()
            .ok_or("the order is feasible")?,
    )
}

// Whether a schedule has these starts.
fn has_starts(schedule: &Schedule, starts: &[u32; 6]) -> bool {
    if schedule.count() != 6 {
        return false;
    }
    for (place, start) in starts.iter().enumerate() {
        if schedule.start(place as u32 + 1) != *start {
            return false;
        }
    }
    true
}

#[test]
fn lists_descend_as_worked(rt: HostRuntime) -> Result<(), Fail> {
    let alloc = rt.alloc();
    let net = net_of(alloc, 2)?;
    for row in &ROWS {
        let (list, schedule) = descend(alloc, first_list(alloc, &net)?, row.rounds)?;
        assert_eq!(rt; list.order(), row.order.as_slice());
        assert!(rt; has_starts(&schedule, &row.starts));
    }
    Ok(())
}

#[test]
fn a_misfit_is_refused(rt: HostRuntime) -> Result<(), Fail> {
    let alloc = rt.alloc();
    let net = net_of(alloc, 0)?;
    let misfit = Misfit {
        activity: 2,
        resource: 1,
        demand: 1,
        capacity: 0,
    };
    assert!(rt;
        descend(alloc, first_list(alloc, &net)?, 1).err() == Some(SchemeFault::Misfit(misfit))
    );
    Ok(())
}
