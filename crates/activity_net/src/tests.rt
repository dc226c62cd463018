use super::*;
use rc_instance::{Instance, InstanceFault, Parts};
use std::alloc::{AllocError, Global};
use std::test::*;

// Direct successors, for each activity.
fn lists(alloc: Global, successors: &[&[u32]]) -> Result<Vec<Vec<u32>>, AllocError> {
    let mut lists = Vec::new(alloc);
    for list in successors {
        lists.push(Vec::from_slice(alloc, list)?)?;
    }
    Ok(lists)
}

// An instance without resources, of activities that take one period each.
fn instance(alloc: Global, successors: &[&[u32]]) -> Result<Instance, Fail> {
    let successors = lists(alloc, successors)?;
    let durations = vec![in alloc; 1; successors.len()]?;
    let capacities = Vec::new(alloc);
    let demands = Vec::new(alloc);
    let parts = Parts {
        capacities,
        durations,
        demands,
        successors,
    };
    Ok(Instance::build(alloc, parts).ok().ok_or("no instance")?)
}

fn net(alloc: Global, successors: &[&[u32]]) -> Result<Net, Fail> {
    Ok(
        Net::of(alloc, instance(alloc, successors)?)
            .ok()
            .ok_or("a cycle")?,
    )
}

// Whether it is this cycle that is shown for these successors.
fn shows(alloc: Global, successors: &[&[u32]], cycle: &[u32]) -> Result<bool, Fail> {
    match Net::of(alloc, instance(alloc, successors)?) {
        Err(NetFault::Cycle(ring)) => {
            is_send(&ring);
            Ok(ring.numbers() == cycle)
        }
        _ => Ok(false),
    }
}

const SIX: [&[u32]; 6] = [&[2, 3, 4], &[5], &[6], &[6], &[6], &[]];

#[test]
fn the_fixed_cycle_is_shown(rt: HostRuntime) -> Result<(), Fail> {
    let alloc = rt.alloc();
    assert!(rt; shows(alloc, &[&[2], &[1]], &[1, 2])?);
    assert!(rt; shows(alloc, &[&[1]], &[1])?);
    assert!(rt; shows(alloc, &[&[2], &[4], &[2], &[3]], &[2, 4, 3])?);

    // The way back from 1 goes over 5, which is on a cycle too, to 3.
    assert!(rt; shows(alloc, &[&[], &[], &[4, 5], &[3], &[1, 6], &[5]], &[3, 4])?);
    Ok(())
}

#[test]
fn a_backward_successor_is_taken(rt: HostRuntime) -> Result<(), Fail> {
    let net = net(rt.alloc(), &[&[], &[1]])?;
    assert_eq!(rt; net.order(), [2, 1].as_slice());
    Ok(())
}

#[test]
fn readers_answer(rt: HostRuntime) -> Result<(), Fail> {
    let alloc = rt.alloc();
    let net = net(alloc, &SIX)?;
    assert_eq!(rt; net.instance().count(), 6);
    assert_eq!(rt; net.predecessors(6), [3, 4, 5].as_slice());
    assert_eq!(rt; net.predecessor_count(6), 3);
    assert_eq!(rt; net.predecessor_count(1), 0);
    assert!(rt; net.follows(1, 6));
    assert!(rt; net.follows(2, 6));
    assert!(rt; !net.follows(2, 3));
    assert!(rt; !net.follows(3, 3));
    assert!(rt; !net.follows(6, 1));
    let mut counts = Vec::new(alloc);
    for activity in 1..net.instance().count() + 1 {
        counts.push(net.all_successors(activity))?;
    }
    assert_eq!(rt; counts.as_slice(), [5, 2, 1, 1, 1, 0].as_slice());
    Ok(())
}

#[test]
fn an_index_names_a_predecessor(rt: HostRuntime) -> Result<(), Fail> {
    let net = net(rt.alloc(), &SIX)?;
    assert_eq!(rt; net.instance().count(), 6);
    assert_eq!(rt; net.predecessor_count(6), 3);
    assert_eq!(rt; net.predecessor(6, 1), 4);
    Ok(())
}

#[test]
fn lists_are_tested(rt: HostRuntime) -> Result<(), Fail> {
    let alloc = rt.alloc();
    let net = net(alloc, &SIX)?;
    for (order, fault) in [
        (
            [1, 2, 3].as_slice(),
            Some(ListFault::Length {
                found: 3,
                activities: 6,
            }),
        ),
        (
            &[1, 5, 2, 3, 4, 6],
            Some(ListFault::TooEarly {
                position: 1,
                predecessor: 2,
            }),
        ),
        (
            &[1, 2, 2, 3, 4, 6],
            Some(ListFault::Repeated { position: 2 }),
        ),
        (
            &[1, 2, 9, 3, 4, 6],
            Some(ListFault::Unknown { position: 2 }),
        ),
        (&[1, 4, 3, 2, 5, 6], None),
    ] {
        assert_eq!(rt; FeasibleList::of(alloc, &net, order).err(), fault);
    }
    Ok(())
}

#[test]
fn a_list_takes_another_order(rt: HostRuntime) -> Result<(), Fail> {
    let alloc = rt.alloc();
    let net = net(alloc, &SIX)?;
    let order = Vec::from_slice(alloc, net.order())?;
    let mut list = FeasibleList::from_feasible(&net, order);
    list.set_order(net.order());
    assert_eq!(rt; list.order(), [1, 2, 3, 4, 5, 6].as_slice());
    assert_eq!(rt; list.net().order(), net.order());
    is_send(&net);
    is_sync(&net);
    is_send(&list);
    is_sync(&list);
    Ok(())
}

#[test]
fn neighbours_are_exchanged(rt: HostRuntime) -> Result<(), Fail> {
    let alloc = rt.alloc();
    let net = net(alloc, &SIX)?;
    assert_eq!(rt; net.instance().count(), 6);
    assert!(rt; net.precedes(1, 2));
    assert!(rt; !net.precedes(2, 3));
    let order = Vec::from_slice(alloc, net.order())?;
    let mut list = FeasibleList::from_feasible(&net, order);
    assert_eq!(rt; list.order().len(), 6);
    assert!(rt; !list.swap_at(0));
    assert!(rt; list.swap_at(1));
    assert_eq!(rt; list.order(), [1, 3, 2, 4, 5, 6].as_slice());
    Ok(())
}

#[test]
fn faults_say_what_they_are(rt: HostRuntime) -> Result<(), Fail> {
    let alloc = rt.alloc();
    for (fault, words) in [
        (
            ListFault::Length {
                found: 3,
                activities: 6,
            },
            "list: 3 numbers for 6 activities",
        ),
        (
            ListFault::Unknown { position: 1 },
            "list: position 1 is unknown",
        ),
        (
            ListFault::Repeated { position: 2 },
            "list: position 2 is repeated",
        ),
        (
            ListFault::TooEarly {
                position: 0,
                predecessor: 4,
            },
            "list: position 0 comes before predecessor 4",
        ),
    ] {
        let text = format!(in alloc; "{fault}").ok().ok_or("memory")?;
        assert_eq!(rt; text.as_str(), words);
    }
    let fault = Net::of(alloc, instance(alloc, &[&[2], &[1]])?)
        .err()
        .ok_or("no cycle")?;
    let text = format!(in alloc; "{fault}").ok().ok_or("memory")?;
    assert_eq!(rt; text.as_str(), "cycle 1 2 1");
    Ok(())
}

fn is_send<T: Send>(_: &T) {}

fn is_sync<T: Sync>(_: &T) {}
