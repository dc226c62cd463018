ghost use Rattle.std.specs.Prelude.{◌≡◌, ℕ, ◌<◌, ◌≤◌, length, IsTrue, IfOk};
ghost use Rattle.std.specs.List.{Contains};
ghost use Rattle.rc_instance.specs.Project.{IsActivity, IsResource, Precedes, activity_count, resource_count};
ghost use Rattle.rc_instance.specs.Order.{IsFeasibleList};

use super::*;
use crate::on_tests::{has_starts, list_of, net_of};
use activity_net::Net;
use rc_instance::{Change, Instance, Memory, Misfit, Parts};
use std::alloc::Global;
use std::test::*;

// Takes the next of the numbers.
fn next(numbers: &[u32], at: &mut usize) -> Result<u32, Fail> {
    let number = numbers.get(*at).copied().ok_or("a number is due")?;
    *at += 1;
    Ok(number)
}

// Adds so many of the numbers to a list.
fn take(count: u32, numbers: &[u32], at: &mut usize, list: &mut Vec<u32>) -> Result<(), Fail> {
    for _ in 0..count {
        list.push(next(numbers, at)?)?;
    }
    Ok(())
}

// The instance of these numbers: how many activities and resources, the capacities, and for each
// activity its duration, its demands, how many successors it has, and its successors.
pub(crate) fn instance_of(alloc: Global, numbers: &[u32]) -> Result<Instance, Fail> {
    let mut at = 0;
    let count = next(numbers, &mut at)?;
    let resources = next(numbers, &mut at)?;
    let mut parts = Parts {
        capacities: Vec::new(alloc),
        durations: Vec::new(alloc),
        demands: Vec::new(alloc),
        successors: Vec::new(alloc),
    };
    take(resources, numbers, &mut at, &mut parts.capacities)?;
    for _ in 0..count {
        take(1, numbers, &mut at, &mut parts.durations)?;
        take(resources, numbers, &mut at, &mut parts.demands)?;
        let mut successors = Vec::new(alloc);
        let named = next(numbers, &mut at)?;
        take(named, numbers, &mut at, &mut successors)?;
        parts.successors.push(successors)?;
    }
    built(alloc, parts)
}

// The instance of these parts, if their lists have their lengths.
fn built(alloc: Global, parts: Parts) -> Result<Instance, Fail> {
    let count = parts.durations.len();
    let cells = count.checked_mul(parts.capacities.len());
    if parts.successors.len() != count || cells != Some(parts.demands.len()) {
        return Err(Fail::from("the lists have their lengths"));
    }
    Ok(Instance::build(alloc, parts)?)
}

// Whether an order is a feasible list.
fn is_feasible_list(instance: &Instance, order: &[u32]) -> bool
    ensures { IsTrue result → IsFeasibleList instance.now order.now }
{
    if order.len() != instance.count() as usize {
        return false;
    }
    for place in 0..order.len() {
        if !may_follow(instance, &order[..place], order[place]) {
            return false;
        }
    }
    true
}

// Whether an activity is none of those before it, and all its direct predecessors are.
fn may_follow(instance: &Instance, before: &[u32], activity: u32) -> bool
    ensures activity { IsTrue result → IsActivity instance.now activity }
    ensures once { IsTrue result → Contains before.now activity → ⊥ }
    ensures after { IsTrue result → (a : ℕ) → IsActivity instance.now a
        → Precedes instance.now a activity → Contains before.now a }
{
    if activity == 0 || activity > instance.count() || before.contains(&activity) {
        return false;
    }
    for a in 1..instance.count() + 1 {
        if !is_ready(instance, before, activity, a) {
            return false;
        }
    }
    true
}

// Whether one activity is among those before another, if it precedes it directly.
fn is_ready(instance: &Instance, before: &[u32], activity: u32, a: u32) -> bool
    requires { IsActivity instance.now a }
    ensures { IsTrue result → Precedes instance.now a activity → Contains before.now a }
{
    if instance.successors(a).contains(&activity) {
        before.contains(&a)
    } else {
        true
    }
}

// The same instance with nothing of its first resource in periods 1 and 2.
pub(crate) fn with_pause(
    alloc: Global,
    instance: Instance,
    capacity: u32,
) -> Result<Instance, Memory>
    requires resource { IsResource instance 1 }
    requires capacity { capacity ≤ 10 }
{
    let stop = Change {
        resource: 1,
        period: 1,
        capacity: 0,
    };
    let resume = Change {
        resource: 1,
        period: 3,
        capacity,
    };
    let changes = vec![in alloc; stop, resume]?;
    Ok(instance.with_calendar(changes))
}

// What the activities that have started use of a resource in a period.
fn usage(instance: &Instance, starts: &[Option<u32>], resource: u32, period: u32) -> u64
    requires resource { IsResource instance.now resource }
    requires count { length starts.now ≡ activity_count instance.now }
{
    let mut used: u64 = 0;
    for activity in 1..instance.count() + 1 {
        if let Some(start) = starts[activity as usize - 1]
            && start <= period
            && period - start < instance.duration(activity)
        {
            used = used.saturating_add(u64::from(instance.demand(activity, resource)));
        }
    }
    used
}

// Whether an activity may run in a period beside those that have started.
fn has_room(instance: &Instance, starts: &[Option<u32>], activity: u32, period: u32) -> bool
    requires activity { IsActivity instance.now activity }
    requires count { length starts.now ≡ activity_count instance.now }
{
    for resource in 1..instance.resources() + 1 {
        let demand = u64::from(instance.demand(activity, resource));
        let used = usage(instance, starts, resource, period).saturating_add(demand);
        if used > u64::from(instance.capacity_at(resource, period)) {
            return false;
        }
    }
    true
}

// Whether an activity may run in each of its periods.
fn fits(instance: &Instance, starts: &[Option<u32>], activity: u32, start: u32) -> bool
    requires activity { IsActivity instance.now activity }
    requires count { length starts.now ≡ activity_count instance.now }
{
    for period in start..start.saturating_add(instance.duration(activity)) {
        if !has_room(instance, starts, activity, period) {
            return false;
        }
    }
    true
}

// The greatest finish of the direct predecessors that have started.
fn ready(instance: &Instance, starts: &[Option<u32>], activity: u32) -> u32
    requires { length starts.now ≡ activity_count instance.now }
{
    let mut ready: u32 = 0;
    for a in 1..instance.count() + 1 {
        if let Some(start) = starts[a as usize - 1]
            && instance.successors(a).contains(&activity)
        {
            ready = ready.max(start.saturating_add(instance.duration(a)));
        }
    }
    ready
}

// The least start of an activity: each period from its ready time on is tried.
fn least_start(instance: &Instance, starts: &[Option<u32>], activity: u32) -> u32
    requires activity { IsActivity instance.now activity }
    requires count { length starts.now ≡ activity_count instance.now }
{
    for start in ready(instance, starts, activity)..instance.horizon() {
        if fits(instance, starts, activity, start) {
            return start;
        }
    }
    instance.horizon()
}

// Each activity of the order in turn, at its least start.
fn start_all(instance: &Instance, order: &[u32], starts: &mut [Option<u32>])
    requires order { IsFeasibleList instance.now order.now }
    requires count { length starts.old ≡ activity_count instance.now }
{
    for activity in order {
        starts[*activity as usize - 1] = Some(least_start(instance, starts, *activity));
    }
}

// Whether the scheme gives an order these starts.
fn gives(alloc: Global, net: &Net, order: &[u32], starts: &[u32]) -> Result<bool, Fail> {
    let list = list_of(alloc, net, order)?;
    let schedule = serial(alloc, &list)?;
    Ok(has_starts(&list, &schedule, starts))
}

pub(crate) const SIX: [u32; 28] = [
    6, 1, 2, // six activities, one resource of capacity 2
    0, 0, 3, 2, 3, 4, //
    3, 2, 1, 5, //
    2, 1, 1, 6, //
    2, 1, 1, 6, //
    1, 1, 1, 6, //
    0, 0, 0,
];

// Whether the scheme gives an order of an instance in numbers these starts.
fn given(alloc: Global, numbers: &[u32], order: &[u32], starts: &[u32]) -> Result<bool, Fail> {
    let net = net_of(alloc, instance_of(alloc, numbers)?)?;
    gives(alloc, &net, order, starts)
}

// The net of an instance in numbers, with the pause if it is to have one.
fn net_with(alloc: Global, numbers: &[u32], is_paused: bool, capacity: u32) -> Result<Net, Fail>
    requires { capacity ≤ 10 }
{
    let instance = instance_of(alloc, numbers)?;
    if !is_paused {
        return net_of(alloc, instance);
    }
    if instance.resources() == 0 {
        return Err(Fail::from("there is a resource"));
    }
    net_of(alloc, with_pause(alloc, instance, capacity)?)
}

#[test]
fn starts_are_the_worked_ones(rt: HostRuntime) -> Result<(), Fail> {
    let alloc = rt.alloc();
    let by_number = [1, 2, 3, 4, 5, 6];
    assert!(rt; given(alloc, &SIX, &by_number, &[0, 0, 3, 3, 5, 6])?);
    assert!(rt;
        given(alloc, &SIX, &[1, 3, 2, 4, 5, 6], &[0, 2, 0, 0, 5, 6])?,
        "fills a gap"
    );
    let paused = net_with(alloc, &SIX, true, 2)?;
    assert!(rt;
        gives(alloc, &paused, &by_number, &[0, 3, 6, 6, 8, 9])?,
        "waits for the pause"
    );
    assert!(rt; given(alloc, &[2, 1, 3, 2, 1, 0, 1, 2, 0], &[1, 2], &[0, 0])?);
    assert!(rt; given(alloc, &[2, 1, 2, 2, 1, 0, 1, 2, 0], &[1, 2], &[0, 2])?);
    assert!(rt; given(alloc, &[1, 1, 2, 0, 5, 0], &[1], &[0])?);
    Ok(())
}

#[test]
fn a_misfit_is_told(rt: HostRuntime) -> Result<(), Fail> {
    let alloc = rt.alloc();
    let net = net_of(alloc, instance_of(alloc, &[1, 1, 2, 1, 5, 0])?)?;
    let list = list_of(alloc, &net, &[1])?;
    let misfit = Misfit {
        activity: 1,
        resource: 1,
        demand: 5,
        capacity: 2,
    };
    assert_eq!(rt;
        serial(alloc, &list).err(),
        Some(SchemeFault::Misfit(misfit))
    );
    Ok(())
}

// The next number below a bound, of a sequence that goes on from the seed.
fn drawn(seed: &mut u32, bound: u32) -> u32
    requires { 0 < bound }
    ensures { result < bound }
{
    *seed = seed.wrapping_mul(1_664_525).wrapping_add(1_013_904_223);
    (*seed >> 16) % bound
}

// Eight activities and two resources, in numbers as `instance_of` reads them, with durations that
// are so many times those of one period to three.
fn generated(alloc: Global, seed: &mut u32, times: u32) -> Result<Vec<u32>, Memory>
    requires { times ≤ 100 }
{
    let mut numbers = vec![in alloc; 8, 2, drawn(seed, 3) + 2, drawn(seed, 3) + 2]?;
    for activity in 1..9 {
        numbers.push(drawn(seed, 4) * times)?;
        numbers.push(drawn(seed, 3))?;
        numbers.push(drawn(seed, 3))?;
        let first = activity + 1 + drawn(seed, 2);
        if first < 8 {
            numbers.extend_from_slice(&[2, first, first + 1])?;
        } else {
            numbers.push(0)?;
        }
    }
    Ok(numbers)
}

// Whether the scheme gives an order the starts of the plain program.
fn agrees(alloc: Global, net: &Net, order: &[u32]) -> Result<bool, Fail> {
    let instance = net.instance();
    let mut starts = vec![in alloc; None; instance.count() as usize]?;
    if !is_feasible_list(instance, order) {
        return Err(Fail::from("the order is feasible"));
    }
    start_all(instance, order, &mut starts);
    let starts: Vec<u32> = starts
        .iter()
        .map(|start| start.unwrap_or(0))
        .collect(alloc)?;
    gives(alloc, net, order, &starts)
}

// Whether the scheme gives orders of eight activities the starts of the plain program.
fn agrees_in_all(alloc: Global, net: &Net) -> Result<bool, Fail> {
    let mut order = [1, 2, 3, 4, 5, 6, 7, 8];
    for place in 0..7 {
        order.swap(place, place + 1);
        if !is_feasible_list(net.instance(), &order) {
            order.swap(place, place + 1);
        }
        if !agrees(alloc, net, &order)? {
            return Ok(false);
        }
    }
    Ok(true)
}

// Short durations, so that the line has a node for each period, and long ones.
#[test]
fn a_plain_program_gives_the_same_starts(rt: HostRuntime) -> Result<(), Fail> {
    let alloc = rt.alloc();
    let mut seed = 1;
    for (rounds, times) in [(30, 1), (4, 30)] {
        for round in 0..rounds {
            let numbers = generated(alloc, &mut seed, times)?;
            let net = net_with(alloc, &numbers, round % 2 == 1, 4)?;
            assert!(rt;
                agrees_in_all(alloc, &net)?,
                "in round {round} times {times}"
            );
        }
    }
    Ok(())
}
