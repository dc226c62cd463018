ghost use Rattle.std.specs.Prelude.{◌≡◌, ℕ, ◌+◌, ◌*◌, ◌<◌, ◌≤◌, ◌^◌, length, map, List, None, IfOk, IfErr, All};
ghost use Rattle.std.specs.List.{sum};
ghost use Rattle.rc_instance.specs.Lists.{IsUpTo};
ghost use Rattle.rc_instance.specs.Results.{RefusesOr};
ghost use Rattle.rc_instance.specs.Parts.{made_of, first_fault_of, large_capacity, wild_successor, wild_successor_of, long_sum, named_up_to};
ghost use Rattle.rc_instance.specs.declared.limits.TheConstants.{MAX_ACTIVITIES, MAX_RESOURCES, MAX_DURATION_SUM};

use crate::instance::Instance;
use crate::limits::{MAX_ACTIVITIES, MAX_CAPACITY, MAX_DURATION_SUM, MAX_RESOURCES};
use crate::parts::{InstanceFault, Parts};
use std::alloc::Global;

impl Instance {
    /// The instance of these parts, without a calendar.
    ///
    /// Each successor list is sorted, and a repeated successor counts once. A fault is the first limit that the parts
    /// pass, in the order of `InstanceFault`; `Memory` may come at any place. Refused parts are dropped.
    pub fn build(alloc: Global, parts: Parts) -> Result<Instance, InstanceFault>
        requires successors { length parts.successors.items ≡ length parts.durations.items }
        requires demands { length parts.demands.items
            ≡ length parts.durations.items * length parts.capacities.items }
        ensures made { IfOk result (λ instance. instance ≡ made_of parts) }
        ensures accepted { IfOk result (λ _. first_fault_of parts ≡ None) }
        ensures refused { IfErr result (RefusesOr InstanceFault.Memory (first_fault_of parts)) }
    {
        if let Some(fault) = first_fault(&parts) {
            return Err(fault);
        }
        let Parts {
            capacities,
            durations,
            demands,
            mut successors,
        } = parts;
        sort_all(durations.len() as u32, &mut successors);
        Ok(Instance {
            capacities,
            durations,
            demands,
            successors,
            changes: Vec::new(alloc),
        })
    }
}

// The first limit that the parts pass.
#[tactic(auto, unfolding(crate::specs::Parts::first_fault))]
fn first_fault(parts: &Parts) -> Option<InstanceFault>
    requires { length parts.now.successors.items ≡ length parts.now.durations.items }
    ensures { result ≡ first_fault_of parts.now }
{
    let count = parts.durations.len();
    if count == 0 {
        return Some(InstanceFault::NoActivity);
    }
    if count > MAX_ACTIVITIES as usize {
        return Some(InstanceFault::TooManyActivities {
            count: count as u64,
        });
    }
    let resources = parts.capacities.len();
    if resources > MAX_RESOURCES as usize {
        return Some(InstanceFault::TooManyResources {
            count: resources as u64,
        });
    }
    let fault = large_capacity(&parts.capacities);
    if fault.is_some() {
        return fault;
    }
    let fault = wild_successor(count as u32, &parts.successors);
    if fault.is_some() {
        return fault;
    }
    long_sum(&parts.durations)
}

#[tactic(auto, unfolding(crate::specs::Parts::large_capacity))]
// The least resource whose capacity is above the limit.
fn large_capacity(capacities: &[u32]) -> Option<InstanceFault>
    requires { length capacities.now ≤ MAX_RESOURCES }
    ensures { result ≡ large_capacity 1 capacities.now }
{
    for (i, capacity) in capacities.iter().enumerate() {
        if *capacity > MAX_CAPACITY {
            return Some(InstanceFault::CapacityTooLarge {
                resource: i as u32 + 1,
                capacity: *capacity,
            });
        }
    }
    None
}

#[tactic(auto, unfolding(crate::specs::Parts::wild_successor))]
// The least activity with a successor out of range, and the first such entry of its list.
fn wild_successor(count: u32, successors: &[Vec<u32>]) -> Option<InstanceFault>
    requires { length successors.now ≤ MAX_ACTIVITIES }
    ensures { result ≡ wild_successor count 1 (map (λ list. list.items) successors.now) }
{
    for (i, list) in successors.iter().enumerate() {
        let fault = wild_successor_of(count, i as u32 + 1, list);
        if fault.is_some() {
            return fault;
        }
    }
    None
}

// The first successor of an activity that is no number from 1 to the count.
fn wild_successor_of(count: u32, activity: u32, successors: &[u32]) -> Option<InstanceFault>
    ensures { result ≡ wild_successor_of count activity successors.now }
{
    for b in successors {
        if *b == 0 || *b > count {
            return Some(InstanceFault::SuccessorOutOfRange {
                activity,
                successor: *b,
            });
        }
    }
    None
}

// The sum of the durations, where it is above the limit.
fn long_sum(durations: &[u32]) -> Option<InstanceFault>
    requires { length durations.now ≤ MAX_ACTIVITIES }
    ensures { result ≡ long_sum durations.now }
{
    let sum = durations.iter().map(|d| u64::from(*d)).sum::<u64>();
    if sum > u64::from(MAX_DURATION_SUM) {
        Some(InstanceFault::TooLong { sum })
    } else {
        None
    }
}

// Sorts each list, and drops what it repeats.
fn sort_all(count: u32, lists: &mut [Vec<u32>])
    requires { All (λ list. All (IsUpTo count) list.items) lists.old }
    ensures { map (λ list. list.items) lists.new
        ≡ map (named_up_to count) (map (λ list. list.items) lists.old) }
{
    for list in lists.iter_mut() {
        sort_one(count, list);
    }
}

// Sorts a list of numbers up to the count, and drops what it repeats.
fn sort_one(count: u32, list: &mut Vec<u32>)
    requires { All (IsUpTo count) list.old.items }
    ensures { list.new.items ≡ named_up_to count list.old.items }
{
    list.sort_unstable();
    list.dedup();
}
