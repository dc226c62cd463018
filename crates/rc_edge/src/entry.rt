ghost use Rattle.std.specs.Prelude.{◌≡◌, ◌+◌, ◌≤◌, IfOk};
ghost use Rattle.rc_instance.specs.declared.limits.TheConstants.{MAX_DURATION_SUM};
ghost use Rattle.rc_edge.specs.Entries.{activity_count, resource_count, capacity, duration, successor};

use crate::text_fault::{TextFault, TextKind};
use crate::text_number::{Number, refuse_if};
use rc_instance::InstanceFault;
use rc_instance::limits::{MAX_ACTIVITIES, MAX_CAPACITY, MAX_DURATION_SUM, MAX_RESOURCES};

/// The number of activities: `NoActivity` where it is 0, `TooManyActivities` where it is above 1,000.
#[tactic(auto, unfolding(crate::specs::Entries::activity_count))]
pub fn activity_count(number: Number) -> Result<u32, TextFault>
    ensures { result ≡ activity_count number }
{
    let Number { value, at } = number;
    let none = TextKind::Instance(InstanceFault::NoActivity);
    let many = TextKind::Instance(InstanceFault::TooManyActivities {
        count: u64::from(value),
    });
    refuse_if(value == 0, none, at)?;
    refuse_if(value > MAX_ACTIVITIES, many, at)?;
    Ok(value)
}

/// The number of resources: `TooManyResources` where it is above 16.
#[tactic(auto, unfolding(crate::specs::Entries::resource_count))]
pub fn resource_count(number: Number) -> Result<u32, TextFault>
    ensures { result ≡ resource_count number }
{
    let Number { value, at } = number;
    let many = TextKind::Instance(InstanceFault::TooManyResources {
        count: u64::from(value),
    });
    refuse_if(value > MAX_RESOURCES, many, at)?;
    Ok(value)
}

/// The capacity of a resource: `CapacityTooLarge` where it is above 65,535.
#[tactic(auto, unfolding(crate::specs::Entries::capacity))]
pub fn capacity(resource: u32, number: Number) -> Result<u32, TextFault>
    ensures { result ≡ capacity resource number }
{
    let Number { value, at } = number;
    let large = TextKind::Instance(InstanceFault::CapacityTooLarge {
        resource,
        capacity: value,
    });
    refuse_if(value > MAX_CAPACITY, large, at)?;
    Ok(value)
}

/// The duration of an activity, in periods: `TooLong` where the sum with those before it is above 65,535.
#[tactic(auto, unfolding(crate::specs::Entries::duration))]
pub fn duration(before: u32, number: Number) -> Result<u32, TextFault>
    ensures value { result ≡ duration before number }
    ensures short { IfOk result (λ d. before + d ≤ MAX_DURATION_SUM) }
{
    let Number { value, at } = number;
    let sum = u64::from(before) + u64::from(value);
    let long = TextKind::Instance(InstanceFault::TooLong { sum });
    refuse_if(sum > u64::from(MAX_DURATION_SUM), long, at)?;
    Ok(value)
}

/// A successor of an activity: `SuccessorOutOfRange` where it is 0 or above the number of activities.
#[tactic(auto, unfolding(crate::specs::Entries::successor))]
pub fn successor(count: u32, activity: u32, number: Number) -> Result<u32, TextFault>
    ensures { result ≡ successor count activity number }
{
    let Number { value, at } = number;
    let wild = TextKind::Instance(InstanceFault::SuccessorOutOfRange {
        activity,
        successor: value,
    });
    refuse_if(value == 0 || value > count, wild, at)?;
    Ok(value)
}
