ghost use Rattle.std.specs.Prelude.{◌≡◌, length, IfOk};
ghost use Rattle.rc_instance.specs.Lists.{first_of};
ghost use Rattle.rc_instance.specs.Project.{activity_count, IsActivity, IsResource};
ghost use Rattle.rc_instance.specs.Usage.{usage, use_of};
ghost use Rattle.rc_instance.specs.Schedule.{bookings_of, start_at};
ghost use Rattle.schedule_check.specs.Violation.{over_of, over_at, first_over};
ghost use Rattle.schedule_check.specs.Turning.{AreTurning};

use crate::early_starts::finish_of;
use crate::violation::Violation;
use rc_instance::{Instance, Memory, Schedule};
use std::alloc::Global;

/// The least period in which more of a resource is used than there is, with its least such
/// resource.
///
/// Usage rises only at starts, and a capacity falls only at a change, so no other period is tried.
pub(crate) fn first_over(
    alloc: Global,
    instance: &Instance,
    schedule: &Schedule,
) -> Result<Option<Violation>, Memory>
    requires { length schedule.now ≡ activity_count instance.now }
    ensures { IfOk result (λ first. first ≡ first_over instance.now (bookings_of schedule.now)) }
{
    let periods = turning_periods(alloc, instance, schedule)?;
    Ok(first_over_among(instance, schedule, &periods))
}

// The violation in the first of these periods that has one.
fn first_over_among(instance: &Instance, schedule: &Schedule, periods: &[u32]) -> Option<Violation>
    requires { length schedule.now ≡ activity_count instance.now }
    ensures { result ≡ first_of (over_at instance.now (bookings_of schedule.now)) periods.now }
{
    for period in periods {
        if let Some(violation) = over_at(instance, schedule, *period) {
            return Some(violation);
        }
    }
    None
}

// The violation in a period of its least resource of which more is used than there is.
#[tactic(auto, unfolding(crate::specs::Violation::over_at))]
fn over_at(instance: &Instance, schedule: &Schedule, period: u32) -> Option<Violation>
    requires { length schedule.now ≡ activity_count instance.now }
    ensures { result ≡ over_at instance.now (bookings_of schedule.now) period }
{
    for resource in 1..instance.resources() + 1 {
        if let Some(violation) = over_of(instance, schedule, period, resource) {
            return Some(violation);
        }
    }
    None
}

// The violation in a period of a resource of which more is used than there is.
#[tactic(auto, unfolding(crate::specs::Violation::over_of))]
fn over_of(
    instance: &Instance,
    schedule: &Schedule,
    period: u32,
    resource: u32,
) -> Option<Violation>
    requires count { length schedule.now ≡ activity_count instance.now }
    requires resource { IsResource instance.now resource }
    ensures { result ≡ over_of instance.now (bookings_of schedule.now) period resource }
{
    let used = usage(instance, schedule, resource, period);
    let capacity = instance.capacity_at(resource, period);
    if u64::from(capacity) < used {
        return Some(Violation::OverCapacity {
            resource,
            period: u64::from(period),
            used,
            capacity,
        });
    }
    None
}

// What all activities use of a resource in a period.
fn usage(instance: &Instance, schedule: &Schedule, resource: u32, period: u32) -> u64
    requires count { length schedule.now ≡ activity_count instance.now }
    requires resource { IsResource instance.now resource }
    ensures { result ≡ usage instance.now (bookings_of schedule.now) resource period }
{
    let mut used: u64 = 0;
    for activity in 1..instance.count() + 1 {
        used += u64::from(use_of(instance, schedule, activity, resource, period));
    }
    used
}

// What an activity uses of a resource in a period.
fn use_of(
    instance: &Instance,
    schedule: &Schedule,
    activity: u32,
    resource: u32,
    period: u32,
) -> u32
    requires count { length schedule.now ≡ activity_count instance.now }
    requires activity { IsActivity instance.now activity }
    requires resource { IsResource instance.now resource }
    ensures { result ≡ use_of instance.now resource period
        (record { activity = activity; start = start_at schedule.now activity }) }
{
    let finish = finish_of(instance, schedule, activity);
    if schedule.start(activity) <= period && u64::from(period) < finish {
        return instance.demand(activity, resource);
    }
    0
}

// The periods in which usage may rise or a capacity may fall, in rising order: the first, the
// starts, and those of the changes.
fn turning_periods(
    alloc: Global,
    instance: &Instance,
    schedule: &Schedule,
) -> Result<Vec<u32>, Memory>
    requires { length schedule.now ≡ activity_count instance.now }
    ensures { IfOk result (λ periods. AreTurning instance.now schedule.now periods.items) }
{
    let mut periods = Vec::new(alloc);
    periods.push(0)?;
    for activity in 1..instance.count() + 1 {
        periods.push(schedule.start(activity))?;
    }
    for index in 0..instance.change_count() {
        periods.push(instance.change(index).period)?;
    }
    periods.sort_unstable();
    periods.dedup();
    Ok(periods)
}
