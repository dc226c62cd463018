ghost use Rattle.std.specs.Prelude.{◌≡◌, ◌+◌, length};
ghost use Rattle.rc_instance.specs.Project.{activity_count, duration, precedes, IsActivity};
ghost use Rattle.rc_instance.specs.Schedule.{bookings_of, start_at};
ghost use Rattle.schedule_check.specs.Violation.{early_at, first_early, is_early};

use crate::violation::Violation;
use rc_instance::{Instance, Schedule};

/// The least activity that starts before a direct predecessor ends, with its least such
/// predecessor.
///
/// Each pair of activities is tried by time first, and by precedence only where that is too early.
#[tactic(auto, unfolding(crate::specs::Violation::first_early))]
pub(crate) fn first_early(instance: &Instance, schedule: &Schedule) -> Option<Violation>
    requires { length schedule.now ≡ activity_count instance.now }
    ensures { result ≡ first_early instance.now (bookings_of schedule.now) }
{
    for activity in 1..instance.count() + 1 {
        if let Some(violation) = early_at(instance, schedule, activity) {
            return Some(violation);
        }
    }
    None
}

// The violation of an activity with its least direct predecessor that ends after its start.
#[tactic(auto, unfolding(crate::specs::Violation::early_at))]
fn early_at(instance: &Instance, schedule: &Schedule, activity: u32) -> Option<Violation>
    requires count { length schedule.now ≡ activity_count instance.now }
    requires activity { IsActivity instance.now activity }
    ensures { result ≡ early_at instance.now (bookings_of schedule.now) activity }
{
    for predecessor in 1..instance.count() + 1 {
        if is_early(instance, schedule, activity, predecessor) {
            return Some(Violation::BeforePredecessor {
                activity,
                predecessor,
            });
        }
    }
    None
}

// Whether an activity starts before this activity ends, and is its direct successor.
#[tactic(auto, unfolding(crate::specs::Violation::is_early))]
fn is_early(instance: &Instance, schedule: &Schedule, activity: u32, predecessor: u32) -> bool
    requires count { length schedule.now ≡ activity_count instance.now }
    requires activity { IsActivity instance.now activity }
    requires predecessor { IsActivity instance.now predecessor }
    ensures { result ≡ is_early instance.now (bookings_of schedule.now) activity predecessor }
{
    u64::from(schedule.start(activity)) < finish_of(instance, schedule, predecessor)
        && precedes(instance, predecessor, activity)
}

// The first period in which an activity no longer runs.
pub(crate) fn finish_of(instance: &Instance, schedule: &Schedule, activity: u32) -> u64
    requires count { length schedule.now ≡ activity_count instance.now }
    requires activity { IsActivity instance.now activity }
    ensures { result ≡ start_at schedule.now activity + duration instance.now activity }
{
    u64::from(schedule.start(activity)) + u64::from(instance.duration(activity))
}

// Whether an activity is a direct predecessor of another.
#[tactic(auto, unfolding(rc_instance::specs::Project::precedes))]
fn precedes(instance: &Instance, before: u32, after: u32) -> bool
    requires { IsActivity instance.now before }
    ensures { result ≡ precedes instance.now before after }
{
    instance.successors(before).binary_search(&after).is_ok()
}
