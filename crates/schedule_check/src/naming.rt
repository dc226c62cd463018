ghost use Rattle.std.specs.Prelude.{◌≡◌, ℕ, ◌≤◌, List, false, length, map, replicate, [], IfOk, IfNone};
ghost use Rattle.rc_instance.specs.declared.limits.TheConstants.{MAX_ACTIVITIES};
ghost use Rattle.rc_instance.specs.Lists.{numbers};
ghost use Rattle.rc_instance.specs.Project.{activity_count};
ghost use Rattle.rc_instance.specs.Usage.{Booking};
ghost use Rattle.rc_instance.specs.Schedule.{start_of};
ghost use Rattle.schedule_check.specs.Violation.{first_missing, first_name_violation, first_wrong_name, is_booked};
ghost use Rattle.schedule_check.specs.Checking.{Answers};
ghost use Rattle.schedule_check.specs.Laws.{starts_of};

use crate::check_fault::CheckFault;
use crate::placement::Placement;
use crate::plan::Plan;
use crate::violation::Violation;
use rc_instance::{Instance, Memory, Schedule};
use std::alloc::Global;

/// The starts that a plan gives, where it names each activity once and nothing else.
pub(crate) fn schedule_of(
    alloc: Global,
    instance: &Instance,
    plan: &Plan,
) -> Result<Schedule, CheckFault>
    ensures { Answers (first_name_violation (activity_count instance.now) plan.now)
        (λ schedule. schedule ≡ starts_of instance.now plan.now) result }
{
    let count = instance.count();
    let mut schedule = Schedule::zero(alloc, count)?;
    let mut named = none_named(alloc, count)?;
    if let Some(violation) = first_name_violation(plan, &mut named, &mut schedule) {
        return Err(CheckFault::Violated(violation));
    }
    Ok(schedule)
}

// Of each of so many activities, that it is not named.
fn none_named(alloc: Global, count: u32) -> Result<Vec<bool>, Memory>
    ensures { IfOk result (λ named. named.items ≡ replicate count false) }
{
    Ok(vec![in alloc; false; count as usize]?)
}

// The first name that is wrong, or the least activity that is not named. Where there is neither,
// the starts are those of the plan.
fn first_name_violation(
    plan: &Plan,
    named: &mut [bool],
    schedule: &mut Schedule,
) -> Option<Violation>
    requires none { named.old ≡ replicate (length named.old) false }
    requires zero { schedule.old ≡ replicate (length named.old) 0 }
    requires short { length named.old ≤ MAX_ACTIVITIES }
    ensures violation { result ≡ first_name_violation (length named.old) plan.now }
    ensures starts { IfNone result (schedule.new
        ≡ map (start_of plan.now) (numbers (length named.old))) }
{
    if let Some(violation) = enter_all(plan, named, schedule) {
        return Some(violation);
    }
    first_missing(named)
}

// Enters each placement in turn: that its activity is named, and where it starts. It stops at the
// first that names an unknown activity, or one that is named already.
fn enter_all(plan: &Plan, named: &mut [bool], schedule: &mut Schedule) -> Option<Violation>
    requires none { named.old ≡ replicate (length named.old) false }
    requires zero { schedule.old ≡ replicate (length named.old) 0 }
    ensures violation { result ≡ first_wrong_name (length named.old) [] plan.now }
    ensures names { IfNone result (named.new
        ≡ map (is_booked plan.now) (numbers (length named.old))) }
    ensures starts { IfNone result (schedule.new
        ≡ map (start_of plan.now) (numbers (length named.old))) }
{
    for placement in plan.placements() {
        let Placement { activity, start } = *placement;
        let number = activity as usize;
        if number == 0 || number > named.len() {
            return Some(Violation::Unknown { activity });
        }
        if named[number - 1] {
            return Some(Violation::Twice { activity });
        }
        named[number - 1] = true;
        schedule.set(activity, start);
    }
    None
}

// The least activity that is not named.
fn first_missing(named: &[bool]) -> Option<Violation>
    requires { length named.now ≤ MAX_ACTIVITIES }
    ensures { (bookings : List Booking)
        → named.now ≡ map (is_booked bookings) (numbers (length named.now))
        → result ≡ first_missing (length named.now) bookings }
{
    for (place, is_named) in named.iter().enumerate() {
        if !*is_named {
            return Some(Violation::Missing {
                activity: place as u32 + 1,
            });
        }
    }
    None
}
