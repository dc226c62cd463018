ghost use Rattle.std.specs.Prelude.{◌≡◌, length};
ghost use Rattle.rc_instance.specs.Project.{activity_count};
ghost use Rattle.rc_instance.specs.Usage.{last_finish};
ghost use Rattle.rc_instance.specs.Schedule.{bookings_of, makespan};
ghost use Rattle.schedule_check.specs.Violation.{first_time_violation, first_violation};
ghost use Rattle.schedule_check.specs.Checking.{Answers};

use crate::check_fault::CheckFault;
use crate::early_starts::first_early;
use crate::naming::schedule_of;
use crate::over_capacity::first_over;
use crate::plan::Plan;
use rc_instance::{Instance, Schedule};
use std::alloc::Global;

/// The makespan of a plan that is a feasible schedule of an instance, in periods.
///
/// `Violated` tells the first violation in this order: over the placements, the first that names
/// an unknown activity or one that is named already; the least activity that is missing; the least
/// activity that starts before a direct predecessor ends, with its least such predecessor; the
/// least period, and then resource, of which more is used than there is. `Memory` may come at any
/// place. The precedence of the instance may have a cycle.
pub fn check(alloc: Global, instance: &Instance, plan: &Plan) -> Result<u64, CheckFault>
    ensures { Answers (first_violation instance.now plan.now)
        (λ m. m ≡ last_finish instance.now plan.now) result }
{
    let schedule = schedule_of(alloc, instance, plan)?;
    let makespan = check_times(alloc, instance, &schedule)?;
    Ok(makespan)
}

// The makespan of a schedule that keeps precedence and capacities.
fn check_times(alloc: Global, instance: &Instance, schedule: &Schedule) -> Result<u64, CheckFault>
    requires { length schedule.now ≡ activity_count instance.now }
    ensures { Answers (first_time_violation instance.now (bookings_of schedule.now))
        (λ m. m ≡ makespan instance.now schedule.now) result }
{
    if let Some(violation) = first_early(instance, schedule) {
        return Err(CheckFault::Violated(violation));
    }
    if let Some(violation) = first_over(alloc, instance, schedule)? {
        return Err(CheckFault::Violated(violation));
    }
    Ok(schedule.makespan(instance))
}
