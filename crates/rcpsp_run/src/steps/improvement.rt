ghost use Rattle.std.specs.Prelude.{◌≡◌, ◌≤◌, IfOk};
ghost use Rattle.rc_instance.specs.declared.limits.TheConstants.{MAX_HORIZON};
ghost use Rattle.rc_instance.specs.Misfit.{HasNoMisfit};
ghost use Rattle.rc_instance.specs.Schedule.{makespan, IsFeasible};
ghost use Rattle.rcpsp_run.specs.Steps.Improvement.{improved_if};

use activity_net::Net;
use fwd_back::improve;
use rc_instance::{Memory, Schedule};
use std::alloc::Global;

/// The improved schedule, where that is asked for, or else the schedule itself.
pub(crate) fn improved_if(
    alloc: Global,
    asked: bool,
    net: &Net,
    schedule: Schedule,
) -> Result<Schedule, Memory>
    requires fits { HasNoMisfit net.now.project }
    requires feasible { IsFeasible net.now.project schedule }
    requires short { makespan net.now.project schedule ≤ MAX_HORIZON }
    ensures starts { IfOk result (λ starts.
        starts ≡ improved_if asked net.now.project schedule) }
    ensures feasible { IfOk result (IsFeasible net.now.project) }
    ensures short { IfOk result (λ starts. makespan net.now.project starts ≤ MAX_HORIZON) }
{
    if asked {
        improve(alloc, net, &schedule)
    } else {
        Ok(schedule)
    }
}
