ghost use Rattle.std.specs.Prelude.{◌≡◌, ◌≤◌, length, IfOk};
ghost use Rattle.rc_instance.specs.declared.limits.TheConstants.{MAX_ACTIVITIES, MAX_HORIZON};
ghost use Rattle.rc_instance.specs.Misfit.{HasNoMisfit};
ghost use Rattle.rc_instance.specs.Schedule.{IsFeasible, makespan};
ghost use Rattle.fwd_back.specs.Improved.{improved};

use crate::passes::Passes;
use activity_net::Net;
use rc_instance::{Memory, Schedule};
use std::alloc::Global;
use std::mem;

/// The improved schedule of a feasible one of an instance without a misfit: backward and forward
/// passes as long as the makespan falls (after Li and Willis 1992).
///
/// The makespan is at most the greatest horizon. All memory is taken before the first pass: it is
/// refused only where there is not so much.
pub fn improve(alloc: Global, net: &Net, from: &Schedule) -> Result<Schedule, Memory>
    requires fits { HasNoMisfit net.now.project }
    requires feasible { IsFeasible net.now.project from.now }
    requires within { makespan net.now.project from.now ≤ MAX_HORIZON }
    ensures improved { IfOk result (λ better. better ≡ improved net.now.project from.now) }
    ensures feasible { IfOk result (IsFeasible net.now.project) }
    ensures shorter { IfOk result (λ better. makespan net.now.project better
        ≤ makespan net.now.project from.now) }
{
    let instance = net.instance();
    let mut present = copy_of(alloc, from, instance.count())?;
    let mut next = Schedule::zero(alloc, instance.count())?;
    let mut passes = Passes::new(alloc, net)?;
    'rounds: loop {
        passes.run(&present, &mut next);
        if next.makespan(instance) >= present.makespan(instance) {
            return Ok(present);
        }
        mem::swap(&mut present, &mut next);
    }
}

// A schedule of so many activities with the same starts.
fn copy_of(alloc: Global, schedule: &Schedule, count: u32) -> Result<Schedule, Memory>
    requires few { count ≤ MAX_ACTIVITIES }
    requires count { length schedule.now ≡ count }
    ensures { IfOk result (λ copy. copy ≡ schedule.now) }
{
    let mut copy = Schedule::zero(alloc, count)?;
    for activity in 1..count + 1 {
        copy.set(activity, schedule.start(activity));
    }
    Ok(copy)
}
