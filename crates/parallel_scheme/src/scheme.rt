ghost use Rattle.std.specs.Prelude.{◌≡◌, ℕ, ◌+◌, ◌<◌, ◌≤◌, [], length, take, slice_index, IfOk, IfErr, OnOk};
ghost use Rattle.rc_instance.specs.declared.limits.TheConstants.{MAX_HORIZON};
ghost use Rattle.rc_instance.specs.Project.{IsActivity, horizon};
ghost use Rattle.rc_instance.specs.Calendar.{IsWithinLimits};
ghost use Rattle.rc_instance.specs.Misfit.{HasNoMisfit};
ghost use Rattle.rc_instance.specs.Schedule.{IsFeasible, makespan};
ghost use Rattle.serial_plain.specs.Fault.{IsFault};
ghost use Rattle.parallel_scheme.specs.Parallel.{booked_before, parallel_schedule};
ghost use Rattle.parallel_scheme.specs.NonDelay.{IsNonDelay};
ghost use Rattle.parallel_scheme.specs.Passing.{IsReached, IsTold, IsVisited};

use crate::progress::Progress;
use activity_net::{FeasibleList, Net};
use event_line::Line;
use rc_instance::{Memory, Schedule};
use serial_plain::SchemeFault;
use std::alloc::Global;

/// The parallel schedule of a feasible list: in each period, from 0 on, the first of the list that
/// can start is booked, as long as there is one (Kolisch 1996). Each activity starts once its direct
/// predecessors have ended and it fits.
///
/// It is refused with the first misfit, if the instance has one, and else only for want of memory.
pub fn parallel(alloc: Global, list: &FeasibleList<'_>) -> Result<Schedule, SchemeFault>
    ensures schedule { IfOk result (λ starts.
        starts ≡ parallel_schedule list.now.network.project list.now.order) }
    ensures feasible { IfOk result (IsFeasible list.now.network.project) }
    ensures within { IfOk result (λ starts.
        makespan list.now.network.project starts ≤ horizon list.now.network.project) }
    ensures short { IfOk result (λ starts.
        makespan list.now.network.project starts ≤ MAX_HORIZON) }
    ensures non_delay { IfOk result (IsNonDelay list.now.network.project) }
    ensures fits { OnOk result (HasNoMisfit list.now.network.project) }
    ensures refused { IfErr result (IsFault list.now.network.project) }
{
    list.net().instance().fits_all()?;
    Ok(booked(alloc, list)?)
}

// The parallel schedule of a list whose instance has no misfit. It goes on to the least period in
// which something that waits may start, and passes over the others.
fn booked(alloc: Global, list: &FeasibleList<'_>) -> Result<Schedule, Memory>
    requires { HasNoMisfit list.now.network.project }
    ensures schedule { IfOk result (λ starts.
        starts ≡ parallel_schedule list.now.network.project list.now.order) }
    ensures feasible { IfOk result (IsFeasible list.now.network.project) }
    ensures within { IfOk result (λ starts.
        makespan list.now.network.project starts ≤ horizon list.now.network.project) }
    ensures short { IfOk result (λ starts.
        makespan list.now.network.project starts ≤ MAX_HORIZON) }
    ensures non_delay { IfOk result (IsNonDelay list.now.network.project) }
{
    let instance = list.net().instance();
    let mut line = Line::new(alloc, instance)?;
    let mut progress = Progress::new(alloc, instance)?;
    let mut time: u32 = 0;
    while time < progress.end {
        time = pass(list, &mut line, &mut progress, time);
    }
    Ok(progress.starts)
}

// Books in a period all that can start there, and answers the next period in which something may.
fn pass(list: &FeasibleList<'_>, line: &mut Line<'_>, progress: &mut Progress, time: u32) -> u32
    requires limits { IsWithinLimits list.now.network.project }
    requires fits { HasNoMisfit list.now.network.project }
    requires project { line.old.project ≡ list.now.network.project }
    requires before { line.old.bookings
        ≡ booked_before list.now.network.project list.now.order time }
    requires time { time ≤ horizon list.now.network.project }
    requires told { IsTold list.now.network.project time line.old.bookings progress.old }
    ensures rises { time < result }
    ensures within { result ≤ horizon list.now.network.project + 1 }
    ensures booked { line.new ≡ record line.old {
      bookings = booked_before list.now.network.project list.now.order result;
    } }
    ensures told { IsTold list.now.network.project result line.new.bookings progress.new }
{
    let net = list.net();
    let order = list.order();
    let mut next: u32 = progress.end;
    for activity in order {
        next = next.min(visit(net, line, progress, *activity, time));
    }
    next
}

// Books an activity in a period, if it can start there, and answers a period before which it can not
// start any more: the end, where it is booked or waits for one that is not.
fn visit(net: &Net, line: &mut Line<'_>, progress: &mut Progress, activity: u32, time: u32) -> u32
    requires activity { IsActivity net.now.project activity }
    requires limits { IsWithinLimits net.now.project }
    requires fits { HasNoMisfit net.now.project }
    requires project { line.old.project ≡ net.now.project }
    requires reached { IsReached net.now.project line.old.bookings time }
    requires time { time ≤ horizon net.now.project }
    requires told { IsTold net.now.project time line.old.bookings progress.old }
    ensures project { line.new.project ≡ line.old.project }
    ensures visited { IsVisited net.now.project time activity line.old.bookings
        line.new.bookings result }
    ensures told { IsTold net.now.project time line.new.bookings progress.new }
{
    let Some(floor) = progress.floor_of(net, activity) else {
        return progress.end;
    };
    if time < floor {
        return floor;
    }
    let start = line.place(activity, time);
    if time < start {
        line.undo();
        progress.floors[activity as usize - 1] = start;
        return start;
    }
    progress.booked[activity as usize - 1] = true;
    progress.starts.set(activity, time);
    progress.end
}
