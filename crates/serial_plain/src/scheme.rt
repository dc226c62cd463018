ghost use Rattle.std.specs.Prelude.{◌≡◌, ◌≤◌, IfOk, IfErr, OnOk};
ghost use Rattle.rc_instance.specs.Project.{horizon};
ghost use Rattle.rc_instance.specs.Misfit.{HasNoMisfit};
ghost use Rattle.rc_instance.specs.Schedule.{IsFeasible, makespan, serial_schedule};
ghost use Rattle.serial_plain.specs.Fault.{IsFault};

use crate::fault::SchemeFault;
use crate::on::serial_on;
use activity_net::FeasibleList;
use event_line::Line;
use rc_instance::{Memory, Schedule};
use std::alloc::Global;

/// The serial schedule of a feasible list: each activity of the order in turn, at its least start
/// (Kolisch 1996).
///
/// It is refused with the first misfit, if the instance has one, and else only for want of memory.
pub fn serial(alloc: Global, list: &FeasibleList<'_>) -> Result<Schedule, SchemeFault>
    ensures schedule { IfOk result (λ starts.
        starts ≡ serial_schedule list.now.network.project list.now.order) }
    ensures feasible { IfOk result (IsFeasible list.now.network.project) }
    ensures within { IfOk result (λ starts.
        makespan list.now.network.project starts ≤ horizon list.now.network.project) }
    ensures fits { OnOk result (HasNoMisfit list.now.network.project) }
    ensures refused { IfErr result (IsFault list.now.network.project) }
{
    list.net().instance().fits_all()?;
    Ok(booked(alloc, list)?)
}

// The serial schedule of a list whose instance has no misfit.
fn booked(alloc: Global, list: &FeasibleList<'_>) -> Result<Schedule, Memory>
    requires { HasNoMisfit list.now.network.project }
    ensures schedule { IfOk result (λ starts.
        starts ≡ serial_schedule list.now.network.project list.now.order) }
    ensures feasible { IfOk result (IsFeasible list.now.network.project) }
    ensures within { IfOk result (λ starts.
        makespan list.now.network.project starts ≤ horizon list.now.network.project) }
{
    let instance = list.net().instance();
    let mut line = Line::new(alloc, instance)?;
    let mut schedule = Schedule::zero(alloc, instance.count())?;
    serial_on(list, &mut line, &mut schedule);
    Ok(schedule)
}
