ghost use Rattle.std.specs.Prelude.{◌≡◌, ◌≤◌, IfOk, IfErr, OnOk};
ghost use Rattle.rc_instance.specs.Misfit.{HasNoMisfit};
ghost use Rattle.rc_instance.specs.Schedule.{IsFeasible, makespan, serial_schedule};
ghost use Rattle.serial_plain.specs.Fault.{IsFault};
ghost use Rattle.swap_descent.specs.Descent.{serial_makespan, descent};

use crate::rounds::repeat;
use activity_net::FeasibleList;
use event_line::Line;
use rc_instance::{Memory, Schedule};
use serial_plain::{SchemeFault, serial_on};
use std::alloc::Global;
use time_windows::Windows;

/// The list after so many rounds of descent by adjacent swaps, with its serial schedule.
///
/// A round exchanges the activities at the least position where the one does not directly precede
/// the next, and where the serial schedule of the list with these two exchanged is shorter. It ends
/// early where there is no such position. The schedule is never longer than that of the given list.
///
/// The list is refused, and dropped, with the first misfit of its instance, if it has one, and else
/// only for want of memory. All memory is taken before the first round.
pub fn descend<'n>(
    alloc: Global,
    list: FeasibleList<'n>,
    rounds: u32,
) -> Result<(FeasibleList<'n>, Schedule), SchemeFault>
    ensures list { IfOk result (λ found. found.0 ≡ record list.entry {
      order = descent list.entry.network.project rounds list.entry.order;
    }) }
    ensures schedule { IfOk result (λ found. found.1 ≡ serial_schedule list.entry.network.project
        (descent list.entry.network.project rounds list.entry.order)) }
    ensures feasible { IfOk result (λ found. IsFeasible list.entry.network.project found.1) }
    ensures shorter { IfOk result (λ found. makespan list.entry.network.project found.1
        ≤ serial_makespan list.entry.network.project list.entry.order) }
    ensures fits { OnOk result (HasNoMisfit list.entry.network.project) }
    ensures refused { IfErr result (IsFault list.entry.network.project) }
{
    list.net().instance().fits_all()?;
    Ok(descended(alloc, list, rounds)?)
}

// The same of a list whose instance has no misfit.
fn descended<'n>(
    alloc: Global,
    mut list: FeasibleList<'n>,
    rounds: u32,
) -> Result<(FeasibleList<'n>, Schedule), Memory>
    requires { HasNoMisfit list.network.project }
    ensures list { IfOk result (λ found. found.0 ≡ record list.entry {
      order = descent list.entry.network.project rounds list.entry.order;
    }) }
    ensures schedule { IfOk result (λ found. found.1 ≡ serial_schedule list.entry.network.project
        (descent list.entry.network.project rounds list.entry.order)) }
    ensures feasible { IfOk result (λ found. IsFeasible list.entry.network.project found.1) }
    ensures shorter { IfOk result (λ found. makespan list.entry.network.project found.1
        ≤ serial_makespan list.entry.network.project list.entry.order) }
{
    let net = list.net();
    let instance = net.instance();
    let windows = Windows::of(alloc, net)?;
    let mut line = Line::new(alloc, instance)?;
    let mut starts = Schedule::zero(alloc, instance.count())?;
    serial_on(&list, &mut line, &mut starts);
    repeat(&mut list, &mut line, &mut starts, &windows, rounds);
    Ok((list, starts))
}
