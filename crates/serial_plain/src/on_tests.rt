ghost use Rattle.std.specs.Prelude.{◌≡◌, ◌≤◌, length, IfOk};
ghost use Rattle.rc_instance.specs.Project.{IsResource, activity_count};

use super::*;
use crate::tests::{SIX, instance_of, with_pause};
use activity_net::{FeasibleList, Net};
use event_line::Line;
use rc_instance::{Change, Instance, Memory, Schedule};
use std::alloc::Global;
use std::test::*;

// The net of an instance without a cycle.
pub(crate) fn net_of(alloc: Global, instance: Instance) -> Result<Net, Fail> {
    Ok(Net::of(alloc, instance).ok().ok_or("no cycle")?)
}

// The list of an order that is feasible.
pub(crate) fn list_of<'n>(
    alloc: Global,
    net: &'n Net,
    order: &[u32],
) -> Result<FeasibleList<'n>, Fail> {
    Ok(
        FeasibleList::of(alloc, net, order)
            .ok()
            .ok_or("the order is feasible")?,
    )
}

// The schedule that the scheme gives a list on a line.
fn scheduled(alloc: Global, list: &FeasibleList<'_>) -> Result<Schedule, Fail>
    ensures { IfOk result (λ starts. length starts ≡ activity_count list.now.network.project) }
{
    let instance = list.net().instance();
    instance.fits_all()?;
    let mut line = Line::new(alloc, instance)?;
    let mut schedule = Schedule::zero(alloc, instance.count())?;
    serial_on(list, &mut line, &mut schedule);
    Ok(schedule)
}

// Whether a schedule has these starts.
pub(crate) fn has_starts(list: &FeasibleList<'_>, schedule: &Schedule, starts: &[u32]) -> bool
    requires { length schedule.now ≡ activity_count list.now.network.project }
{
    let mut same = starts.len() == schedule.count();
    for activity in 1..list.net().instance().count() + 1 {
        let start = starts.get(activity as usize - 1).copied();
        same = same && start == Some(schedule.start(activity));
    }
    same
}

// Whether the scheme on a line gives an order these starts.
fn gives(alloc: Global, net: &Net, order: &[u32], starts: &[u32]) -> Result<bool, Fail> {
    let list = list_of(alloc, net, order)?;
    let schedule = scheduled(alloc, &list)?;
    Ok(has_starts(&list, &schedule, starts))
}

// The same instance with this capacity of its first resource from period 5 on.
fn with_opening(alloc: Global, instance: Instance, capacity: u32) -> Result<Instance, Memory>
    requires resource { IsResource instance 1 }
    requires capacity { capacity ≤ 10 }
{
    let opening = Change {
        resource: 1,
        period: 5,
        capacity,
    };
    let changes = vec![in alloc; opening]?;
    Ok(instance.with_calendar(changes))
}

#[test]
fn starts_on_a_line_are_the_worked_ones(rt: HostRuntime) -> Result<(), Fail> {
    let alloc = rt.alloc();
    let by_number = [1, 2, 3, 4, 5, 6];
    let six = net_of(alloc, instance_of(alloc, &SIX)?)?;
    assert!(rt; gives(alloc, &six, &by_number, &[0, 0, 3, 3, 5, 6])?);
    assert!(rt;
        gives(alloc, &six, &[1, 3, 2, 4, 5, 6], &[0, 2, 0, 0, 5, 6])?,
        "fills a gap"
    );
    let paused = instance_of(alloc, &SIX)?;
    assert!(rt; paused.resources() == 1);
    let paused = net_of(alloc, with_pause(alloc, paused, 2)?)?;
    assert!(rt;
        gives(alloc, &paused, &by_number, &[0, 3, 6, 6, 8, 9])?,
        "waits for the pause"
    );
    let late = instance_of(alloc, &[1, 1, 0, 1, 1, 0])?;
    assert!(rt; late.resources() == 1);
    let late = net_of(alloc, with_opening(alloc, late, 1)?)?;
    assert!(rt; gives(alloc, &late, &[1], &[5])?, "waits for the opening");
    Ok(())
}

// Whether the last step, taken back and done again, gives the same start.
fn repeats(alloc: Global, list: &FeasibleList<'_>) -> Result<bool, Fail> {
    let instance = list.net().instance();
    instance.fits_all()?;
    let mut line = Line::new(alloc, instance)?;
    let mut schedule = Schedule::zero(alloc, instance.count())?;
    serial_on(list, &mut line, &mut schedule);
    let position = instance.count() - 1;
    let last = list.order()[position as usize];
    let start = schedule.start(last);
    line.undo();
    let answer = serial_step(list, &mut line, &mut schedule, position);
    Ok(answer == start && schedule.start(last) == start && line.count() == instance.count())
}

#[test]
fn a_step_is_taken_back_and_done_again(rt: HostRuntime) -> Result<(), Fail> {
    let alloc = rt.alloc();
    let net = net_of(alloc, instance_of(alloc, &SIX)?)?;
    for order in [[1, 2, 3, 4, 5, 6], [1, 3, 2, 4, 5, 6]] {
        assert!(rt; repeats(alloc, &list_of(alloc, &net, &order)?)?);
    }
    Ok(())
}
