ghost use Rattle.std.specs.Prelude.{◌≡◌, ◌≤◌, IfOk};
ghost use Rattle.rc_instance.specs.declared.limits.TheConstants.{MAX_HORIZON};
ghost use Rattle.rc_instance.specs.Misfit.{HasNoMisfit};
ghost use Rattle.rc_instance.specs.Project.{horizon};
ghost use Rattle.rc_instance.specs.Schedule.{makespan, serial_schedule, IsFeasible};

use activity_net::FeasibleList;
use book_table::{Book, Closed};
use event_line::Line;
use rc_edge::Gate;
use rc_instance::{Memory, Schedule};
use rcpsp_words::Workers;
use serial_plain::serial_on;
use std::alloc::Global;
use std::thread::Threads;
use worker_run::book_all;

/// The serial schedule of a list, of an instance without a misfit, booked by so many workers.
///
/// There are no more workers than activities: the others would find nothing to do.
pub(crate) fn serial_of<'n, R: Threads + Sync, G: Gate + Sync>(
    rt: &R,
    alloc: Global,
    list: &'n FeasibleList<'n>,
    workers: &Workers,
    gate: &G,
) -> Result<Schedule, Memory>
    requires { HasNoMisfit list.now.network.project }
    ensures starts { IfOk result (λ starts.
        starts ≡ serial_schedule list.entry.now.network.project list.entry.now.order) }
    ensures feasible { IfOk result (IsFeasible list.entry.now.network.project) }
    ensures within { IfOk result (λ starts.
        makespan list.entry.now.network.project starts
        ≤ horizon list.entry.now.network.project) }
    ensures short { IfOk result (λ starts.
        makespan list.entry.now.network.project starts ≤ MAX_HORIZON) }
{
    let activities = list.net().instance().count();
    let workers = workers.count().min(activities);
    let closed = booked(rt, alloc, list, workers, gate)?;
    Ok(schedule_in(list, closed))
}

/// The schedule in a closed book of this list, of an instance without a misfit.
pub(crate) fn schedule_in<'n>(list: &'n FeasibleList<'n>, closed: Closed<'n>) -> Schedule
    requires fits { HasNoMisfit list.now.network.project }
    requires listing { closed.listing ≡ list.now }
    ensures starts { result
        ≡ serial_schedule list.entry.now.network.project list.entry.now.order }
    ensures feasible { IsFeasible list.entry.now.network.project result }
    ensures within { makespan list.entry.now.network.project result
        ≤ horizon list.entry.now.network.project }
    ensures short { makespan list.entry.now.network.project result ≤ MAX_HORIZON }
{
    let _ = list.net().instance();
    closed.into_schedule()
}

// The book of a list, which so many workers have booked.
fn booked<'n, R: Threads + Sync, G: Gate + Sync>(
    rt: &R,
    alloc: Global,
    list: &'n FeasibleList<'n>,
    workers: u32,
    gate: &G,
) -> Result<Closed<'n>, Memory>
    requires fits { HasNoMisfit list.now.network.project }
    requires workers { (1 ≤ workers) × (workers ≤ 64) }
    ensures { IfOk result (λ closed. closed.listing ≡ list.entry.now) }
{
    let known = known_serial(alloc, list)?;
    let (book, passes) = Book::open(alloc, list, workers)?;
    Ok(book_all(rt, book, passes, &known, gate))
}

/// The serial schedule of a list, of an instance without a misfit, made on a line of events.
///
/// With it the workers need not search the start of a position that they book.
pub(crate) fn known_serial(alloc: Global, list: &FeasibleList<'_>) -> Result<Schedule, Memory>
    requires { HasNoMisfit list.now.network.project }
    ensures { IfOk result (λ starts.
        starts ≡ serial_schedule list.now.network.project list.now.order) }
{
    let instance = list.net().instance();
    let mut line = Line::new(alloc, instance)?;
    let mut schedule = Schedule::zero(alloc, instance.count())?;
    serial_on(list, &mut line, &mut schedule);
    Ok(schedule)
}
