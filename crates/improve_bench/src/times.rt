ghost use Rattle.std.specs.Prelude.{◌≤◌};
ghost use Rattle.rc_instance.specs.declared.limits.TheConstants.{MAX_HORIZON};
ghost use Rattle.rc_instance.specs.Misfit.{HasNoMisfit};
ghost use Rattle.rc_instance.specs.Schedule.{IsFeasible, makespan};

use activity_net::{FeasibleList, Net};
use event_line::Line;
use fwd_back::improve;
use rc_instance::Schedule;
use serial_plain::serial_on;
use std::alloc::Global;

/// A schedule and its improved one.
#[derive(Drop)]
pub(crate) struct Improvement {
    pub(crate) first: Schedule,
    pub(crate) better: Schedule,
}

/// The serial schedule of a list, and the improved one, made so many times and once more.
pub(crate) fn both(alloc: Global, list: &FeasibleList<'_>, times: u32) -> Option<Improvement> {
    let net = list.net();
    let instance = net.instance();
    if let Err(_) = instance.fits_all() {
        return None;
    }
    let Ok(mut line) = Line::new(alloc, instance) else {
        return None;
    };
    let Ok(mut first) = Schedule::zero(alloc, instance.count()) else {
        return None;
    };
    serial_on(list, &mut line, &mut first);
    let better = improved_times(alloc, net, &first, times)?;
    Some(Improvement { first, better })
}

// The improved schedule, made so many times and once more.
fn improved_times(alloc: Global, net: &Net, first: &Schedule, times: u32) -> Option<Schedule>
    requires fits { HasNoMisfit net.now.project }
    requires feasible { IsFeasible net.now.project first.now }
    requires within { makespan net.now.project first.now ≤ MAX_HORIZON }
{
    for _ in 0..times {
        improve(alloc, net, first).ok()?;
    }
    improve(alloc, net, first).ok()
}
