use activity_net::FeasibleList;
use event_line::Line;
use rc_instance::Schedule;
use serial_plain::{serial, serial_on};
use std::alloc::Global;

/// So many serial schedules on one line.
pub(crate) fn on_line(alloc: Global, list: &FeasibleList<'_>, rounds: u32) -> Option<u64> {
    let instance = list.net().instance();
    if let Err(_) = instance.fits_all() {
        return None;
    }
    let Ok(mut line) = Line::new(alloc, instance) else {
        return None;
    };
    let Ok(mut schedule) = Schedule::zero(alloc, instance.count()) else {
        return None;
    };
    for _ in 0..rounds {
        line.clear();
        serial_on(list, &mut line, &mut schedule);
    }
    Some(u64::from(rounds))
}

/// So many serial schedules, each on a line of its own.
pub(crate) fn on_fresh_lines(alloc: Global, list: &FeasibleList<'_>, rounds: u32) -> Option<u64> {
    for _ in 0..rounds {
        serial(alloc, list).ok()?;
    }
    Some(u64::from(rounds))
}
