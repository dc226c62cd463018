// What a whole run is compared with.
ghost use Rattle.std.specs.Prelude.{◌≤◌};
ghost use Rattle.rc_instance.specs.Project.{horizon};
ghost use Rattle.rc_instance.specs.Schedule.{IsFeasible, makespan};

use activity_net::Net;
use gantt_table::table;
use priority_rules::list_by_number;
use rc_instance::Schedule;
use serial_plain::serial;
use std::alloc::Global;
use swap_descent::descend;

/// The table of the serial schedule of the list by number, which is made on a line.
pub(crate) fn table_on_line(alloc: Global, net: &Net) -> Option<Vec<u8>> {
    let Ok(list) = list_by_number(alloc, net) else {
        return None;
    };
    let Ok(schedule) = serial(alloc, &list) else {
        return None;
    };
    shown(alloc, net, &schedule)
}

// The table of a schedule.
fn shown(alloc: Global, net: &Net, schedule: &Schedule) -> Option<Vec<u8>>
    requires feasible { IsFeasible net.now.project schedule.now }
    requires within { makespan net.now.project schedule.now ≤ horizon net.now.project }
{
    let instance = net.instance();
    table(alloc, instance, schedule).ok()
}

/// The makespan after so many rounds of descent from the list by number.
pub(crate) fn descended(alloc: Global, net: &Net, rounds: u32) -> Option<u64> {
    let Ok(list) = list_by_number(alloc, net) else {
        return None;
    };
    let Ok((_, schedule)) = descend(alloc, list, rounds) else {
        return None;
    };
    Some(schedule.makespan(net.instance()))
}
