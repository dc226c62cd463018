ghost use Rattle.std.specs.Prelude.{◌≡◌, IfOk};
ghost use Rattle.gantt_table.specs.Windows.{window_text};

use activity_net::Net;
use rc_instance::Memory;
use std::alloc::Global;
use time_windows::Windows;

/// How many bytes a line of the table has at most.
const LINE: usize = 29;

/// The table of the time windows of a net: a head, for each activity its number, earliest and
/// latest start, and the critical length and the capacity bound.
///
/// All are in periods; activities stand right in 8 places, starts in 10. The only error is want of
/// memory.
pub fn window_table(alloc: Global, net: &Net, windows: &Windows) -> Result<Vec<u8>, Memory>
    requires { windows.now ≡ net.now }
    ensures { IfOk result (λ text. text.items ≡ window_text net.now.project) }
{
    let count = net.instance().count();
    let mut text = String::with_capacity(alloc, LINE * (count as usize + 3))?;
    text.push_str("activity  earliest    latest\n")?;
    for activity in 1..count + 1 {
        let earliest = windows.earliest(activity);
        let latest = windows.latest(activity);
        write!(text, "{activity:>8}{earliest:>10}{latest:>10}\n")?;
    }
    let critical = windows.critical();
    let capacity = windows.capacity_bound();
    write!(text, "critical {critical}\ncapacity {capacity}\n")?;
    Ok(text.into_bytes())
}
