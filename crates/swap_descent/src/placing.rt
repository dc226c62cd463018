ghost use Rattle.std.specs.Prelude.{◌≡◌, ◌+◌, ◌<◌, ◌≤◌, length, take, nat_lt};
ghost use Rattle.rc_instance.specs.Calendar.{IsWithinLimits};
ghost use Rattle.rc_instance.specs.Order.{IsFeasibleList};
ghost use Rattle.swap_descent.specs.Placed.{IsPlaced, bound_at};

use activity_net::FeasibleList;
use event_line::Line;
use rc_instance::Schedule;
use serial_plain::serial_step;
use time_windows::Windows;

// How many activities a list has.
pub(crate) fn length_of(list: &FeasibleList<'_>) -> u32
    ensures length { result ≡ length list.now.order }
    ensures some { 1 ≤ result }
    ensures feasible { IsFeasibleList list.now.network.project list.now.order }
    ensures limits { IsWithinLimits list.now.network.project }
{
    list.net().instance().count()
}

// Books the activity at a position, and tells whether its start and its tail stay below a limit.
pub(crate) fn book(
    list: &FeasibleList<'_>,
    line: &mut Line<'_>,
    starts: &mut Schedule,
    windows: &Windows<'_>,
    position: u32,
    limit: u64,
) -> bool
    requires position { position < length list.now.order }
    requires windows { windows.now ≡ list.now.network }
    requires placed { IsPlaced list.now position line.old starts.old }
    ensures told { result ≡ nat_lt (bound_at list.now.network.project list.now.order position) limit }
    ensures placed { IsPlaced list.now (position + 1) line.new starts.new }
{
    let start = serial_step(list, line, starts, position);
    let tail = windows.tail(list.order()[position as usize]);
    u64::from(start) + u64::from(tail) < limit
}

// Books the activities from a position on.
pub(crate) fn finish(list: &FeasibleList<'_>, line: &mut Line<'_>, starts: &mut Schedule, from: u32)
    requires from { from ≤ length list.now.order }
    requires placed { IsPlaced list.now from line.old starts.old }
    ensures { IsPlaced list.now (length list.now.order) line.new starts.new }
{
    let count = length_of(list);
    for position in from..count {
        serial_step(list, line, starts, position);
    }
}

// Takes the newest bookings away until so many are left.
pub(crate) fn undo_to(line: &mut Line<'_>, left: u32)
    requires { left ≤ length line.old.bookings }
    ensures project { line.new.project ≡ line.old.project }
    ensures left { line.new.bookings ≡ take left line.old.bookings }
{
    'undoing: while left < line.count() {
        line.undo();
    }
}
