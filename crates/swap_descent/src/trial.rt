ghost use Rattle.std.specs.Prelude.{◌≡◌, ◌+◌, ◌<◌, ◌≤◌, length, nat_lt, if◌then◌else◌};
ghost use Rattle.swap_descent.specs.Descent.{swapped, serial_makespan, improves};
ghost use Rattle.swap_descent.specs.Placed.{IsPlaced, IsBelow};

use crate::placing::{book, length_of, undo_to};
use activity_net::FeasibleList;
use event_line::Line;
use rc_instance::Schedule;
use time_windows::Windows;

// Exchanges the activity at a position with the next one where this improves the list, whose
// makespan is the limit. What is booked goes up to the position, or else up to the end of the list.
pub(crate) fn try_swap(
    list: &mut FeasibleList<'_>,
    line: &mut Line<'_>,
    starts: &mut Schedule,
    windows: &Windows<'_>,
    position: u32,
    limit: u64,
) -> bool
    requires position { position + 1 < length list.old.order }
    requires windows { windows.now ≡ list.old.network }
    requires placed { IsPlaced list.old position line.old starts.old }
    requires below { IsBelow list.old.network.project list.old.order position limit }
    requires limit { limit ≡ serial_makespan list.old.network.project list.old.order }
    ensures told { result ≡ improves list.old.network.project list.old.order position }
    ensures list { list.new ≡ (if result
        then record list.old { order = swapped list.old.order position } else list.old) }
    ensures placed { IsPlaced list.new (if result then length list.new.order else position)
        line.new starts.new }
{
    if !list.swap_at(position) {
        return false;
    }
    if attempt(list, line, starts, windows, position, limit) {
        return true;
    }
    list.swap_at(position);
    false
}

// Books the activities from a position on where the makespan is below a limit. As soon as it can not
// be, their bookings are taken back.
fn attempt(
    list: &FeasibleList<'_>,
    line: &mut Line<'_>,
    starts: &mut Schedule,
    windows: &Windows<'_>,
    from: u32,
    limit: u64,
) -> bool
    requires from { from ≤ length list.now.order }
    requires windows { windows.now ≡ list.now.network }
    requires placed { IsPlaced list.now from line.old starts.old }
    requires below { IsBelow list.now.network.project list.now.order from limit }
    ensures told { result
        ≡ nat_lt (serial_makespan list.now.network.project list.now.order) limit }
    ensures placed { IsPlaced list.now (if result then length list.now.order else from)
        line.new starts.new }
{
    let count = length_of(list);
    for position in from..count {
        if !book(list, line, starts, windows, position, limit) {
            undo_to(line, from);
            return false;
        }
    }
    true
}
