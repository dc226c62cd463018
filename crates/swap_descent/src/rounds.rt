ghost use Rattle.std.specs.Prelude.{◌≡◌, length};
ghost use Rattle.std.specs.Option.{is_some};
ghost use Rattle.rc_instance.specs.Schedule.{serial_schedule};
ghost use Rattle.swap_descent.specs.Descent.{first_swap, with_swap, descent};
ghost use Rattle.swap_descent.specs.Placed.{IsPlaced};

use crate::placing::{book, finish, length_of};
use crate::trial::try_swap;
use activity_net::FeasibleList;
use event_line::Line;
use rc_instance::Schedule;
use time_windows::Windows;

// So many rounds, or as many as make the list better. It takes no memory.
pub(crate) fn repeat(
    list: &mut FeasibleList<'_>,
    line: &mut Line<'_>,
    starts: &mut Schedule,
    windows: &Windows<'_>,
    rounds: u32,
)
    requires windows { windows.now ≡ list.old.network }
    requires placed { IsPlaced list.old (length list.old.order) line.old starts.old }
    ensures list { list.new ≡ record list.old {
      order = descent list.old.network.project rounds list.old.order;
    } }
    ensures schedule { starts.new ≡ serial_schedule list.old.network.project
        (descent list.old.network.project rounds list.old.order) }
{
    for done in 0..rounds {
        if !round(list, line, starts, windows) {
            return;
        }
    }
}

// One round: the first exchange that improves the list is made, if there is one. Once a start that
// is booked and its tail reach the makespan, no exchange at a later position improves.
fn round(
    list: &mut FeasibleList<'_>,
    line: &mut Line<'_>,
    starts: &mut Schedule,
    windows: &Windows<'_>,
) -> bool
    requires windows { windows.now ≡ list.old.network }
    requires placed { IsPlaced list.old (length list.old.order) line.old starts.old }
    ensures told { result ≡ is_some (first_swap list.old.network.project list.old.order) }
    ensures list { list.new ≡ record list.old {
      order = with_swap list.old.order (first_swap list.old.network.project list.old.order);
    } }
    ensures placed { IsPlaced list.new (length list.new.order) line.new starts.new }
{
    let count = length_of(list);
    let limit = starts.makespan(list.net().instance());
    line.clear();
    for position in 0..count - 1 {
        if try_swap(list, line, starts, windows, position, limit) {
            return true;
        }
        if !book(list, line, starts, windows, position, limit) {
            finish(list, line, starts, position + 1);
            return false;
        }
    }
    finish(list, line, starts, count - 1);
    false
}
