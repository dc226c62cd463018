ghost use Rattle.std.specs.Prelude.{◌≡◌, ◌≤◌, [], length};
ghost use Rattle.rc_instance.specs.declared.limits.TheConstants.{MAX_HORIZON};
ghost use Rattle.rc_instance.specs.Project.{activity_count};
ghost use Rattle.rc_instance.specs.Schedule.{IsFeasible, makespan};
ghost use Rattle.activity_net.specs.Tables.{Shows};
ghost use Rattle.fwd_back.specs.Backward.{backward};

use crate::next::{due, next_moved};
use activity_net::FeasibleList;
use event_line::Line;
use rc_instance::Schedule;

/// The backward pass: writes the latest start to which each activity of a schedule moves, within its
/// makespan, on a line that is cleared first. It takes no memory.
///
/// There is a mark and a start for each activity. The list is any one of the net: its order shows
/// that some activity may move as long as one is left.
pub(crate) fn move_back(
    list: &FeasibleList<'_>,
    present: &Schedule,
    line: &mut Line<'_>,
    marks: &mut [bool],
    starts: &mut [u32],
)
    requires project { line.old.project ≡ list.now.network.project }
    requires feasible { IsFeasible list.now.network.project present.now }
    requires within { makespan list.now.network.project present.now ≤ MAX_HORIZON }
    requires marks { length marks.old ≡ activity_count list.now.network.project }
    requires starts { length starts.old ≡ activity_count list.now.network.project }
    ensures project { line.new.project ≡ line.old.project }
    ensures backward { starts.new ≡ backward list.now.network.project present.now }
{
    let end = present.makespan(list.net().instance()) as u32;
    line.clear();
    unmark(marks);
    while let Some(activity) = next_moved(line, marks, present) {
        let by = due(line, starts, activity, end);
        starts[activity as usize - 1] = line.place_last(activity, by);
        marks[activity as usize - 1] = true;
    }
}

// Takes each mark away.
fn unmark(marks: &mut [bool])
    ensures { Shows (length marks.old) marks.new [] }
{
    for mark in marks {
        *mark = false;
    }
}
