ghost use Rattle.std.specs.Prelude.{◌≡◌, ℕ, min, ◌-◌, ◌≤◌, false, length, slice_index_or, All, IfSome, IfNone};
ghost use Rattle.std.specs.List.{fold, list_all};
ghost use Rattle.rc_instance.specs.declared.limits.TheConstants.{MAX_HORIZON};
ghost use Rattle.rc_instance.specs.Lists.{IsUpTo};
ghost use Rattle.rc_instance.specs.Project.{IsActivity, activity_count, successors_of};
ghost use Rattle.rc_instance.specs.Schedule.{makespan, start_at};
ghost use Rattle.activity_net.specs.Tables.{Shows};
ghost use Rattle.fwd_back.specs.Backward.{activities_of, may_move};
ghost use Rattle.fwd_back.specs.Moving.{IsNextMoved, NoneMoves};

use event_line::Line;
use rc_instance::Schedule;

/// Of the activities that may move next, the one that ends last in a schedule, and of equal ones
/// that of greatest number. Those that are booked have moved, and the marks tell which they are.
pub(crate) fn next_moved(line: &Line<'_>, marks: &[bool], present: &Schedule) -> Option<u32>
    requires marks { Shows (activity_count line.now.project) marks.now
        (activities_of line.now.bookings) }
    requires count { length present.now ≡ activity_count line.now.project }
    requires within { makespan line.now.project present.now ≤ MAX_HORIZON }
    ensures some { IfSome result (IsNextMoved line.now.project present.now
        (activities_of line.now.bookings) (activity_count line.now.project)) }
    ensures none { IfNone result (NoneMoves line.now.project (activities_of line.now.bookings)
        (activity_count line.now.project)) }
{
    let instance = line.instance();
    let mut next = None;
    let mut end = 0;
    for activity in 1..instance.count() + 1 {
        if may_move(line, marks, activity) {
            let finish = present.start(activity) + instance.duration(activity);
            if end <= finish {
                next = Some(activity);
                end = finish;
            }
        }
    }
    next
}

// Whether an activity may move next: it has not moved, and all its direct successors have.
fn may_move(line: &Line<'_>, marks: &[bool], activity: u32) -> bool
    requires activity { IsActivity line.now.project activity }
    requires marks { Shows (activity_count line.now.project) marks.now
        (activities_of line.now.bookings) }
    ensures { result ≡ may_move line.now.project (activities_of line.now.bookings) activity }
{
    !marks[activity as usize - 1] && are_marked(line.instance().successors(activity), marks)
}

// Whether each of these activities has a mark.
fn are_marked(activities: &[u32], marks: &[bool]) -> bool
    requires { All (IsUpTo (length marks.now)) activities.now }
    ensures { result ≡ list_all (λ a. slice_index_or marks.now (a - 1) false) activities.now }
{
    activities.iter().all(|a| marks[*a as usize - 1])
}

/// The period by which an activity has to end: the least of an end and the starts of its direct
/// successors, in periods.
pub(crate) fn due(line: &Line<'_>, starts: &[u32], activity: u32, end: u32) -> u32
    requires activity { IsActivity line.now.project activity }
    requires starts { length starts.now ≡ activity_count line.now.project }
    ensures { result ≡ fold (λ by b. min by (start_at starts.now b)) end
        (successors_of line.now.project activity) }
{
    least_start(line.instance().successors(activity), starts, end)
}

// The least of an end and the starts of these activities.
#[tactic(auto, unfolding(rc_instance::specs::Schedule::start_at))]
fn least_start(activities: &[u32], starts: &[u32], end: u32) -> u32
    requires { All (IsUpTo (length starts.now)) activities.now }
    ensures { result ≡ fold (λ by a. min by (start_at starts.now a)) end activities.now }
{
    activities
        .iter()
        .fold(end, |by, a| by.min(starts[*a as usize - 1]))
}
