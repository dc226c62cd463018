ghost use Rattle.std.specs.Prelude.{◌≡◌, ℕ, ◌+◌, ◌-◌, ◌<◌, ◌≤◌, List, [], length, take, slice_index, slice_set};
ghost use Rattle.std.specs.List.{All};
ghost use Rattle.rc_instance.specs.declared.limits.TheConstants.{MAX_HORIZON};
ghost use Rattle.rc_instance.specs.Project.{IsActivity, activity_count, horizon};
ghost use Rattle.rc_instance.specs.Misfit.{HasNoMisfit};
ghost use Rattle.rc_instance.specs.Serial.{serial_bookings, serial_start};
ghost use Rattle.rc_instance.specs.Schedule.{IsFeasible, makespan, serial_schedule};
ghost use Rattle.serial_plain.specs.Shown.{ShowsStarts, finish_at, last_finish_of};
ghost use Rattle.serial_plain.specs.Steps.{IsStepOf, IsNext, HasStepped};

use activity_net::{FeasibleList, Net};
use event_line::Line;
use rc_instance::{Instance, Schedule};

/// The serial schedule of a feasible list, booked on an empty line of its instance and written into
/// a schedule: each activity of the order in turn, at its least start (Kolisch 1996).
///
/// The instance has no misfit. It takes no memory.
pub fn serial_on(list: &FeasibleList<'_>, line: &mut Line<'_>, into: &mut Schedule)
    requires fits { HasNoMisfit list.now.network.project }
    requires project { line.old.project ≡ list.now.network.project }
    requires empty { line.old.bookings ≡ [] }
    requires count { length into.old ≡ activity_count list.now.network.project }
    ensures schedule { into.new ≡ serial_schedule list.now.network.project list.now.order }
    ensures booked { line.new ≡ record line.old {
      bookings = serial_bookings list.now.network.project list.now.order;
    } }
    ensures shown { ShowsStarts line.new.bookings into.new }
    ensures feasible { IsFeasible list.now.network.project into.new }
    ensures within { makespan list.now.network.project into.new
        ≤ horizon list.now.network.project }
{
    for position in 0..list.net().instance().count() {
        serial_step(list, line, into, position);
    }
}

/// The next step of the same: the activity at a position of the order, counted from 0, beside what
/// the scheme books of those before it. Only its start is written; it is the answer.
///
/// The schedule shows the starts of what is booked: the step takes the finishes of the predecessors
/// from it, since a line tells its bookings by age and not by activity.
// Always inlined: a program that steps at several places pays a twentieth of a sample for the calls.
#[inline(always)]
pub fn serial_step(
    list: &FeasibleList<'_>,
    line: &mut Line<'_>,
    into: &mut Schedule,
    position: u32,
) -> u32
    requires position { position < length list.now.order }
    requires fits { HasNoMisfit list.now.network.project }
    requires project { line.old.project ≡ list.now.network.project }
    requires before { line.old.bookings
        ≡ serial_bookings list.now.network.project (take position list.now.order) }
    requires count { length into.old ≡ activity_count list.now.network.project }
    requires shown { ShowsStarts line.old.bookings into.old }
    ensures start { into.new ≡ slice_set into.old (slice_index list.now.order position - 1)
        (serial_start list.now.network.project list.now.order position) }
    ensures booked { line.new ≡ record line.old {
      bookings = serial_bookings list.now.network.project (take (position + 1) list.now.order);
    } }
    ensures shown { ShowsStarts line.new.bookings into.new }
    ensures answer { result
        ≡ serial_start list.now.network.project list.now.order position }
{
    serial_step_of(list.net(), line, into, list.order()[position as usize])
}

/// The same step, of an activity that is told: for a list that is chosen while it is booked.
///
/// The activity stands next in some feasible list, of which what stands before is booked. The step is
/// that of each such list.
// Always inlined, as the step above.
#[inline(always)]
pub fn serial_step_of(net: &Net, line: &mut Line<'_>, into: &mut Schedule, activity: u32) -> u32
    requires fits { HasNoMisfit net.now.project }
    requires project { line.old.project ≡ net.now.project }
    requires count { length into.old ≡ activity_count net.now.project }
    requires shown { ShowsStarts line.old.bookings into.old }
    requires next { IsNext net.now.project line.old.bookings activity }
    ensures stepped { (order : List ℕ) (position : ℕ)
        → IsStepOf net.now.project order position line.old.bookings activity
        → HasStepped net.now.project order position activity line.old line.new into.old into.new result }
    ensures shown { ShowsStarts line.new.bookings into.new }
{
    let last = last_of(net.instance(), net.predecessors(activity), into);
    let start = line.place_near(activity, last.finish, last.activity);
    into.set(activity, start);
    start
}

// An activity with its finish.
#[derive(Clone, Copy)]
struct Last {
    activity: u32,
    finish: u32,
}

// The one of some activities that ends last in a schedule. Where each ends at 0, it is none of them.
fn last_of(instance: &Instance, activities: &[u32], starts: &Schedule) -> Last
    requires activities { All (IsActivity instance.now) activities.now }
    requires count { length starts.now ≡ activity_count instance.now }
    requires ended { All (λ a. finish_at instance.now starts.now a ≤ MAX_HORIZON) activities.now }
    ensures { result.finish ≡ last_finish_of instance.now starts.now activities.now }
{
    let mut last = Last {
        activity: 0,
        finish: 0,
    };
    for activity in activities {
        let finish = starts.start(*activity) + instance.duration(*activity);
        if last.finish < finish {
            last = Last {
                activity: *activity,
                finish,
            };
        }
    }
    last
}
