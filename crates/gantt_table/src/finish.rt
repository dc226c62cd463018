ghost use Rattle.std.specs.Prelude.{◌≡◌, ◌+◌, ◌≤◌, length};
ghost use Rattle.rc_instance.specs.Project.{activity_count, duration, IsActivity};
ghost use Rattle.rc_instance.specs.Schedule.{makespan, start_at};
ghost use Rattle.rc_instance.specs.declared.limits.TheConstants.{MAX_HORIZON};

use rc_instance::{Instance, Schedule};

/// The first period in which an activity no longer runs.
pub(crate) fn finish_of(instance: &Instance, schedule: &Schedule, activity: u32) -> u32
    requires count { length schedule.now ≡ activity_count instance.now }
    requires ends { makespan instance.now schedule.now ≤ MAX_HORIZON }
    requires activity { IsActivity instance.now activity }
    ensures { result ≡ start_at schedule.now activity + duration instance.now activity }
{
    schedule.start(activity) + instance.duration(activity)
}
