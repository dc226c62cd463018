ghost use Rattle.std.specs.Prelude.{◌≡◌, ◌≤◌, length, IfOk};
ghost use Rattle.rc_instance.specs.Project.{activity_count};
ghost use Rattle.rc_instance.specs.Schedule.{makespan};
ghost use Rattle.rc_instance.specs.declared.limits.TheConstants.{MAX_HORIZON};
ghost use Rattle.gantt_table.specs.Table.{table_text};

use crate::finish::finish_of;
use rc_instance::{Instance, Memory, Schedule};
use std::alloc::Global;

/// How many bytes a line of the table has at most.
const LINE: usize = 25;

/// The table of a schedule: a head, for each activity its number, start and finish, and the
/// makespan.
///
/// Starts and finishes are in periods; numbers stand right in 8 places. The only error is want of
/// memory.
pub fn table(alloc: Global, instance: &Instance, schedule: &Schedule) -> Result<Vec<u8>, Memory>
    requires count { length schedule.now ≡ activity_count instance.now }
    requires ends { makespan instance.now schedule.now ≤ MAX_HORIZON }
    ensures { IfOk result (λ text. text.items ≡ table_text instance.now schedule.now) }
{
    let mut text = String::with_capacity(alloc, LINE * (instance.count() as usize + 2))?;
    text.push_str("activity   start  finish\n")?;
    for activity in 1..instance.count() + 1 {
        let start = schedule.start(activity);
        let finish = finish_of(instance, schedule, activity);
        write!(text, "{activity:>8}{start:>8}{finish:>8}\n")?;
    }
    let makespan = schedule.makespan(instance);
    write!(text, "makespan {makespan}\n")?;
    Ok(text.into_bytes())
}
