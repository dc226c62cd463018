ghost use Rattle.std.specs.Prelude.{◌≡◌, ◌+◌, ◌*◌, ◌^◌, ◌<◌, ◌≤◌, ◌++◌, length, IfOk, OnOk};
ghost use Rattle.std.specs.String.{string_bytes};
ghost use Rattle.rc_instance.specs.Project.{activity_count};
ghost use Rattle.rc_instance.specs.Schedule.{makespan};
ghost use Rattle.rc_instance.specs.declared.limits.TheConstants.{MAX_HORIZON};
ghost use Rattle.gantt_table.specs.Chart.{bar, chart_text, column_count, column_width};

use crate::finish::finish_of;
use rc_instance::{Instance, Memory, Schedule};
use std::alloc::Global;

/// How many columns a chart has at most.
const MAX_COLUMNS: u32 = 100;

/// How many bytes a line has beside its bar, at most; the first line and the last have no bar.
const MARGIN: usize = 16;

/// The columns of a chart, of which each covers the same number of periods.
#[derive(Drop)]
struct Columns {
    width: u32,
    count: u32,
    ghost fits: { count * width < 2 ^ 32 },
}

impl Columns {
    /// The narrowest columns that cover a makespan, of which there are at most 100.
    fn of(makespan: u32) -> Columns
        requires { makespan ≤ MAX_HORIZON }
        ensures width { result.width ≡ column_width makespan }
        ensures count { result.count ≡ column_count makespan }
    {
        let width = makespan.div_ceil(MAX_COLUMNS).max(1);
        Columns {
            width,
            count: makespan.div_ceil(width),
        }
    }
}

/// Appends the bar of an activity that runs from a start up to a finish.
#[tactic(auto, unfolding(crate::specs::Chart::bar))]
fn push_bar(text: &mut String, columns: &Columns, start: u32, finish: u32) -> Result<(), Memory>
    ensures { OnOk result (string_bytes text.new
        ≡ string_bytes text.old ++ bar columns.now.width columns.now.count start finish) }
{
    for column in 0..columns.count {
        let from = column * columns.width;
        let is_busy = start.max(from) < finish.min(from + columns.width);
        text.push(if is_busy { '#' } else { '.' })?;
    }
    Ok(())
}

/// The chart of a schedule: how many periods a column covers, for each activity its number and its
/// bar, and the makespan.
///
/// A bar has a `#` for each column in a period of which the activity runs, and a `.` for the others.
/// The only error is want of memory.
pub fn chart(alloc: Global, instance: &Instance, schedule: &Schedule) -> Result<Vec<u8>, Memory>
    requires count { length schedule.now ≡ activity_count instance.now }
    requires ends { makespan instance.now schedule.now ≤ MAX_HORIZON }
    ensures { IfOk result (λ text. text.items ≡ chart_text instance.now schedule.now) }
{
    let makespan = schedule.makespan(instance) as u32;
    let columns = Columns::of(makespan);
    let lines = instance.count() as usize + 2;
    let mut text = String::with_capacity(alloc, lines * (columns.count as usize + MARGIN))?;
    write!(text, "column {}\n", columns.width)?;
    for activity in 1..instance.count() + 1 {
        let start = schedule.start(activity);
        let finish = finish_of(instance, schedule, activity);
        write!(text, "{activity:>4} ")?;
        push_bar(&mut text, &columns, start, finish)?;
        text.push('\n')?;
    }
    write!(text, "makespan {makespan}\n")?;
    Ok(text.into_bytes())
}
