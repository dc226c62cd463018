ghost use Rattle.std.specs.Prelude.{◌≡◌, ◌+◌, ◌≤◌, [], ◌∷◌, ◌++◌, IfOk};
ghost use Rattle.rc_instance.specs.declared.limits.TheConstants.{MAX_DURATION_SUM};
ghost use Rattle.rc_edge.specs.Grammar.{StandsOrMemory, more};
ghost use Rattle.patterson_read.specs.Rcp.{activity_due, next_activity, text_due, Text};
ghost use Rattle.patterson_read.specs.View.{Holds, Gains};

use crate::cursor::Cursor;
use crate::head::{Head, read_head};
use rc_edge::{
    NumberSource, TextFault, push_demands, read_capacities, read_duration, read_successors,
};
use rc_instance::Parts;
use std::alloc::Global;

/// The parts that a whole text tells.
#[tactic(auto, unfolding(crate::specs::Rcp::text_due))]
pub fn read_parts(alloc: Global, cursor: &mut Cursor) -> Result<Parts, TextFault>
    ensures { StandsOrMemory (λ parts text. Holds text parts) result (text_due cursor.old) }
{
    let head = read_head(cursor)?;
    let capacities = read_capacities(alloc, cursor, head.resources)?;
    let parts = read_activities(alloc, cursor, head, capacities)?;
    cursor.end()?;
    Ok(parts)
}

/// The parts of these capacities and of all activities.
fn read_activities(
    alloc: Global,
    cursor: &mut Cursor,
    head: Head,
    capacities: Vec<u32>,
) -> Result<Parts, TextFault>
    ensures { StandsOrMemory (λ parts read.
        Holds (record { capacities = capacities.items; activities = read.0 }) parts
        × (read.1 ≡ cursor.new)) result
        (more (next_activity head) head.activities [] cursor.old) }
{
    let mut parts = Parts {
        capacities,
        durations: Vec::new(alloc),
        demands: Vec::new(alloc),
        successors: Vec::new(alloc),
    };
    let mut sum = 0;
    for index in 0..head.activities {
        sum += read_activity(alloc, cursor, head, index + 1, sum, &mut parts)?;
    }
    Ok(parts)
}

/// Puts the activity with this number into the parts, and answers its duration, in periods; those
/// before it have durations of the sum `before`.
#[tactic(auto, unfolding(crate::specs::Rcp::activity_due))]
fn read_activity(
    alloc: Global,
    cursor: &mut Cursor,
    head: Head,
    number: u32,
    before: u32,
    parts: &mut Parts,
) -> Result<u32, TextFault>
    ensures reads { StandsOrMemory (λ duration read. (duration ≡ read.0.duration)
        × (read.1 ≡ cursor.new) × Gains read.0 parts.old parts.new) result
        (activity_due head number before cursor.old) }
    ensures short { IfOk result (λ duration. before + duration ≤ MAX_DURATION_SUM) }
{
    let duration = read_duration(cursor, before)?;
    push_demands(cursor, head.resources, &mut parts.demands)?;
    let count = cursor.number()?.value;
    let successors = read_successors(alloc, cursor, count, head.activities, number)?;
    parts.durations.push(duration)?;
    parts.successors.push(successors)?;
    Ok(duration)
}
