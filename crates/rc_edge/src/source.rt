ghost use Rattle.std.specs.Prelude.{◌≡◌, ℕ, ◌+◌, ◌≤◌, [], ◌++◌, IfOk, Result};
ghost use Rattle.rc_instance.specs.declared.limits.TheConstants.{MAX_DURATION_SUM};
ghost use Rattle.rc_edge.specs.declared.text_number.Number.{Number as Due};
ghost use Rattle.rc_edge.specs.declared.text_fault.TextFault.{TextFault as Fault};
ghost use Rattle.rc_edge.specs.Grammar.{Gives, GivesOrMemory, StandsOrMemory, more};
ghost use Rattle.rc_edge.specs.Source.{capacity_due, next_capacity, demand_due, duration_due, successor_due};

use crate::entry;
use crate::text_fault::TextFault;
use crate::text_number::Number;
use std::alloc::Global;

/// Where the numbers of a text are read from, one after the other.
pub trait NumberSource {
    ghost due: { Self → Result (Due × Self) Fault };

    /// The next number, or the first fault: that the text ends, or that the next token is no number.
    fn number(&mut self) -> Result<Number, TextFault>
        ensures { Gives (λ number. (number, self.new)) result (due self.old) };
}

/// The capacity of a resource.
#[tactic(auto, unfolding(crate::specs::Source::capacity_due))]
pub fn read_capacity<S: NumberSource>(source: &mut S, resource: u32) -> Result<u32, TextFault>
    ensures { Gives (λ x. (x, source.new)) result (capacity_due S.due resource source.old) }
{
    let number = source.number()?;
    entry::capacity(resource, number)
}

/// A demand, which may be any number.
#[tactic(auto, unfolding(crate::specs::Source::demand_due))]
fn read_demand<S: NumberSource>(source: &mut S) -> Result<u32, TextFault>
    ensures { Gives (λ x. (x, source.new)) result (demand_due S.due source.old) }
{
    let number = source.number()?;
    Ok(number.value)
}

/// The duration of an activity, in periods; those before it have the sum `before`.
#[tactic(auto, unfolding(crate::specs::Source::duration_due))]
pub fn read_duration<S: NumberSource>(source: &mut S, before: u32) -> Result<u32, TextFault>
    ensures reads { Gives (λ x. (x, source.new)) result (duration_due S.due before source.old) }
    ensures short { IfOk result (λ x. before + x ≤ MAX_DURATION_SUM) }
{
    let number = source.number()?;
    entry::duration(before, number)
}

/// A successor of an activity, of `count` activities in all.
#[tactic(auto, unfolding(crate::specs::Source::successor_due))]
fn read_successor<S: NumberSource>(
    source: &mut S,
    count: u32,
    activity: u32,
) -> Result<u32, TextFault>
    ensures { Gives (λ x. (x, source.new)) result (successor_due S.due count activity source.old) }
{
    let number = source.number()?;
    entry::successor(count, activity, number)
}

/// The capacity of each resource, in order.
pub fn read_capacities<S: NumberSource>(
    alloc: Global,
    source: &mut S,
    resources: u32,
) -> Result<Vec<u32>, TextFault>
    ensures { GivesOrMemory (λ list. (list.items, source.new)) result
        (more (next_capacity S.due) resources [] source.old) }
{
    let mut capacities = Vec::new(alloc);
    for index in 0..resources {
        let capacity = read_capacity(source, index + 1)?;
        capacities.push(capacity)?;
    }
    Ok(capacities)
}

/// Appends so many demands.
pub fn push_demands<S: NumberSource>(
    source: &mut S,
    resources: u32,
    demands: &mut Vec<u32>,
) -> Result<(), TextFault>
    ensures { StandsOrMemory (λ _ read. (demands.new.items ≡ demands.old.items ++ read.0)
        × (read.1 ≡ source.new)) result (more (λ _. demand_due S.due) resources [] source.old) }
{
    for _ in 0..resources {
        let demand = read_demand(source)?;
        demands.push(demand)?;
    }
    Ok(())
}

/// So many successors of an activity, of `count` activities in all.
pub fn read_successors<S: NumberSource>(
    alloc: Global,
    source: &mut S,
    many: u32,
    count: u32,
    activity: u32,
) -> Result<Vec<u32>, TextFault>
    ensures { GivesOrMemory (λ list. (list.items, source.new)) result
        (more (λ _. successor_due S.due count activity) many [] source.old) }
{
    let mut successors = Vec::new(alloc);
    for _ in 0..many {
        let successor = read_successor(source, count, activity)?;
        successors.push(successor)?;
    }
    Ok(successors)
}
