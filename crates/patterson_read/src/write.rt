ghost use Rattle.std.specs.Prelude.{◌≡◌, ◌++◌, [], Ok, IfOk, OnOk};
ghost use Rattle.std.specs.String.{string_bytes};
ghost use Rattle.rc_instance.specs.Project.{IsActivity};
ghost use Rattle.patterson_read.specs.Rcp.{read_instance};
ghost use Rattle.rc_edge.specs.Written.{demands_of, HasSmallDemandsAt};
ghost use Rattle.patterson_read.specs.Written.{line, activity_numbers, rcp_text};

use rc_instance::{Instance, Memory};
use std::alloc::Global;

/// The instance as a text in the `.rcp` format of Patterson: one space between two numbers, and one
/// line for how many activities and resources there are, one for the capacities, and one for each
/// activity.
///
/// The text has nothing of a calendar; without it, it is read back as the same instance. The only
/// error is want of memory.
pub fn write_rcp(alloc: Global, instance: &Instance) -> Result<Vec<u8>, Memory>
    ensures text { IfOk result (λ text. text.items ≡ rcp_text instance.now) }
    ensures read_back { IfOk result (λ text.
        read_instance text.items ≡ Ok (record instance.now { changes = [] })) }
{
    let mut text = String::new(alloc);
    push_line(&mut text, &[instance.count(), instance.resources()])?;
    push_line(&mut text, &capacities(alloc, instance)?)?;
    for activity in 1..instance.count() + 1 {
        let numbers = activity_numbers(alloc, instance, activity)?;
        push_line(&mut text, &numbers)?;
    }
    Ok(text.into_bytes())
}

/// Appends a line of numbers, with one space between them.
#[tactic(auto, unfolding(crate::specs::Written::line))]
fn push_line(text: &mut String, numbers: &[u32]) -> Result<(), Memory>
    ensures { OnOk result (string_bytes text.new ≡ string_bytes text.old ++ line numbers.now) }
{
    if let Some((first, others)) = numbers.split_first() {
        write!(text, "{first}")?;
        for number in others {
            write!(text, " {number}")?;
        }
    }
    text.push('\n')?;
    Ok(())
}

/// The capacities of the resources, in order.
fn capacities(alloc: Global, instance: &Instance) -> Result<Vec<u32>, Memory>
    ensures { IfOk result (λ numbers. numbers.items ≡ instance.now.capacities) }
{
    let mut numbers = Vec::new(alloc);
    for resource in 1..instance.resources() + 1 {
        numbers.push(instance.capacity(resource))?;
    }
    Ok(numbers)
}

/// What is written of an activity.
#[tactic(auto, unfolding(crate::specs::Written::activity_numbers))]
fn activity_numbers(alloc: Global, instance: &Instance, activity: u32) -> Result<Vec<u32>, Memory>
    requires { IsActivity instance.now activity }
    ensures value { IfOk result (λ numbers. numbers.items ≡ activity_numbers instance.now activity) }
    ensures small { IfOk result (λ _. HasSmallDemandsAt instance.now activity) }
{
    let mut numbers = Vec::new(alloc);
    numbers.push(instance.duration(activity))?;
    push_demands(&mut numbers, instance, activity)?;
    numbers.push(instance.successor_count(activity))?;
    numbers.extend_from_slice(instance.successors(activity))?;
    Ok(numbers)
}

/// Appends the demands of an activity, one resource after the other.
fn push_demands(numbers: &mut Vec<u32>, instance: &Instance, activity: u32) -> Result<(), Memory>
    requires { IsActivity instance.now activity }
    ensures value { OnOk result
        (numbers.new.items ≡ numbers.old.items ++ demands_of instance.now activity) }
    ensures small { OnOk result (HasSmallDemandsAt instance.now activity) }
{
    for resource in 1..instance.resources() + 1 {
        numbers.push(instance.demand(activity, resource))?;
    }
    Ok(())
}
