ghost use Rattle.std.specs.Prelude.{◌≡◌, ◌++◌, ℕ, List, length, string_bytes, sum, IfErr, IfOk, OnOk};
ghost use Rattle.rc_instance.specs.Misfit.{HasNoMisfit};
ghost use Rattle.rc_instance.specs.Order.{IsCycle};
ghost use Rattle.rc_instance.specs.Project.{activity_count};
ghost use Rattle.rcpsp_run.specs.Answer.{answer_view};
ghost use Rattle.rcpsp_run.specs.Causes.{IsOfTexts, Gives};
ghost use Rattle.rcpsp_run.specs.Commands.Trial.{project_made, summary, size_lines, bound_lines, schedule_lines, trial_answer, PrintsTrial};

use crate::answer::Answer;
use crate::refusal::Refusal;
use crate::steps::serial::serial_of;
use activity_net::{Net, NetFault};
use priority_rules::list_of;
use rc_edge::Gate;
use rc_instance::{Instance, Memory, Schedule};
use rcpsp_words::commands::TrialCommand;
use std::alloc::Global;
use std::thread::Threads;
use time_windows::Windows;
use trial_instance::trial_instance;

/// What `trial` makes of its words.
pub(crate) fn trial_answer<R: Threads + Sync, G: Gate + Sync>(
    rt: &R,
    alloc: Global,
    command: &TrialCommand,
    gate: &G,
) -> Result<Answer, Refusal>
    ensures answer { Gives answer_view result (trial_answer command.now) }
    ensures printed { IfOk result (λ answer. PrintsTrial command.now (answer_view answer)) }
    ensures texts { IfErr result IsOfTexts }
{
    let net = net_made(alloc, command)?;
    let windows = Windows::of(alloc, &net)?;
    let list = list_of(alloc, &net, &windows, command.rule)?;
    let schedule = serial_of(rt, alloc, &list, &command.workers, gate)?;
    let text = summary(alloc, command.number, &windows, &schedule)?;
    Ok(Answer::told(text))
}

// The network of the instance that the words make.
fn net_made(alloc: Global, command: &TrialCommand) -> Result<Net, Memory>
    ensures project { IfOk result (λ net. net.project ≡ project_made command.now) }
    ensures fits { IfOk result (λ net. HasNoMisfit net.project) }
{
    let activities = command.size.activities();
    let resources = command.size.resources();
    let instance = trial_instance(alloc, command.number, activities, resources)?;
    net_without_cycle(alloc, instance)
}

// The network of an instance whose precedence has no cycle.
fn net_without_cycle(alloc: Global, instance: Instance) -> Result<Net, Memory>
    requires { (ring : List ℕ) → IsCycle instance ring → ⊥ }
    ensures { IfOk result (λ net. net.project ≡ instance) }
{
    match Net::of(alloc, instance) {
        Ok(net) => Ok(net),
        Err(NetFault::Memory) => Err(Memory),
        Err(NetFault::Cycle(_)) => unreachable!(),
    }
}

// The summary of a schedule of the instance that a number makes.
fn summary(
    alloc: Global,
    number: u64,
    windows: &Windows<'_>,
    schedule: &Schedule,
) -> Result<Vec<u8>, Memory>
    requires { length schedule.now ≡ activity_count windows.now.project }
    ensures { IfOk result (λ text.
        text.items ≡ summary number windows.now.project schedule.now) }
{
    let instance = windows.net().instance();
    let mut text = format!(in alloc; "trial {number}\n")?;
    push_size(&mut text, instance)?;
    push_bounds(&mut text, windows)?;
    push_schedule(&mut text, instance, schedule)?;
    Ok(text.into_bytes())
}

// Appends how many activities and resources there are.
fn push_size(text: &mut String, instance: &Instance) -> Result<(), Memory>
    ensures { OnOk result (string_bytes text.new
        ≡ string_bytes text.old ++ size_lines instance.now) }
{
    let activities = instance.count();
    let resources = instance.resources();
    write!(text, "activities {activities}\nresources {resources}\n")?;
    Ok(())
}

// Appends both lower bounds.
fn push_bounds(text: &mut String, windows: &Windows<'_>) -> Result<(), Memory>
    ensures { OnOk result (string_bytes text.new
        ≡ string_bytes text.old ++ bound_lines windows.now.project) }
{
    let critical = windows.critical();
    let capacity = windows.capacity_bound();
    write!(text, "critical {critical}\ncapacity {capacity}\n")?;
    Ok(())
}

// Appends the makespan of a schedule, and the sum of all starts.
fn push_schedule(text: &mut String, instance: &Instance, schedule: &Schedule) -> Result<(), Memory>
    requires { length schedule.now ≡ activity_count instance.now }
    ensures { OnOk result (string_bytes text.new
        ≡ string_bytes text.old ++ schedule_lines instance.now schedule.now) }
{
    let makespan = schedule.makespan(instance);
    let starts = sum_of_starts(instance, schedule);
    write!(text, "makespan {makespan}\nstarts {starts}\n")?;
    Ok(())
}

// The sum of all starts.
fn sum_of_starts(instance: &Instance, schedule: &Schedule) -> u64
    requires { length schedule.now ≡ activity_count instance.now }
    ensures { result ≡ sum schedule.now }
{
    let mut sum: u64 = 0;
    for activity in 1..instance.count() + 1 {
        sum += u64::from(schedule.start(activity));
    }
    sum
}
