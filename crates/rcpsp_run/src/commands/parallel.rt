ghost use Rattle.std.specs.Prelude.{◌≡◌, ◌≤◌, length, map, All, IfErr, IfOk};
ghost use Rattle.rc_instance.specs.declared.limits.TheConstants.{MAX_FILE_BYTES, MAX_HORIZON};
ghost use Rattle.rc_instance.specs.Schedule.{makespan, IsFeasible};
ghost use Rattle.parallel_scheme.specs.NonDelay.{IsNonDelay};
ghost use Rattle.rcpsp_run.specs.Answer.{answer_view};
ghost use Rattle.rcpsp_run.specs.Causes.{IsOfTexts, Gives};
ghost use Rattle.rcpsp_run.specs.Commands.Parallel.{parallel_names, parallel_answer, parallel_starts, PrintsParallel};

use crate::answer::Answer;
use crate::commands::schedule::text_in;
use crate::refusal::Refusal;
use crate::steps::calendar::on_calendar;
use crate::steps::instance::instance_in;
use crate::steps::list::{list_by, numbers_in};
use crate::steps::network::net_of;
use crate::steps::parallel::parallel_scheduled;
use activity_net::Net;
use rc_instance::{Memory, Schedule};
use rcpsp_words::Order;
use rcpsp_words::commands::ParallelCommand;
use std::alloc::Global;

/// The names of the files of `parallel`, in the order in which they are fetched.
pub(crate) fn parallel_names<'c>(
    alloc: Global,
    command: &'c ParallelCommand,
) -> Result<Vec<&'c str>, Memory>
    ensures { IfOk result (λ names.
        map (λ name. name.now) names.items ≡ parallel_names command.entry.now) }
{
    let mut names = Vec::new(alloc);
    names.push(command.file.text())?;
    if let Order::List(list) = &command.order {
        names.push(list.text())?;
    }
    if let Some(calendar) = &command.calendar {
        names.push(calendar.text())?;
    }
    Ok(names)
}

/// What `parallel` makes of the texts of its files.
#[tactic(auto, unfolding(crate::specs::Commands::Parallel::parallel_answer))]
pub(crate) fn parallel_answer(
    alloc: Global,
    command: &ParallelCommand,
    texts: &[Vec<u8>],
) -> Result<Answer, Refusal>
    requires each { length texts.now ≡ length (parallel_names command.now) }
    requires short { All (λ text. length text.items ≤ MAX_FILE_BYTES) texts.now }
    ensures answer { Gives answer_view result
        (parallel_answer command.now (map (λ text. text.items) texts.now)) }
    ensures printed { IfOk result (λ answer. PrintsParallel command.now (answer_view answer)) }
    ensures texts { IfErr result IsOfTexts }
{
    let instance = instance_in(alloc, &command.file, command.format, texts)?;
    let numbers = numbers_in(alloc, &command.order, texts)?;
    let instance = on_calendar(alloc, &command.calendar, texts, instance)?;
    let net = net_of(alloc, instance)?;
    let schedule = schedule_of(alloc, command, &numbers, &net)?;
    let text = text_in(alloc, command.form, net.instance(), &schedule)?;
    Ok(Answer::told(text))
}

// The schedule that a command gives to a network, by these numbers of its list file.
#[tactic(auto, unfolding(crate::specs::Commands::Parallel::parallel_starts))]
fn schedule_of(
    alloc: Global,
    command: &ParallelCommand,
    numbers: &[u32],
    net: &Net,
) -> Result<Schedule, Refusal>
    ensures starts { Gives (λ starts. starts) result
        (parallel_starts command.now numbers.now net.now.project) }
    ensures feasible { IfOk result (IsFeasible net.now.project) }
    ensures short { IfOk result (λ starts. makespan net.now.project starts ≤ MAX_HORIZON) }
    ensures non_delay { IfOk result (IsNonDelay net.now.project) }
    ensures texts { IfErr result IsOfTexts }
{
    let list = list_by(alloc, net, &command.order, numbers)?;
    let schedule = parallel_scheduled(alloc, &list)?;
    Ok(schedule)
}
