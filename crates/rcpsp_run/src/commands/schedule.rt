ghost use Rattle.std.specs.Prelude.{◌≡◌, ◌≤◌, false, length, map, All, IfErr, IfOk};
ghost use Rattle.rc_instance.specs.declared.limits.TheConstants.{MAX_FILE_BYTES, MAX_HORIZON};
ghost use Rattle.rc_instance.specs.Project.{activity_count};
ghost use Rattle.rc_instance.specs.Schedule.{makespan, IsFeasible};
ghost use Rattle.rcpsp_run.specs.Answer.{answer_view};
ghost use Rattle.rcpsp_run.specs.Causes.{IsOfTexts, Gives};
ghost use Rattle.rcpsp_run.specs.Live.{lines_for, NotesLive};
ghost use Rattle.rcpsp_run.specs.Commands.Schedule.{schedule_names, schedule_answer, schedule_told, starts_of, text_in, PrintsSchedule};

use crate::answer::Answer;
use crate::refusal::Refusal;
use crate::steps::calendar::on_calendar;
use crate::steps::descent::descended_if;
use crate::steps::improvement::improved_if;
use crate::steps::instance::instance_in;
use crate::steps::list::{list_by, numbers_in};
use crate::steps::network::net_of;
use crate::steps::schedule::scheduled;
use crate::steps::told::lines_for;
use activity_net::Net;
use gantt_table::{chart, csv_table, table};
use rc_edge::{Gate, Sink};
use rc_instance::{Instance, Memory, Schedule};
use rcpsp_words::commands::ScheduleCommand;
use rcpsp_words::{Form, Order};
use std::alloc::Global;
use std::thread::Threads;

/// The names of the files of `schedule`, in the order in which they are fetched.
pub(crate) fn schedule_names<'c>(
    alloc: Global,
    command: &'c ScheduleCommand,
) -> Result<Vec<&'c str>, Memory>
    ensures { IfOk result (λ names.
        map (λ name. name.now) names.items ≡ schedule_names command.entry.now) }
{
    let mut names = Vec::new(alloc);
    names.push(command.file.text())?;
    if let Order::List(list) = &command.order {
        names.push(list.text())?;
    }
    if let Some(calendar) = &command.calendar {
        names.push(calendar.text())?;
    }
    Ok(names)
}

/// What `schedule` makes of the texts of its files.
#[tactic(auto, unfolding(crate::specs::Commands::Schedule::schedule_answer))]
pub(crate) fn schedule_answer<R: Threads + Sync, N: Sink + Send, G: Gate + Sync>(
    rt: &R,
    alloc: Global,
    command: &ScheduleCommand,
    texts: &[Vec<u8>],
    note: &mut N,
    failed: &mut bool,
    gate: &G,
) -> Result<Answer, Refusal>
    requires each { length texts.now ≡ length (schedule_names command.now) }
    requires short { All (λ text. length text.items ≤ MAX_FILE_BYTES) texts.now }
    requires well { failed.old ≡ false }
    ensures answer { Gives answer_view result
        (schedule_answer command.now (map (λ text. text.items) texts.now)) }
    ensures printed { IfOk result (λ answer. PrintsSchedule command.now (answer_view answer)) }
    ensures texts { IfErr result IsOfTexts }
    ensures noted { NotesLive (λ answer. (answer_view answer).live) command.now.live
        (record {
          held = N.held note.old;
          faults = N.faults note.old;
          failing = N.failing note.old;
          room = N.room note.old;
        })
        (record {
          held = N.held note.new;
          faults = N.faults note.new;
          failing = N.failing note.new;
          room = N.room note.new;
        }) failed.new result }
    ensures failing { N.failing note.new ≡ N.failing note.old }
    ensures room { N.room note.new ≡ N.room note.old }
{
    let instance = instance_in(alloc, &command.file, command.format, texts)?;
    let numbers = numbers_in(alloc, &command.order, texts)?;
    let instance = on_calendar(alloc, &command.calendar, texts, instance)?;
    let net = net_of(alloc, instance)?;
    let schedule = schedule_of(rt, alloc, command, &numbers, &net, note, failed, gate)?;
    let answer = answer_in(alloc, command, net.instance(), &schedule)?;
    Ok(answer)
}

// The schedule that a command gives to a network, by these numbers of its list file.
#[tactic(auto, unfolding(crate::specs::Commands::Schedule::starts_of))]
fn schedule_of<R: Threads + Sync, N: Sink + Send, G: Gate + Sync>(
    rt: &R,
    alloc: Global,
    command: &ScheduleCommand,
    numbers: &[u32],
    net: &Net,
    note: &mut N,
    failed: &mut bool,
    gate: &G,
) -> Result<Schedule, Refusal>
    requires { failed.old ≡ false }
    ensures starts { Gives (λ starts. starts) result
        (starts_of command.now numbers.now net.now.project) }
    ensures feasible { IfOk result (IsFeasible net.now.project) }
    ensures short { IfOk result (λ starts. makespan net.now.project starts ≤ MAX_HORIZON) }
    ensures texts { IfErr result IsOfTexts }
    ensures noted { NotesLive (λ _. lines_for command.now.live (activity_count net.now.project)) command.now.live
        (record {
          held = N.held note.old;
          faults = N.faults note.old;
          failing = N.failing note.old;
          room = N.room note.old;
        })
        (record {
          held = N.held note.new;
          faults = N.faults note.new;
          failing = N.failing note.new;
          room = N.room note.new;
        }) failed.new result }
    ensures failing { N.failing note.new ≡ N.failing note.old }
    ensures room { N.room note.new ≡ N.room note.old }
{
    let list = list_by(alloc, net, &command.order, numbers)?;
    let list = descended_if(alloc, &command.descend, list)?;
    let workers = &command.workers;
    let schedule = scheduled(rt, alloc, &list, workers, &command.live, note, failed, gate)?;
    let schedule = improved_if(alloc, command.improve, net, schedule)?;
    Ok(schedule)
}

// The answer of a schedule: its text in the form of the command, after the lines that it asks for.
fn answer_in(
    alloc: Global,
    command: &ScheduleCommand,
    instance: &Instance,
    schedule: &Schedule,
) -> Result<Answer, Memory>
    requires count { length schedule.now ≡ activity_count instance.now }
    requires ends { makespan instance.now schedule.now ≤ MAX_HORIZON }
    ensures { IfOk result (λ answer.
        answer_view answer ≡ schedule_told command.now instance.now schedule.now) }
{
    let text = text_in(alloc, command.form, instance, schedule)?;
    let live = lines_for(&command.live, instance.count());
    Ok(Answer::told_live(live, text))
}

/// The text of a schedule in a form.
pub(crate) fn text_in(
    alloc: Global,
    form: Form,
    instance: &Instance,
    schedule: &Schedule,
) -> Result<Vec<u8>, Memory>
    requires count { length schedule.now ≡ activity_count instance.now }
    requires ends { makespan instance.now schedule.now ≤ MAX_HORIZON }
    ensures { IfOk result (λ text. text.items ≡ text_in form instance.now schedule.now) }
{
    match form {
        Form::Table => table(alloc, instance, schedule),
        Form::Chart => chart(alloc, instance, schedule),
        Form::Csv => csv_table(alloc, instance, schedule),
    }
}
