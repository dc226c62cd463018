ghost use Rattle.rcpsp_words.specs.Reading.{IsUnderstood};
ghost use Rattle.rcpsp_words.specs.Gathered.{given_by};
ghost use Rattle.rcpsp_words.specs.Commands.Schedule.{schedule_of};

use crate::gathered::Gathered;
use crate::values::form::Form;
use crate::values::format::Format;
use crate::values::live::Live;
use crate::values::name::{Name, are_names};
use crate::values::order::{Order, order_of};
use crate::values::rounds::Rounds;
use crate::values::workers::Workers;
use crate::words::WordsFault;
use std::alloc::Global;

/// `schedule FILE`: schedules an instance by the serial scheme, and prints the schedule.
#[derive(Debug, Drop)]
pub struct ScheduleCommand {
    /// The file of the instance.
    pub file: Name,

    /// The format of the instance.
    pub format: Format,

    /// Where the list comes from that the scheme follows.
    pub order: Order,

    /// The file of the calendar, where the capacities change over time.
    pub calendar: Option<Name>,

    /// How many rounds the list descends through, if it does.
    pub descend: Option<Rounds>,

    /// How many workers book it.
    pub workers: Workers,

    /// How often the run tells how many activities are booked, where that is asked for.
    pub live: Option<Live>,

    /// Whether the schedule is improved.
    pub improve: bool,

    /// How the schedule is shown.
    pub form: Form,
}

/// The command `schedule`, by what the words after it give.
#[tactic(auto, unfolding(crate::specs::Commands::Schedule::schedule_of))]
pub(crate) fn schedule_of(
    alloc: Global,
    gathered: &Gathered<'_>,
) -> Result<ScheduleCommand, WordsFault>
    ensures { IsUnderstood (schedule_of (given_by gathered.now)) result }
{
    let [file] = gathered.positional() else {
        return Err(WordsFault::Undefined);
    };
    let format = gathered.file_format(file)?;
    let rule = gathered.rule("rule")?;
    let list = gathered.name("list")?;
    let calendar = gathered.name("calendar")?;
    let descend = gathered.rounds()?;
    let workers = gathered.workers()?;
    let live = gathered.live()?;
    let improve = gathered.flag("improve")?;
    let form = gathered.form("as")?.unwrap_or(Form::Table);
    if !are_names(&[Some(*file), list, calendar]) {
        return Err(WordsFault::Undefined);
    }
    Ok(ScheduleCommand {
        file: Name::of(alloc, file)?,
        format,
        order: order_of(alloc, rule, list)?,
        calendar: Name::of_given(alloc, calendar)?,
        descend,
        workers,
        live,
        improve,
        form,
    })
}
