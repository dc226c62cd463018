ghost use Rattle.rcpsp_words.specs.Reading.{IsUnderstood};
ghost use Rattle.rcpsp_words.specs.Gathered.{given_by};
ghost use Rattle.rcpsp_words.specs.Commands.Parallel.{parallel_of};

use crate::gathered::Gathered;
use crate::values::form::Form;
use crate::values::format::Format;
use crate::values::name::{Name, are_names};
use crate::values::order::{Order, order_of};
use crate::words::WordsFault;
use std::alloc::Global;

/// `parallel FILE`: schedules an instance by the parallel scheme, and prints the schedule.
#[derive(Debug, Drop)]
pub struct ParallelCommand {
    /// The file of the instance.
    pub file: Name,

    /// The format of the instance.
    pub format: Format,

    /// Where the list comes from that the scheme follows.
    pub order: Order,

    /// The file of the calendar, where the capacities change over time.
    pub calendar: Option<Name>,

    /// How the schedule is shown.
    pub form: Form,
}

/// The command `parallel`, by what the words after it give.
#[tactic(auto, unfolding(crate::specs::Commands::Parallel::parallel_of))]
pub(crate) fn parallel_of(
    alloc: Global,
    gathered: &Gathered<'_>,
) -> Result<ParallelCommand, WordsFault>
    ensures { IsUnderstood (parallel_of (given_by gathered.now)) result }
{
    let [file] = gathered.positional() else {
        return Err(WordsFault::Undefined);
    };
    let format = gathered.file_format(file)?;
    let rule = gathered.rule("rule")?;
    let list = gathered.name("list")?;
    let calendar = gathered.name("calendar")?;
    let form = gathered.form("as")?.unwrap_or(Form::Table);
    if !are_names(&[Some(*file), list, calendar]) {
        return Err(WordsFault::Undefined);
    }
    Ok(ParallelCommand {
        file: Name::of(alloc, file)?,
        format,
        order: order_of(alloc, rule, list)?,
        calendar: Name::of_given(alloc, calendar)?,
        form,
    })
}
