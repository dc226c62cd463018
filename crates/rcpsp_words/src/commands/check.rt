ghost use Rattle.rcpsp_words.specs.Reading.{IsUnderstood};
ghost use Rattle.rcpsp_words.specs.Gathered.{given_by};
ghost use Rattle.rcpsp_words.specs.Commands.Check.{check_of};

use crate::gathered::Gathered;
use crate::values::format::Format;
use crate::values::name::{Name, are_names};
use crate::words::WordsFault;
use std::alloc::Global;

/// `check FILE PLAN`: checks a plan for an instance, and prints the makespan or the first
/// violation.
#[derive(Debug, Drop)]
pub struct CheckCommand {
    /// The file of the instance.
    pub file: Name,

    /// The format of the instance.
    pub format: Format,

    /// The file of the plan.
    pub plan: Name,
}

/// The command `check`, by what the words after it give.
#[tactic(auto, unfolding(crate::specs::Commands::Check::check_of))]
pub(crate) fn check_of(alloc: Global, gathered: &Gathered<'_>) -> Result<CheckCommand, WordsFault>
    ensures { IsUnderstood (check_of (given_by gathered.now)) result }
{
    let [file, plan] = gathered.positional() else {
        return Err(WordsFault::Undefined);
    };
    let format = gathered.file_format(file)?;
    if !are_names(&[Some(*file), Some(*plan)]) {
        return Err(WordsFault::Undefined);
    }
    Ok(CheckCommand {
        file: Name::of(alloc, file)?,
        format,
        plan: Name::of(alloc, plan)?,
    })
}
