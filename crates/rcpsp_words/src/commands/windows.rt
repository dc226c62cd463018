ghost use Rattle.rcpsp_words.specs.Reading.{IsUnderstood};
ghost use Rattle.rcpsp_words.specs.Gathered.{given_by};
ghost use Rattle.rcpsp_words.specs.Commands.Windows.{windows_of};

use crate::gathered::Gathered;
use crate::values::format::Format;
use crate::values::name::{Name, are_names};
use crate::words::WordsFault;
use std::alloc::Global;

/// `windows FILE`: prints the earliest and latest starts of an instance's activities, and two
/// lower bounds of its makespan.
#[derive(Debug, Drop)]
pub struct WindowsCommand {
    /// The file of the instance.
    pub file: Name,

    /// The format of the instance.
    pub format: Format,
}

/// The command `windows`, by what the words after it give.
#[tactic(auto, unfolding(crate::specs::Commands::Windows::windows_of))]
pub(crate) fn windows_of(
    alloc: Global,
    gathered: &Gathered<'_>,
) -> Result<WindowsCommand, WordsFault>
    ensures { IsUnderstood (windows_of (given_by gathered.now)) result }
{
    let [file] = gathered.positional() else {
        return Err(WordsFault::Undefined);
    };
    let format = gathered.file_format(file)?;
    if !are_names(&[Some(*file)]) {
        return Err(WordsFault::Undefined);
    }
    Ok(WindowsCommand {
        file: Name::of(alloc, file)?,
        format,
    })
}
