ghost use Rattle.rcpsp_words.specs.Reading.{IsUnderstood};
ghost use Rattle.rcpsp_words.specs.Gathered.{given_by};
ghost use Rattle.rcpsp_words.specs.Commands.Convert.{convert_of};

use crate::gathered::Gathered;
use crate::values::format::Format;
use crate::values::name::{Name, are_names};
use crate::words::WordsFault;
use std::alloc::Global;

/// `convert FILE --to FORMAT`: prints an instance in a format.
#[derive(Debug, Drop)]
pub struct ConvertCommand {
    /// The file of the instance.
    pub file: Name,

    /// The format of the instance.
    pub format: Format,

    /// The format to print it in.
    pub to: Format,
}

/// The command `convert`, by what the words after it give.
#[tactic(auto, unfolding(crate::specs::Commands::Convert::convert_of))]
pub(crate) fn convert_of(
    alloc: Global,
    gathered: &Gathered<'_>,
) -> Result<ConvertCommand, WordsFault>
    ensures { IsUnderstood (convert_of (given_by gathered.now)) result }
{
    let [file] = gathered.positional() else {
        return Err(WordsFault::Undefined);
    };
    let format = gathered.file_format(file)?;
    let to = gathered.format("to")?.ok_or(WordsFault::Undefined)?;
    if !are_names(&[Some(*file)]) {
        return Err(WordsFault::Undefined);
    }
    Ok(ConvertCommand {
        file: Name::of(alloc, file)?,
        format,
        to,
    })
}
