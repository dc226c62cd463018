ghost use Rattle.std.specs.Prelude.{◌≡◌, ◌≤◌, length, map, All, IfErr, IfOk};
ghost use Rattle.rc_instance.specs.declared.limits.TheConstants.{MAX_FILE_BYTES};
ghost use Rattle.rc_instance.specs.Calendar.{IsWithinLimits};
ghost use Rattle.rcpsp_run.specs.Answer.{answer_view};
ghost use Rattle.rcpsp_run.specs.Causes.{IsOfTexts, Gives};
ghost use Rattle.rcpsp_run.specs.Commands.Convert.{convert_names, convert_answer, written, PrintsConverted};

use crate::answer::Answer;
use crate::refusal::Refusal;
use crate::steps::instance::instance_in;
use patterson_read::write_rcp;
use psplib_read::write_sm;
use rc_instance::{Instance, Memory};
use rcpsp_words::Format;
use rcpsp_words::commands::ConvertCommand;
use std::alloc::Global;

/// What `convert` makes of the text of its file.
#[tactic(auto, unfolding(crate::specs::Commands::Convert::convert_answer))]
pub(crate) fn convert_answer(
    alloc: Global,
    command: &ConvertCommand,
    texts: &[Vec<u8>],
) -> Result<Answer, Refusal>
    requires each { length texts.now ≡ length (convert_names command.now) }
    requires short { All (λ text. length text.items ≤ MAX_FILE_BYTES) texts.now }
    ensures answer { Gives answer_view result
        (convert_answer command.now (map (λ text. text.items) texts.now)) }
    ensures printed { IfOk result (λ answer. PrintsConverted command.now (answer_view answer)) }
    ensures texts { IfErr result IsOfTexts }
{
    let instance = instance_in(alloc, &command.file, command.format, texts)?;
    let text = written(alloc, command.to, &instance)?;
    Ok(Answer::told(text))
}

// An instance in a format.
fn written(alloc: Global, to: Format, instance: &Instance) -> Result<Vec<u8>, Memory>
    ensures text { IfOk result (λ text. text.items ≡ written to instance.now) }
    ensures limits { IsWithinLimits instance.now }
{
    // each reader of an instance tells its limits
    let _ = instance.count();
    match to {
        Format::Sm => write_sm(alloc, instance),
        Format::Rcp => write_rcp(alloc, instance),
    }
}
