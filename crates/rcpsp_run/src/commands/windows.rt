ghost use Rattle.std.specs.Prelude.{◌≡◌, ◌≤◌, length, map, All, IfErr, IfOk};
ghost use Rattle.rc_instance.specs.declared.limits.TheConstants.{MAX_FILE_BYTES};
ghost use Rattle.rcpsp_run.specs.Answer.{answer_view};
ghost use Rattle.rcpsp_run.specs.Causes.{IsOfTexts, Gives};
ghost use Rattle.rcpsp_run.specs.Commands.Windows.{windows_names, windows_answer, PrintsWindows};

use crate::answer::Answer;
use crate::refusal::Refusal;
use crate::steps::instance::instance_in;
use crate::steps::network::net_of;
use gantt_table::window_table;
use rcpsp_words::commands::WindowsCommand;
use std::alloc::Global;
use time_windows::Windows;

/// What `windows` makes of the text of its file.
#[tactic(auto, unfolding(crate::specs::Commands::Windows::windows_answer))]
pub(crate) fn windows_answer(
    alloc: Global,
    command: &WindowsCommand,
    texts: &[Vec<u8>],
) -> Result<Answer, Refusal>
    requires each { length texts.now ≡ length (windows_names command.now) }
    requires short { All (λ text. length text.items ≤ MAX_FILE_BYTES) texts.now }
    ensures answer { Gives answer_view result
        (windows_answer command.now (map (λ text. text.items) texts.now)) }
    ensures printed { IfOk result (λ answer. PrintsWindows command.now (answer_view answer)) }
    ensures texts { IfErr result IsOfTexts }
{
    let instance = instance_in(alloc, &command.file, command.format, texts)?;
    let net = net_of(alloc, instance)?;
    let windows = Windows::of(alloc, &net)?;
    let text = window_table(alloc, &net, &windows)?;
    Ok(Answer::told(text))
}
