ghost use Rattle.std.specs.Prelude.{◌<◌, ◌≤◌, length, map, All, IfErr};
ghost use Rattle.rc_instance.specs.declared.limits.TheConstants.{MAX_FILE_BYTES};
ghost use Rattle.rc_edge.specs.Grammar.{GivesOrMemory};
ghost use Rattle.rcpsp_run.specs.Causes.{IsOfTexts, Gives};
ghost use Rattle.rcpsp_run.specs.Steps.Instance.{read_by, instance_in};

use crate::refusal::Refusal;
use crate::steps::text::bad_text;
use patterson_read::read_rcp;
use psplib_read::read_sm;
use rc_edge::TextFault;
use rc_instance::Instance;
use rcpsp_words::{Format, Name};
use std::alloc::Global;

/// The instance of the first text.
#[tactic(auto, unfolding(crate::specs::Steps::Instance::instance_in))]
pub(crate) fn instance_in(
    alloc: Global,
    file: &Name,
    format: Format,
    texts: &[Vec<u8>],
) -> Result<Instance, Refusal>
    requires some { 0 < length texts.now }
    requires short { All (λ text. length text.items ≤ MAX_FILE_BYTES) texts.now }
    ensures instance { Gives (λ instance. instance) result
        (instance_in file.now format (map (λ text. text.items) texts.now)) }
    ensures texts { IfErr result IsOfTexts }
{
    match read_by(alloc, format, &texts[0]) {
        Ok(instance) => Ok(instance),
        Err(fault) => Err(bad_text(alloc, file, fault)),
    }
}

// The instance of a text in a format.
fn read_by(alloc: Global, format: Format, text: &[u8]) -> Result<Instance, TextFault>
    requires { length text.now ≤ MAX_FILE_BYTES }
    ensures { GivesOrMemory (λ instance. instance) result (read_by format text.now) }
{
    match format {
        Format::Sm => read_sm(alloc, text),
        Format::Rcp => read_rcp(alloc, text),
    }
}
