ghost use Rattle.std.specs.Prelude.{◌<◌, ◌≤◌, length, map, All, IfErr};
ghost use Rattle.rc_instance.specs.declared.limits.TheConstants.{MAX_FILE_BYTES};
ghost use Rattle.rcpsp_run.specs.Causes.{IsOfTexts, Gives};
ghost use Rattle.rcpsp_run.specs.Steps.Calendar.{on_calendar};

use crate::refusal::Refusal;
use crate::steps::text::bad_text;
use patterson_read::read_calendar;
use rc_instance::Instance;
use rcpsp_words::Name;
use std::alloc::Global;

/// The instance with the changes of its calendar, which is the last text; without one, as it is.
#[tactic(auto, unfolding(crate::specs::Steps::Calendar::on_calendar))]
pub(crate) fn on_calendar(
    alloc: Global,
    calendar: &Option<Name>,
    texts: &[Vec<u8>],
    instance: Instance,
) -> Result<Instance, Refusal>
    requires some { 0 < length texts.now }
    requires short { All (λ text. length text.items ≤ MAX_FILE_BYTES) texts.now }
    ensures instance { Gives (λ instance. instance) result
        (on_calendar calendar.now (map (λ text. text.items) texts.now) instance) }
    ensures texts { IfErr result IsOfTexts }
{
    let Some(name) = calendar else {
        return Ok(instance);
    };
    match read_calendar(alloc, &texts[texts.len() - 1], instance.resources()) {
        Ok(changes) => Ok(instance.with_calendar(changes)),
        Err(fault) => Err(bad_text(alloc, name, fault)),
    }
}
