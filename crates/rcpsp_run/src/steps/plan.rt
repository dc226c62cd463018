ghost use Rattle.std.specs.Prelude.{◌<◌, ◌≤◌, length, map, All, IfErr};
ghost use Rattle.rc_instance.specs.declared.limits.TheConstants.{MAX_FILE_BYTES};
ghost use Rattle.rcpsp_run.specs.Causes.{IsOfTexts, Gives};
ghost use Rattle.rcpsp_run.specs.Steps.Plan.{plan_in};

use crate::refusal::Refusal;
use rcpsp_words::Name;
use schedule_check::{Plan, PlanKind, read_plan};
use std::alloc::Global;

/// The plan of the second text.
#[tactic(auto, unfolding(crate::specs::Steps::Plan::plan_in))]
pub(crate) fn plan_in(alloc: Global, name: &Name, texts: &[Vec<u8>]) -> Result<Plan, Refusal>
    requires some { 1 < length texts.now }
    requires short { All (λ text. length text.items ≤ MAX_FILE_BYTES) texts.now }
    ensures plan { Gives (λ plan. plan) result
        (plan_in name.now (map (λ text. text.items) texts.now)) }
    ensures texts { IfErr result IsOfTexts }
{
    match read_plan(alloc, &texts[1]) {
        Ok(plan) => Ok(plan),
        Err(fault) if fault.kind == PlanKind::Memory => Err(Refusal::Memory),
        Err(fault) => {
            let name = name.copy(alloc)?;
            Err(Refusal::BadPlan { name, fault })
        }
    }
}
