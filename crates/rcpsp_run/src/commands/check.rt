ghost use Rattle.std.specs.Prelude.{◌≡◌, ◌≤◌, length, map, All, IfErr, IfOk};
ghost use Rattle.rc_instance.specs.declared.limits.TheConstants.{MAX_FILE_BYTES};
ghost use Rattle.rcpsp_run.specs.Answer.{answer_view};
ghost use Rattle.rcpsp_run.specs.Causes.{IsOfTexts, Gives};
ghost use Rattle.rcpsp_run.specs.Commands.Check.{check_names, check_answer, verdict, PrintsCheck};

use crate::answer::Answer;
use crate::refusal::Refusal;
use crate::steps::instance::instance_in;
use crate::steps::plan::plan_in;
use rc_instance::Instance;
use rcpsp_words::commands::CheckCommand;
use schedule_check::{CheckFault, Plan, check};
use std::alloc::Global;

/// What `check` makes of the texts of its files.
#[tactic(auto, unfolding(crate::specs::Commands::Check::check_answer))]
pub(crate) fn check_answer(
    alloc: Global,
    command: &CheckCommand,
    texts: &[Vec<u8>],
) -> Result<Answer, Refusal>
    requires each { length texts.now ≡ length (check_names command.now) }
    requires short { All (λ text. length text.items ≤ MAX_FILE_BYTES) texts.now }
    ensures answer { Gives answer_view result
        (check_answer command.now (map (λ text. text.items) texts.now)) }
    ensures printed { IfOk result (λ answer. PrintsCheck command.now (answer_view answer)) }
    ensures texts { IfErr result IsOfTexts }
{
    let instance = instance_in(alloc, &command.file, command.format, texts)?;
    let plan = plan_in(alloc, &command.plan, texts)?;
    verdict(alloc, &instance, &plan)
}

// The line of a check: the makespan, or the first violation.
fn verdict(alloc: Global, instance: &Instance, plan: &Plan) -> Result<Answer, Refusal>
    ensures answer { IfOk result (λ answer.
        answer_view answer ≡ verdict instance.now plan.now) }
    ensures memory { IfErr result (λ refusal. refusal ≡ Refusal.Memory) }
{
    let violated;
    let line = match check(alloc, instance, plan) {
        Ok(makespan) => {
            violated = false;
            format!(in alloc; "ok makespan {makespan}\n")
        }
        Err(CheckFault::Violated(violation)) => {
            violated = true;
            format!(in alloc; "{violation}\n")
        }
        Err(CheckFault::Memory) => return Err(Refusal::Memory),
    };
    match line {
        Ok(line) => Ok(Answer {
            text: line.into_bytes(),
            violated,
            live: None,
        }),
        Err(_) => Err(Refusal::Memory),
    }
}
