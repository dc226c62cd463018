ghost use Rattle.std.specs.Prelude.{◌≤◌, IfErr, IfOk};
ghost use Rattle.rc_instance.specs.declared.limits.TheConstants.{MAX_HORIZON};
ghost use Rattle.rc_instance.specs.Schedule.{makespan, IsFeasible};
ghost use Rattle.parallel_scheme.specs.NonDelay.{IsNonDelay};
ghost use Rattle.rcpsp_run.specs.Causes.{IsOfTexts, Gives};
ghost use Rattle.rcpsp_run.specs.Steps.Parallel.{parallel_scheduled};

use crate::refusal::Refusal;
use activity_net::FeasibleList;
use parallel_scheme::parallel;
use rc_instance::Schedule;
use serial_plain::SchemeFault;
use std::alloc::Global;

/// The parallel schedule of a list, where no demand is a misfit.
pub(crate) fn parallel_scheduled(
    alloc: Global,
    list: &FeasibleList<'_>,
) -> Result<Schedule, Refusal>
    ensures starts { Gives (λ starts. starts) result
        (parallel_scheduled list.now.network.project list.now.order) }
    ensures feasible { IfOk result (IsFeasible list.now.network.project) }
    ensures short { IfOk result (λ starts.
        makespan list.now.network.project starts ≤ MAX_HORIZON) }
    ensures non_delay { IfOk result (IsNonDelay list.now.network.project) }
    ensures texts { IfErr result IsOfTexts }
{
    match parallel(alloc, list) {
        Ok(schedule) => Ok(schedule),
        Err(SchemeFault::Misfit(misfit)) => Err(Refusal::Misfit(misfit)),
        Err(SchemeFault::Memory) => Err(Refusal::Memory),
    }
}
