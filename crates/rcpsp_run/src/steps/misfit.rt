ghost use Rattle.std.specs.Prelude.{OnOk, IfErr};
ghost use Rattle.rc_instance.specs.Misfit.{HasNoMisfit, first_misfit};
ghost use Rattle.rcpsp_run.specs.Causes.{IsOfTexts, Gives};
ghost use Rattle.rcpsp_run.specs.Steps.Schedule.{without_misfit};

use crate::refusal::Refusal;
use rc_instance::Instance;

/// Whether each demand fits its last capacity.
pub(crate) fn fitting(instance: &Instance) -> Result<(), Refusal>
    ensures fits { OnOk result (HasNoMisfit instance.now) }
    ensures misfit { Gives (λ _. tt) result (without_misfit (first_misfit instance.now)) }
    ensures texts { IfErr result IsOfTexts }
{
    match instance.fits_all() {
        Ok(()) => Ok(()),
        Err(misfit) => Err(Refusal::Misfit(misfit)),
    }
}
