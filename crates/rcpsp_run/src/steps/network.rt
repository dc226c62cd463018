ghost use Rattle.std.specs.Prelude.{◌≡◌, IfErr, IfOk};
ghost use Rattle.activity_net.specs.Ring.{shown_cycle};
ghost use Rattle.rcpsp_run.specs.Causes.{IsOfTexts, Gives};
ghost use Rattle.rcpsp_run.specs.Steps.Network.{without_cycle};

use crate::refusal::Refusal;
use activity_net::{Net, NetFault};
use rc_instance::Instance;
use std::alloc::Global;

/// The network of an instance.
pub(crate) fn net_of(alloc: Global, instance: Instance) -> Result<Net, Refusal>
    ensures net { IfOk result (λ net. net.project ≡ instance) }
    ensures acyclic { Gives (λ _. tt) result (without_cycle (shown_cycle instance)) }
    ensures texts { IfErr result IsOfTexts }
{
    match Net::of(alloc, instance) {
        Ok(net) => Ok(net),
        Err(NetFault::Cycle(ring)) => Err(Refusal::Cycle(ring)),
        Err(NetFault::Memory) => Err(Refusal::Memory),
    }
}
