ghost use Rattle.std.specs.Prelude.{◌≡◌, IfErr, IfOk, Some};
ghost use Rattle.rcpsp_run.specs.Causes.{IsOfTexts, Gives};
ghost use Rattle.rcpsp_run.specs.Steps.Descent.{descended_if};

use crate::refusal::Refusal;
use activity_net::FeasibleList;
use rcpsp_words::Rounds;
use serial_plain::SchemeFault;
use std::alloc::Global;
use swap_descent::descend;

/// The list after the rounds that are asked for, or else the list itself.
pub(crate) fn descended_if<'n>(
    alloc: Global,
    asked: &Option<Rounds>,
    list: FeasibleList<'n>,
) -> Result<FeasibleList<'n>, Refusal>
    ensures network { IfOk result (λ found. found.network ≡ list.entry.network) }
    ensures list { Gives (λ found. found.order) result
        (descended_if asked.now list.entry.network.project list.entry.order) }
    ensures texts { IfErr result IsOfTexts }
{
    match asked {
        None => Ok(list),
        Some(rounds) => descended(alloc, rounds, list),
    }
}

// The list after so many rounds.
fn descended<'n>(
    alloc: Global,
    rounds: &Rounds,
    list: FeasibleList<'n>,
) -> Result<FeasibleList<'n>, Refusal>
    ensures network { IfOk result (λ found. found.network ≡ list.entry.network) }
    ensures list { Gives (λ found. found.order) result
        (descended_if (Some rounds.now) list.entry.network.project list.entry.order) }
    ensures texts { IfErr result IsOfTexts }
{
    match descend(alloc, list, rounds.count()) {
        Ok((list, _)) => Ok(list),
        Err(SchemeFault::Misfit(misfit)) => Err(Refusal::Misfit(misfit)),
        Err(SchemeFault::Memory) => Err(Refusal::Memory),
    }
}
