ghost use Rattle.std.specs.Prelude.{◌≡◌, ◌≤◌, false, IfErr, IfOk};
ghost use Rattle.rc_instance.specs.declared.limits.TheConstants.{MAX_HORIZON};
ghost use Rattle.rc_instance.specs.Misfit.{HasNoMisfit};
ghost use Rattle.rc_instance.specs.Project.{activity_count};
ghost use Rattle.rc_instance.specs.Schedule.{makespan, IsFeasible};
ghost use Rattle.rcpsp_run.specs.Causes.{IsOfTexts, Gives};
ghost use Rattle.rcpsp_run.specs.Live.{lines_for, NotesLive};
ghost use Rattle.rcpsp_run.specs.Steps.Schedule.{scheduled};

use crate::refusal::Refusal;
use crate::steps::misfit::fitting;
use crate::steps::told::told_serial;
use activity_net::FeasibleList;
use rc_edge::{Gate, Sink};
use rc_instance::Schedule;
use rcpsp_words::{Live, Workers};
use std::alloc::Global;
use std::thread::Threads;

/// The serial schedule of a list, where no demand is a misfit, booked by so many workers; where that is
/// asked for, the note is told meanwhile how far they have come.
#[tactic(auto, unfolding(crate::specs::Steps::Schedule::scheduled))]
pub(crate) fn scheduled<'n, R: Threads + Sync, N: Sink + Send, G: Gate + Sync>(
    rt: &R,
    alloc: Global,
    list: &'n FeasibleList<'n>,
    workers: &Workers,
    live: &Option<Live>,
    note: &mut N,
    failed: &mut bool,
    gate: &G,
) -> Result<Schedule, Refusal>
    requires { failed.old ≡ false }
    ensures starts { Gives (λ starts. starts) result
        (scheduled list.entry.now.network.project list.entry.now.order) }
    ensures feasible { IfOk result (IsFeasible list.entry.now.network.project) }
    ensures short { IfOk result (λ starts.
        makespan list.entry.now.network.project starts ≤ MAX_HORIZON) }
    ensures fits { IfOk result (λ _. HasNoMisfit list.entry.now.network.project) }
    ensures texts { IfErr result IsOfTexts }
    ensures noted { NotesLive
        (λ _. lines_for live.now (activity_count list.entry.now.network.project)) live.now
        (record {
          held = N.held note.old;
          faults = N.faults note.old;
          failing = N.failing note.old;
          room = N.room note.old;
        })
        (record {
          held = N.held note.new;
          faults = N.faults note.new;
          failing = N.failing note.new;
          room = N.room note.new;
        }) failed.new result }
    ensures failing { N.failing note.new ≡ N.failing note.old }
    ensures room { N.room note.new ≡ N.room note.old }
{
    fitting(list.net().instance())?;
    let schedule = told_serial(rt, alloc, list, workers, live, note, failed, gate)?;
    Ok(schedule)
}
