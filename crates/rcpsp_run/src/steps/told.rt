ghost use Rattle.std.specs.Prelude.{◌≡◌, ◌≤◌, false, IfOk, OnOk, OnErr};
ghost use Rattle.rc_instance.specs.declared.limits.TheConstants.{MAX_HORIZON};
ghost use Rattle.rc_instance.specs.Misfit.{HasNoMisfit};
ghost use Rattle.rc_instance.specs.Project.{activity_count};
ghost use Rattle.rc_instance.specs.Schedule.{makespan, serial_schedule, IsFeasible};
ghost use Rattle.rcpsp_run.specs.Live.{lines_for, TakesLive};

use crate::answer::LiveLines;
use crate::steps::live::live_serial;
use crate::steps::serial::serial_of;
use activity_net::FeasibleList;
use rc_edge::{Gate, Sink};
use rc_instance::{Memory, Schedule};
use rcpsp_words::{Live, Workers};
use std::alloc::Global;
use std::thread::Threads;

/// The serial schedule of a list, of an instance without a misfit, booked by so many workers; where that
/// is asked for, the note is told meanwhile how far they have come. Where a put on it failed, `failed`
/// becomes true. Without memory nothing is told.
pub(crate) fn told_serial<'n, R: Threads + Sync, N: Sink + Send, G: Gate + Sync>(
    rt: &R,
    alloc: Global,
    list: &'n FeasibleList<'n>,
    workers: &Workers,
    live: &Option<Live>,
    note: &mut N,
    failed: &mut bool,
    gate: &G,
) -> Result<Schedule, Memory>
    requires fits { HasNoMisfit list.now.network.project }
    requires well { failed.old ≡ false }
    ensures starts { IfOk result (λ starts.
        starts ≡ serial_schedule list.entry.now.network.project list.entry.now.order) }
    ensures feasible { IfOk result (IsFeasible list.entry.now.network.project) }
    ensures short { IfOk result (λ starts.
        makespan list.entry.now.network.project starts ≤ MAX_HORIZON) }
    ensures told { OnOk result
        (TakesLive (lines_for live.now (activity_count list.entry.now.network.project))
        (record {
          held = N.held note.old;
          faults = N.faults note.old;
          failing = N.failing note.old;
          room = N.room note.old;
        })
        (record {
          held = N.held note.new;
          faults = N.faults note.new;
          failing = N.failing note.new;
          room = N.room note.new;
        }) failed.new) }
    ensures kept { OnErr result ((note.new ≡ note.old) × (failed.new ≡ false)) }
    ensures failing { N.failing note.new ≡ N.failing note.old }
    ensures room { N.room note.new ≡ N.room note.old }
{
    match live {
        None => serial_of(rt, alloc, list, workers, gate),
        Some(live) => live_serial(rt, alloc, list, workers, live, note, failed, gate),
    }
}

/// So many lines as are asked for, of so many positions.
pub(crate) fn lines_for(asked: &Option<Live>, positions: u32) -> Option<LiveLines>
    ensures { result ≡ lines_for asked.now positions }
{
    let Some(live) = asked else {
        return None;
    };
    let times = live.times();
    Some(LiveLines { times, positions })
}
