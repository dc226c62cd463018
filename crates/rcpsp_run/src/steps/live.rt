ghost use Rattle.std.specs.Prelude.{◌≡◌, ◌∷◌, ◌++◌, ◌<◌, ◌≤◌, [], false, length, IfOk, OnOk, OnErr};
ghost use Rattle.rc_instance.specs.declared.limits.TheConstants.{MAX_HORIZON};
ghost use Rattle.rc_instance.specs.Misfit.{HasNoMisfit};
ghost use Rattle.rc_instance.specs.Project.{activity_count};
ghost use Rattle.rc_instance.specs.Schedule.{makespan, serial_schedule, IsFeasible};
ghost use Rattle.book_table.specs.Passes.{AreFresh};
ghost use Rattle.worker_run.specs.Told.{TellsRun};

use crate::steps::serial::{known_serial, schedule_in};
use activity_net::FeasibleList;
use book_table::{Book, Pass};
use rc_edge::{Gate, Sink};
use rc_instance::{Memory, Schedule};
use rcpsp_words::{Live, Workers};
use std::alloc::Global;
use std::thread::Threads;
use worker_run::{Watch, run_book};

/// The serial schedule of a list, of an instance without a misfit, booked by so many workers, while the note
/// is told so often how far they have come, and at last that all is booked. Where a put on it failed,
/// `failed` becomes true. Without memory nothing is told.
pub(crate) fn live_serial<'n, R: Threads + Sync, N: Sink + Send, G: Gate + Sync>(
    rt: &R,
    alloc: Global,
    list: &'n FeasibleList<'n>,
    workers: &Workers,
    live: &Live,
    note: &mut N,
    failed: &mut bool,
    gate: &G,
) -> Result<Schedule, Memory>
    requires fits { HasNoMisfit list.now.network.project }
    requires well { failed.old ≡ false }
    ensures starts { IfOk result (λ starts.
        starts ≡ serial_schedule list.entry.now.network.project list.entry.now.order) }
    ensures feasible { IfOk result (IsFeasible list.entry.now.network.project) }
    ensures short { IfOk result (λ starts.
        makespan list.entry.now.network.project starts ≤ MAX_HORIZON) }
    ensures told { OnOk result
        (TellsRun (activity_count list.entry.now.network.project) live.now (N.faults note.old)
        (N.faults note.new) (N.held note.old) (N.held note.new) failed.new) }
    ensures kept { OnErr result ((note.new ≡ note.old) × (failed.new ≡ false)) }
    ensures failing { N.failing note.new ≡ N.failing note.old }
    ensures room { N.room note.new ≡ N.room note.old }
{
    let activities = list.net().instance().count();
    let workers = workers.count().min(activities);
    let known = known_serial(alloc, list)?;
    let (book, passes, watch) = watched_book(alloc, list, workers, live)?;
    let ran = run_book(rt, book, passes, &known, gate, Some(watch), note);
    *failed = ran.note_failed;
    Ok(schedule_in(list, ran.closed))
}

// A new book of a list with a pass for each of so many workers, and a watch that looks so often.
fn watched_book<'n>(
    alloc: Global,
    list: &'n FeasibleList<'n>,
    workers: u32,
    live: &Live,
) -> Result<(Book<'n>, Vec<Pass>, Watch), Memory>
    requires fits { HasNoMisfit list.now.network.project }
    requires workers { (1 ≤ workers) × (workers ≤ 64) }
    ensures listing { IfOk result (λ opened. opened.0.listing ≡ list.entry.now) }
    ensures fresh { IfOk result (λ opened.
        AreFresh opened.0 (opened.1.items ++ opened.2.pass ∷ [])) }
    ensures some { IfOk result (λ opened. 0 < length opened.1.items) }
    ensures times { IfOk result (λ opened. opened.2.times ≡ live.now) }
    ensures room { IfOk result (λ opened. length opened.0.listing.order ≤ length opened.2.out.items) }
{
    let (book, mut passes) = Book::open(alloc, list, workers + 1)?;
    let out = vec![in alloc; 0; book.positions() as usize]?;
    let Some(pass) = passes.pop() else {
        unreachable!()
    };
    let times = live.times();
    Ok((book, passes, Watch { pass, times, out }))
}
