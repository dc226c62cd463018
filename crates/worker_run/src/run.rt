ghost use Rattle.std.specs.Prelude.{◌≡◌, ◌<◌, ◌≤◌, true, false, length, sum, All, MatchOption, IfSome};
ghost use Rattle.rc_instance.specs.Schedule.{serial_schedule};
ghost use Rattle.book_rule.specs.Listed.{count, project_of};
ghost use Rattle.book_table.specs.Passes.{IsFree, AreFresh, all_of};
ghost use Rattle.worker_run.specs.Told.{TellsLooks, TellsRun};
ghost use Rattle.worker_run.specs.Watching.{pass_of};
ghost use Rattle.worker_run.specs.Works.{AllGoOn};

use crate::watch::{Watch, look_on, tell_end};
use crate::work::work_all;
use book_table::{Book, Closed, Pass};
use rc_edge::{Gate, Sink};
use rc_instance::Schedule;
use std::thread::{Threads, join_mut};

/// A closed book, and whether a put on the watch's note failed.
#[derive(Drop)]
pub struct Ran<'n> {
    pub closed: Closed<'n>,
    pub note_failed: bool,
}

/// Lets one worker for each of `passes` book all positions, and closes the book. Nobody watches.
///
/// `passes` are all passes of the book as `open` made them, and `known` is the serial schedule of its
/// list. Each worker draws tickets, searches their positions ahead and offers what it finds, and books
/// what is due at its known start; one that is alone only books. The last works in the caller's thread,
/// and the others in threads that one of them starts, if there is something to book by then. The gate is
/// called at `Searched` after each search ahead, and at the points of `advance_known`. No memory is
/// taken.
pub fn book_all<'n, R: Threads + Sync, G: Gate + Sync>(
    rt: &R,
    book: Book<'n>,
    passes: Vec<Pass>,
    known: &Schedule,
    gate: &G,
) -> Closed<'n>
    requires fresh { AreFresh book passes.items }
    requires some { 0 < length passes.items }
    requires known { known.now
        ≡ serial_schedule (project_of book.listing) book.listing.order }
    ensures listing { result.listing ≡ book.entry.listing }
    ensures booked { length result.booked ≡ book.entry.passes }
    ensures sum { sum result.booked ≡ count book.entry.listing }
{
    let mut passes = passes;
    work_all(rt, &book, known, gate, &mut passes);
    book.close(passes, None)
}

/// The same beside a watch, where there is one: it looks at the book meanwhile, and tells on `note`
/// how far it has come.
///
/// `passes` and the watch's pass, in that order, are all passes of the book as `open` made them.
/// The watch puts as many lines `booked C of N` as it has looks, C never falling, and after the work
/// the line with C = N; after a put that failed nothing more is put. `note_failed` says whether one
/// did: then the note's count of faults rose, and else all lines were put whole. No memory is taken.
pub fn run_book<'n, R: Threads + Sync, G: Gate + Sync, N: Sink + Send>(
    rt: &R,
    book: Book<'n>,
    passes: Vec<Pass>,
    known: &Schedule,
    gate: &G,
    watch: Option<Watch>,
    note: &mut N,
) -> Ran<'n>
    requires fresh { AreFresh book (all_of passes.items (pass_of watch)) }
    requires some { 0 < length passes.items }
    requires room { IfSome watch (λ watch. count book.listing ≤ length watch.out.items) }
    requires known { known.now
        ≡ serial_schedule (project_of book.listing) book.listing.order }
    ensures listing { result.closed.listing ≡ book.entry.listing }
    ensures booked { length result.closed.booked ≡ book.entry.passes }
    ensures sum { sum result.closed.booked ≡ count book.entry.listing }
    ensures told { MatchOption watch ((note.new ≡ note.old) × (result.note_failed ≡ false))
        (λ watch. TellsRun (count book.entry.listing) watch.times (N.faults note.old)
        (N.faults note.new) (N.held note.old) (N.held note.new) result.note_failed) }
    ensures failing { N.failing note.new ≡ N.failing note.old }
    ensures left { N.room note.new ≡ N.room note.old }
{
    let Some(watch) = watch else {
        return Ran {
            closed: book_all(rt, book, passes, known, gate),
            note_failed: false,
        };
    };
    let mut passes = passes;
    let Watch {
        mut pass,
        times,
        mut out,
    } = watch;
    let positions = book.positions();
    let failed = work_and_look_on(
        rt,
        &book,
        known,
        gate,
        &mut passes,
        &mut pass,
        times,
        &mut out,
        note,
    );
    let note_failed = tell_end(note, failed, positions);
    Ran {
        closed: book.close(passes, Some(pass)),
        note_failed,
    }
}

// The workers, and beside them the watch. The answer is whether a put on the note failed.
fn work_and_look_on<R: Threads + Sync, G: Gate + Sync, N: Sink + Send>(
    rt: &R,
    book: &Book<'_>,
    known: &Schedule,
    gate: &G,
    passes: &mut Vec<Pass>,
    pass: &mut Pass,
    times: u32,
    out: &mut [u32],
    note: &mut N,
) -> bool
    requires workers { All (IsFree book.now) passes.old.items }
    requires watch { IsFree book.now pass.old }
    requires room { count book.now.listing ≤ length out.old }
    requires known { known.now
        ≡ serial_schedule (project_of book.now.listing) book.now.listing.order }
    ensures workers { All (IsFree book.now) passes.new.items }
    ensures rest { All (λ pass. pass.view.resting ≡ true) passes.new.items }
    ensures go { AllGoOn passes.old.items passes.new.items }
    ensures long { length passes.new.items ≡ length passes.old.items }
    ensures watch { IsFree book.now pass.new }
    ensures number { pass.new.view.number ≡ pass.old.view.number }
    ensures rests { pass.old.view.resting ≡ true → pass.new.view.resting ≡ true }
    ensures told { TellsLooks (count book.now.listing) times (N.faults note.old) (N.faults note.new)
        (N.held note.old) (N.held note.new) result }
    ensures failing { N.failing note.new ≡ N.failing note.old }
    ensures left { N.room note.new ≡ N.room note.old }
{
    let (_, failed) = join_mut(
        rt,
        &mut ||
            requires workers { All (IsFree book.now) passes.now.items }
            requires known { known.now
                ≡ serial_schedule (project_of book.now.listing) book.now.listing.order }
        { work_all(rt, book, known, gate, passes) },
        &mut || look_on(book, pass, times, out, note),
    );
    failed
}
