ghost use Rattle.std.specs.Prelude.{◌≡◌, ◌+◌, ◌<◌, ◌≤◌, true, length, All};
ghost use Rattle.rc_instance.specs.Schedule.{serial_schedule};
ghost use Rattle.book_rule.specs.Listed.{count, project_of};
ghost use Rattle.book_table.specs.Passes.{IsFree};
ghost use Rattle.worker_run.specs.Works.{GoesOn, DrawsNone, DrawsAll, AllGoOn};

use book_table::{Book, Pass};
use ordered_book::advance_known;
use rc_edge::{Gate, Point};
use rc_instance::Schedule;
use spec_search::{Guess, draw, offer, speculate};
use std::thread;
use std::thread::{Threads, join_mut};

// Searches a position ahead, and offers what was found.
fn search_ahead<G: Gate>(book: &Book<'_>, pass: &mut Pass, position: u32, gate: &G)
    requires own { IsFree book.now pass.old }
    requires position { position < count book.now.listing }
    ensures own { IsFree book.now pass.new }
    ensures draws { DrawsNone pass.old.view pass.new.view }
{
    let guess = speculate(book, pass, position);
    gate.at(pass.number(), Point::Searched, position);
    if let Guess::Found { start, .. } = guess {
        offer(book, pass, position, start);
    }
}

// Searches the position of each ticket ahead, and books what is due, until a ticket is past the
// list.
//
// The tickets of a book wrap after so many that no run draws them; a worker ends its rounds all the
// same once it has drawn one more than there are positions.
fn search_and_book<G: Gate>(book: &Book<'_>, pass: &mut Pass, known: &Schedule, gate: &G)
    requires own { IsFree book.now pass.old }
    requires known { known.now
        ≡ serial_schedule (project_of book.now.listing) book.now.listing.order }
    ensures own { IsFree book.now pass.new }
    ensures draws { DrawsAll book.now.listing pass.old.view pass.new.view }
{
    for _round in 0..book.positions() + 1 {
        let Some(position) = draw(book, pass) else {
            return;
        };
        search_ahead(book, pass, position, gate);
        advance_known(book, pass, known, gate);
    }
}

// The work of one pass: at the end it rests. One that is alone only books, since a search ahead would
// help nobody else.
fn work<G: Gate>(book: &Book<'_>, pass: &mut Pass, known: &Schedule, alone: bool, gate: &G)
    requires own { IsFree book.now pass.old }
    requires known { known.now
        ≡ serial_schedule (project_of book.now.listing) book.now.listing.order }
    ensures own { IsFree book.now pass.new }
    ensures rests { pass.new.view.resting ≡ true }
    ensures goes { GoesOn pass.old.view pass.new.view }
{
    if !alone {
        search_and_book(book, pass, known, gate);
    }
    advance_known(book, pass, known, gate);
}

// The work of all passes: the last in this thread, and the others beside it.
pub(crate) fn work_all<R: Threads + Sync, G: Gate + Sync>(
    rt: &R,
    book: &Book<'_>,
    known: &Schedule,
    gate: &G,
    passes: &mut Vec<Pass>,
)
    requires own { All (IsFree book.now) passes.old.items }
    requires known { known.now
        ≡ serial_schedule (project_of book.now.listing) book.now.listing.order }
    ensures own { All (IsFree book.now) passes.new.items }
    ensures rest { All (λ pass. pass.view.resting ≡ true) passes.new.items }
    ensures go { AllGoOn passes.old.items passes.new.items }
    ensures long { length passes.new.items ≡ length passes.old.items }
{
    let Some(mut last) = passes.pop() else {
        return;
    };
    work_beside(rt, book, known, gate, passes, &mut last);
    passes.push_reserved(last);
}

// The work of a pass in this thread, and of the others, if there are any, beside it. One thread is started
// before the pass begins, and starts the rest, so that who books is not kept by them.
fn work_beside<R: Threads + Sync, G: Gate + Sync>(
    rt: &R,
    book: &Book<'_>,
    known: &Schedule,
    gate: &G,
    others: &mut [Pass],
    pass: &mut Pass,
)
    requires others { All (IsFree book.now) others.old }
    requires own { IsFree book.now pass.old }
    requires known { known.now
        ≡ serial_schedule (project_of book.now.listing) book.now.listing.order }
    ensures others { All (IsFree book.now) others.new }
    ensures rest { All (λ pass. pass.view.resting ≡ true) others.new }
    ensures go { AllGoOn others.old others.new }
    ensures own { IsFree book.now pass.new }
    ensures rests { pass.new.view.resting ≡ true }
    ensures goes { GoesOn pass.old.view pass.new.view }
{
    if others.is_empty() {
        work(book, pass, known, true, gate);
        return;
    }
    join_mut(
        rt,
        &mut ||
            requires others { All (IsFree book.now) others.now }
            requires known { known.now
                ≡ serial_schedule (project_of book.now.listing) book.now.listing.order }
        { work_others(rt, book, known, gate, others) },
        &mut ||
            requires own { IsFree book.now pass.now }
            requires known { known.now
                ≡ serial_schedule (project_of book.now.listing) book.now.listing.order }
        { work(book, pass, known, false, gate) },
    );
}

// The work of the others, each in a thread of its own. Once all is booked no thread is started: they only
// find that out, one after another.
fn work_others<R: Threads + Sync, G: Gate + Sync>(
    rt: &R,
    book: &Book<'_>,
    known: &Schedule,
    gate: &G,
    passes: &mut [Pass],
)
    requires own { All (IsFree book.now) passes.old }
    requires known { known.now
        ≡ serial_schedule (project_of book.now.listing) book.now.listing.order }
    ensures own { All (IsFree book.now) passes.new }
    ensures rest { All (λ pass. pass.view.resting ≡ true) passes.new }
    ensures go { AllGoOn passes.old passes.new }
{
    let threads = if is_complete(book, passes) {
        1
    } else {
        passes.len().max(1)
    };
    thread::for_each_mut(
        rt,
        passes,
        threads,
        &|_, pass: &mut Pass| { work(book, pass, known, false, gate) },
    );
}

// Whether all positions are booked, as the first of some passes sees.
fn is_complete(book: &Book<'_>, passes: &mut [Pass]) -> bool
    requires own { All (IsFree book.now) passes.old }
    ensures own { All (IsFree book.now) passes.new }
    ensures go { AllGoOn passes.old passes.new }
{
    if passes.is_empty() {
        return true;
    }
    book.load_turn(&mut passes[0]) == 2 * u64::from(book.positions())
}
