ghost use Rattle.std.specs.Prelude.{◌≡◌, ◌≤◌, true, false, length};
ghost use Rattle.book_rule.specs.Listed.{IsBookable, count};
ghost use Rattle.book_table.specs.Passes.{IsFree};
ghost use Rattle.worker_run.specs.Lines.{report_line};
ghost use Rattle.worker_run.specs.Told.{Takes, TellsLooks};

use crate::line::tell;
use book_table::{Book, Pass};
use rc_edge::Sink;
use report_reader::report;

/// Who looks at a book while others book, and tells how far it has come.
#[derive(Drop)]
pub struct Watch {
    pub pass: Pass,
    /// How many times it looks while the others work.
    pub times: u32,
    /// Room for a start of each position.
    pub out: Vec<u32>,
}

// Looks so many times, and puts a line on the note each time, until a put fails. The answer is
// whether one failed.
pub(crate) fn look_on<N: Sink>(
    book: &Book<'_>,
    pass: &mut Pass,
    times: u32,
    out: &mut [u32],
    note: &mut N,
) -> bool
    requires own { IsFree book.now pass.old }
    requires room { count book.now.listing ≤ length out.old }
    ensures own { IsFree book.now pass.new }
    ensures number { pass.new.view.number ≡ pass.old.view.number }
    ensures rests { pass.old.view.resting ≡ true → pass.new.view.resting ≡ true }
    ensures told { TellsLooks (count book.now.listing) times (N.faults note.old) (N.faults note.new)
        (N.held note.old) (N.held note.new) result }
    ensures failing { N.failing note.new ≡ N.failing note.old }
    ensures left { N.room note.new ≡ N.room note.old }
{
    let positions = book.positions();
    for _look in 0..times {
        let complete = report(book, pass, out);
        if tell(note, positions, complete) {
            return true;
        }
    }
    false
}

// Tells at last that all is booked, if no put has failed. The answer is whether one has.
pub(crate) fn tell_end<N: Sink>(note: &mut N, failed: bool, positions: u32) -> bool
    requires { positions ≤ 1000 }
    ensures still { failed ≡ true → (result ≡ true) × (note.new ≡ note.old) }
    ensures last { failed ≡ false → Takes (N.faults note.old) (N.faults note.new) (N.held note.old)
        (N.held note.new) result (report_line positions positions) }
    ensures failing { N.failing note.new ≡ N.failing note.old }
    ensures left { N.room note.new ≡ N.room note.old }
{
    if failed {
        return true;
    }
    tell(note, positions, positions)
}
