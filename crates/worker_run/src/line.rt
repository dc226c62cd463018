ghost use Rattle.std.specs.Prelude.{◌≡◌, ◌≤◌};
ghost use Rattle.rc_edge.specs.Sink.{Gains};
ghost use Rattle.worker_run.specs.Lines.{report_line};
ghost use Rattle.worker_run.specs.Told.{Takes};

use arrayvec::ArrayString;
use itoa::Buffer;
use rc_edge::{Sink, put_all};

// The longest line is `booked 1000 of 1000`, with its line end.
const LINE: usize = 20;

// The line that so many positions are booked.
fn line_of(positions: u32, complete: u32) -> ArrayString<LINE>
    requires positions { positions ≤ 1000 }
    requires complete { complete ≤ positions }
    ensures { result.bytes ≡ report_line positions complete }
{
    let mut number = Buffer::new();
    let mut line = ArrayString::new();
    line.push_str("booked ");
    line.push_str(number.format(complete));
    line.push_str(" of ");
    line.push_str(number.format(positions));
    line.push_str("\n");
    line
}

// Puts that line on the note, and answers whether a put failed.
pub(crate) fn tell<N: Sink>(note: &mut N, positions: u32, complete: u32) -> bool
    requires positions { positions ≤ 1000 }
    requires complete { complete ≤ positions }
    ensures taken { Takes (N.faults note.old) (N.faults note.new) (N.held note.old)
        (N.held note.new) result (report_line positions complete) }
    ensures failing { N.failing note.new ≡ N.failing note.old }
    ensures room { N.room note.new ≡ N.room note.old }
{
    let line = line_of(positions, complete);
    put_all(note, line.as_str().as_bytes()).is_err()
}
