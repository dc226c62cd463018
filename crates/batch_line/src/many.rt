ghost use Rattle.std.specs.Prelude.{◌≡◌, map, string_bytes, IfNone, IfOk};
ghost use Rattle.rcpsp_words.specs.Many.{many_of};
ghost use Rattle.rcpsp_run.specs.Causes.{Comes};
ghost use Rattle.batch_line.specs.Batch.{IsEnding, names_said, many_outcome};
ghost use Rattle.batch_line.specs.Ending.{IsSaid, IsWritten, RefusesMany};
ghost use Rattle.batch_line.specs.Run.{Promises};
ghost use Rattle.batch_line.specs.Runs.{joined_view};

use crate::batch::batch;
use crate::joined::Joined;
use rc_edge::{Files, Gate, Sink, SinkFault, put_all};
use rcpsp_run::{Refusal, Status, tell};
use rcpsp_words::read_many;
use std::alloc::Global;
use std::sync::Wait;
use std::thread::Threads;

/// Schedules each of the files that the words name, alone, and writes what they come to in order of the names.
///
/// The words are from 1 to 100 names and `--workers`, from 1 to 64 and else 4, the program's name left out. Of each
/// file `out` gets the line `== NAME`, and then what `schedule NAME --workers 1` writes: its text, or the line of its
/// refusal. The status is that of the first file that is not `Done`. So many workers do the files, each in a thread
/// of its own where one can be made; `gate` is called at `Claimed` with the number of the worker and that of the
/// file, from 0. Words that are not understood, a file that cannot be read or is too large, want of memory, and a
/// write that fails put one line on `note`; but for the last, nothing is put on `out`.
pub fn run_many<R: Threads + Wait + Sync, F: Files, O: Sink, N: Sink, G: Gate + Sync>(
    rt: &R,
    alloc: Global,
    words: &[String],
    files: &mut F,
    out: &mut O,
    note: &mut N,
    gate: &G,
) -> Status
    ensures promises { Promises (map string_bytes words.now)
        (record {
          files = record {
            told = F.told files.old;
            failing = F.failing files.old;
            faults = F.faults files.old;
            long = F.long files.old;
            fetches = F.fetches files.old;
          };
          out = record {
            held = O.held out.old;
            faults = O.faults out.old;
            failing = O.failing out.old;
            room = O.room out.old;
          };
          note = record {
            held = N.held note.old;
            faults = N.faults note.old;
            failing = N.failing note.old;
            room = N.room note.old;
          };
        })
        (record {
          files = record {
            told = F.told files.new;
            failing = F.failing files.new;
            faults = F.faults files.new;
            long = F.long files.new;
            fetches = F.fetches files.new;
          };
          out = record {
            held = O.held out.new;
            faults = O.faults out.new;
            failing = O.failing out.new;
            room = O.room out.new;
          };
          note = record {
            held = N.held note.new;
            faults = N.faults note.new;
            failing = N.failing note.new;
            room = N.room note.new;
          };
        }) result }

    // Where the words are not understood no file is touched.
    ensures unread { IfNone (many_of (map string_bytes words.now)) (files.new ≡ files.old) }
{
    match decide(rt, alloc, words, files, gate) {
        Ok(joined) => write(out, note, &joined),
        Err(refusal) => refuse(alloc, note, &refusal),
    }
}

// What the words and the files come to: the status and the text of all, or the first refusal.
fn decide<R: Threads + Wait + Sync, F: Files, G: Gate + Sync>(
    rt: &R,
    alloc: Global,
    words: &[String],
    files: &mut F,
    gate: &G,
) -> Result<Joined, Refusal>
    ensures comes { Comes joined_view (names_said (many_of (map string_bytes words.now)))
        (many_outcome (map string_bytes words.now))
        (record {
          told = F.told files.old;
          failing = F.failing files.old;
          faults = F.faults files.old;
          long = F.long files.old;
          fetches = F.fetches files.old;
        })
        (record {
          told = F.told files.new;
          failing = F.failing files.new;
          faults = F.faults files.new;
          long = F.long files.new;
          fetches = F.fetches files.new;
        }) result }
    ensures ends { IfOk result (λ joined. IsEnding joined.status) }
    ensures refused { RefusesMany (many_of (map string_bytes words.now)) result }
    ensures unread { IfNone (many_of (map string_bytes words.now)) (files.new ≡ files.old) }
{
    let many = read_many(alloc, words)?;
    batch(rt, alloc, &many.names, many.workers as u32, files, gate)
}

// Puts the text of many files on the output, and answers how the run ends. Where that fails the note is told.
fn write<O: Sink, N: Sink>(out: &mut O, note: &mut N, joined: &Joined) -> Status
    ensures written { IsWritten (joined_view joined.now)
        (record {
          held = O.held out.old;
          faults = O.faults out.old;
          failing = O.failing out.old;
          room = O.room out.old;
        })
        (record {
          held = O.held out.new;
          faults = O.faults out.new;
          failing = O.failing out.new;
          room = O.room out.new;
        })
        (record {
          held = N.held note.old;
          faults = N.faults note.old;
          failing = N.failing note.old;
          room = N.room note.old;
        })
        (record {
          held = N.held note.new;
          faults = N.faults note.new;
          failing = N.failing note.new;
          room = N.room note.new;
        }) result }
    ensures out_failing { O.failing out.new ≡ O.failing out.old }
    ensures out_room { O.room out.new ≡ O.room out.old }
    ensures failing { N.failing note.new ≡ N.failing note.old }
    ensures room { N.room note.new ≡ N.room note.old }
{
    match put_all(out, &joined.text) {
        Ok(()) => joined.status,
        Err(SinkFault::Failed) => {
            tell(note, b"rcpsp: cannot write\n");
            Status::WriteFault
        }
    }
}

// Puts the line of a refusal on the note, and answers how the run ends.
fn refuse<N: Sink>(alloc: Global, note: &mut N, refusal: &Refusal) -> Status
    ensures said { IsSaid refusal.now
        (record {
          held = N.held note.old;
          faults = N.faults note.old;
          failing = N.failing note.old;
          room = N.room note.old;
        })
        (record {
          held = N.held note.new;
          faults = N.faults note.new;
          failing = N.failing note.new;
          room = N.room note.new;
        }) result }
    ensures failing { N.failing note.new ≡ N.failing note.old }
    ensures room { N.room note.new ≡ N.room note.old }
{
    match format!(in alloc; "rcpsp: {refusal}\n") {
        Ok(line) => {
            tell(note, line.as_bytes());
            refusal.status()
        }
        Err(_) => {
            tell(note, b"rcpsp: out of memory\n");
            Status::Memory
        }
    }
}
