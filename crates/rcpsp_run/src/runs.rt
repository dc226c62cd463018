ghost use Rattle.std.specs.Prelude.{◌≡◌, false, map, string_bytes, IfNone, IfOk, IsSomeAnd};
ghost use Rattle.rcpsp_words.specs.Words.{options_of};
ghost use Rattle.rcpsp_run.specs.Answer.{answer_view};
ghost use Rattle.rcpsp_run.specs.Causes.{Comes, RefusesWords};
ghost use Rattle.rcpsp_run.specs.Commands.{IsPrintedBy};
ghost use Rattle.rcpsp_run.specs.Outcome.{outcome, names_of};
ghost use Rattle.rcpsp_run.specs.Ending.{TellsUnless, IsWritten, IsSaid};
ghost use Rattle.rcpsp_run.specs.Live.{asked_by, NotesLive};
ghost use Rattle.rcpsp_run.specs.Run.{Promises, Unwritten};
ghost use Rattle.rcpsp_run.specs.Sinks.{Tells};

use crate::answer::Answer;
use crate::commands::carry_out;
use crate::refusal::Refusal;
use crate::status::Status;
use rc_edge::{Files, Gate, Sink, SinkFault, put_all};
use rcpsp_words::read_words;
use std::alloc::Global;
use std::thread::Threads;

/// Does what the words say, and answers how it ended.
///
/// It reads the words, fetches the files, reads the texts, and puts the output on `out` once all of it is made;
/// a refusal puts one line on `note`, and nothing on `out`. Serial schedules are booked by the workers that the
/// words ask for, each in a thread of its own where one can be made; the gate is called at their points. Where the
/// words ask for it, lines on `note` tell meanwhile how far the workers have come; once a put on `note` has failed
/// nothing more is put on it, and the run ends with a write fault, the output whole.
pub fn run<R: Threads + Sync, F: Files, O: Sink, N: Sink + Send, G: Gate + Sync>(
    rt: &R,
    alloc: Global,
    words: &[String],
    files: &mut F,
    out: &mut O,
    note: &mut N,
    gate: &G,
) -> Status
    ensures promises { Promises (map string_bytes words.now)
        (record {
          files = record {
            told = F.told files.old;
            failing = F.failing files.old;
            faults = F.faults files.old;
            long = F.long files.old;
            fetches = F.fetches files.old;
          };
          out = record {
            held = O.held out.old;
            faults = O.faults out.old;
            failing = O.failing out.old;
            room = O.room out.old;
          };
          note = record {
            held = N.held note.old;
            faults = N.faults note.old;
            failing = N.failing note.old;
            room = N.room note.old;
          };
        })
        (record {
          files = record {
            told = F.told files.new;
            failing = F.failing files.new;
            faults = F.faults files.new;
            long = F.long files.new;
            fetches = F.fetches files.new;
          };
          out = record {
            held = O.held out.new;
            faults = O.faults out.new;
            failing = O.failing out.new;
            room = O.room out.new;
          };
          note = record {
            held = N.held note.new;
            faults = N.faults note.new;
            failing = N.failing note.new;
            room = N.room note.new;
          };
        }) result }

    // Where the words are not understood no file is touched, and without an output `out` is not.
    ensures unread { IfNone (options_of (map string_bytes words.now)) (files.new ≡ files.old) }
    ensures unwritten { Unwritten (out.new ≡ out.old) result }
{
    let mut failed = false;
    match decide(rt, alloc, words, files, note, &mut failed, gate) {
        Ok(answer) => write(out, note, failed, &answer),
        Err(refusal) => refuse(alloc, note, failed, &refusal),
    }
}

// What the words and the files come to: the text of the output, or the first refusal. `failed` becomes true where a
// put on the note failed meanwhile.
fn decide<R: Threads + Sync, F: Files, N: Sink + Send, G: Gate + Sync>(
    rt: &R,
    alloc: Global,
    words: &[String],
    files: &mut F,
    note: &mut N,
    failed: &mut bool,
    gate: &G,
) -> Result<Answer, Refusal>
    requires { failed.old ≡ false }
    ensures comes { Comes answer_view (names_of (options_of (map string_bytes words.now)))
        (outcome (map string_bytes words.now))
        (record {
          told = F.told files.old;
          failing = F.failing files.old;
          faults = F.faults files.old;
          long = F.long files.old;
          fetches = F.fetches files.old;
        })
        (record {
          told = F.told files.new;
          failing = F.failing files.new;
          faults = F.faults files.new;
          long = F.long files.new;
          fetches = F.fetches files.new;
        }) result }
    ensures printed { IfOk result (λ answer. IsSomeAnd (options_of (map string_bytes words.now))
        (λ options. IsPrintedBy options.command (answer_view answer))) }
    ensures words { RefusesWords (options_of (map string_bytes words.now)) result }
    ensures noted { NotesLive (λ answer. (answer_view answer).live) (asked_by (options_of (map string_bytes words.now)))
        (record {
          held = N.held note.old;
          faults = N.faults note.old;
          failing = N.failing note.old;
          room = N.room note.old;
        })
        (record {
          held = N.held note.new;
          faults = N.faults note.new;
          failing = N.failing note.new;
          room = N.room note.new;
        }) failed.new result }
    ensures failing { N.failing note.new ≡ N.failing note.old }
    ensures room { N.room note.new ≡ N.room note.old }
    ensures unread { IfNone (options_of (map string_bytes words.now)) (files.new ≡ files.old) }
{
    let options = read_words(alloc, words)?;
    carry_out(rt, alloc, &options.command, files, note, failed, gate)
}

// Puts the text of an answer on the output, and answers how the run ends. Where that fails the note is told.
fn write<O: Sink, N: Sink>(out: &mut O, note: &mut N, failed: bool, answer: &Answer) -> Status
    ensures written { IsWritten (answer_view answer.now) failed
        (record {
          held = O.held out.old;
          faults = O.faults out.old;
          failing = O.failing out.old;
          room = O.room out.old;
        })
        (record {
          held = O.held out.new;
          faults = O.faults out.new;
          failing = O.failing out.new;
          room = O.room out.new;
        })
        (record {
          held = N.held note.old;
          faults = N.faults note.old;
          failing = N.failing note.old;
          room = N.room note.old;
        })
        (record {
          held = N.held note.new;
          faults = N.faults note.new;
          failing = N.failing note.new;
          room = N.room note.new;
        }) result }
    ensures out_failing { O.failing out.new ≡ O.failing out.old }
    ensures out_room { O.room out.new ≡ O.room out.old }
    ensures failing { N.failing note.new ≡ N.failing note.old }
    ensures room { N.room note.new ≡ N.room note.old }
{
    match put_all(out, &answer.text) {
        Ok(()) => answer.status(failed),
        Err(SinkFault::Failed) => {
            tell_unless(failed, note, b"rcpsp: cannot write\n");
            Status::WriteFault
        }
    }
}

// Puts the line of a refusal on the note, and answers how the run ends.
fn refuse<N: Sink>(alloc: Global, note: &mut N, failed: bool, refusal: &Refusal) -> Status
    ensures said { IsSaid refusal.now failed
        (record {
          held = N.held note.old;
          faults = N.faults note.old;
          failing = N.failing note.old;
          room = N.room note.old;
        })
        (record {
          held = N.held note.new;
          faults = N.faults note.new;
          failing = N.failing note.new;
          room = N.room note.new;
        }) result }
    ensures failing { N.failing note.new ≡ N.failing note.old }
    ensures room { N.room note.new ≡ N.room note.old }
{
    match format!(in alloc; "rcpsp: {refusal}\n") {
        Ok(line) => {
            tell_unless(failed, note, line.as_bytes());
            refusal.status()
        }
        Err(_) => {
            tell_unless(failed, note, b"rcpsp: out of memory\n");
            Status::Memory
        }
    }
}

// Puts a line on the note, unless a put on it failed before.
fn tell_unless<N: Sink>(failed: bool, note: &mut N, line: &[u8])
    ensures tells { TellsUnless failed
        (record {
          held = N.held note.old;
          faults = N.faults note.old;
          failing = N.failing note.old;
          room = N.room note.old;
        })
        (record {
          held = N.held note.new;
          faults = N.faults note.new;
          failing = N.failing note.new;
          room = N.room note.new;
        }) line.now }
    ensures failing { N.failing note.new ≡ N.failing note.old }
    ensures room { N.room note.new ≡ N.room note.old }
{
    if failed {
        return;
    }
    tell(note, line);
}

/// Puts a line on the note; where that fails, the status stays.
pub fn tell<N: Sink>(note: &mut N, line: &[u8])
    ensures tells { Tells
        (record {
          held = N.held note.old;
          faults = N.faults note.old;
          failing = N.failing note.old;
          room = N.room note.old;
        })
        (record {
          held = N.held note.new;
          faults = N.faults note.new;
          failing = N.failing note.new;
          room = N.room note.new;
        }) line.now }
    ensures failing { N.failing note.new ≡ N.failing note.old }
    ensures room { N.room note.new ≡ N.room note.old }
{
    let _ = put_all(note, line);
}
