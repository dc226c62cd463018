ghost use Rattle.std.specs.Prelude.{◌≡◌, IfNone};
ghost use Rattle.batch_line.specs.Program.{many_given, Exits};

use crate::many::run_many;
use rc_edge::{Files, Gate, Sink};
use rcpsp_run::{Given, Status, tell};
use std::alloc::Global;
use std::sync::Wait;
use std::thread::Threads;

/// Does what the command line says of many files, and answers the exit code.
///
/// A word that is no UTF-8 makes words that are not understood. Without memory for the words nothing is said.
pub fn exit_code<R: Threads + Wait + Sync, F: Files, O: Sink, N: Sink, G: Gate + Sync>(
    rt: &R,
    alloc: Global,
    given: Given,
    files: &mut F,
    out: &mut O,
    note: &mut N,
    gate: &G,
) -> u8
    ensures exits { Exits given
        (record {
          files = record {
            told = F.told files.old;
            failing = F.failing files.old;
            faults = F.faults files.old;
            long = F.long files.old;
            fetches = F.fetches files.old;
          };
          out = record {
            held = O.held out.old;
            faults = O.faults out.old;
            failing = O.failing out.old;
            room = O.room out.old;
          };
          note = record {
            held = N.held note.old;
            faults = N.faults note.old;
            failing = N.failing note.old;
            room = N.room note.old;
          };
        })
        (record {
          files = record {
            told = F.told files.new;
            failing = F.failing files.new;
            faults = F.faults files.new;
            long = F.long files.new;
            fetches = F.fetches files.new;
          };
          out = record {
            held = O.held out.new;
            faults = O.faults out.new;
            failing = O.failing out.new;
            room = O.room out.new;
          };
          note = record {
            held = N.held note.new;
            faults = N.faults note.new;
            failing = N.failing note.new;
            room = N.room note.new;
          };
        }) result }
    ensures unread { IfNone (many_given given) (files.new ≡ files.old) }
{
    match given {
        Given::Words(words) => run_many(rt, alloc, &words, files, out, note, gate).code(),
        Given::NotText => {
            tell(note, b"rcpsp: words not understood\n");
            Status::Words.code()
        }
        Given::NoMemory => Status::Memory.code(),
    }
}
