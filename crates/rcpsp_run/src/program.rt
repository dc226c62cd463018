ghost use Rattle.std.specs.Prelude.{◌≡◌, ◌≢◌, IfNone, IfOk, IfErr};
ghost use Rattle.std.specs.IoError.{error_kind};
ghost use Rattle.std.specs.declared.io.ErrorKind.TheVariants.{InvalidData};
ghost use Rattle.rcpsp_run.specs.declared.program.Given.TheVariants.{Words, NotText, NoMemory};
ghost use Rattle.rcpsp_run.specs.Program.{options_given, Exits};

use crate::runs::{run, tell};
use crate::status::Status;
use rc_edge::{Files, Gate, Sink};
use std::alloc::Global;
use std::io;
use std::thread::Threads;

/// What the command line gives a program.
#[derive(Debug, Drop)]
pub enum Given {
    /// Its words, the program's name left out.
    Words(Vec<String>),

    /// A word is no UTF-8.
    NotText,

    /// There was no memory for the words.
    NoMemory,
}

impl Given {
    /// What the system gives as the words: `InvalidData` is a word that is no UTF-8, and each other
    /// error is want of memory.
    pub fn of(words: io::Result<Vec<String>>) -> Given
        ensures words { IfOk words (λ words. result ≡ Words words) }
        ensures text { IfErr words (λ error. error_kind error ≡ InvalidData → result ≡ NotText) }
        ensures memory { IfErr words (λ error. error_kind error ≢ InvalidData → result ≡ NoMemory) }
    {
        match words {
            Ok(words) => Given::Words(words),
            Err(error) => match error.kind() {
                io::ErrorKind::InvalidData => Given::NotText,
                _ => Given::NoMemory,
            },
        }
    }
}

/// Does what the command line says, and answers the exit code.
///
/// A word that is no UTF-8 makes words that are not understood. Without memory for the words nothing is said.
pub fn exit_code<R: Threads + Sync, F: Files, O: Sink, N: Sink + Send, G: Gate + Sync>(
    rt: &R,
    alloc: Global,
    given: Given,
    files: &mut F,
    out: &mut O,
    note: &mut N,
    gate: &G,
) -> u8
    ensures exits { Exits given
        (record {
          files = record {
            told = F.told files.old;
            failing = F.failing files.old;
            faults = F.faults files.old;
            long = F.long files.old;
            fetches = F.fetches files.old;
          };
          out = record {
            held = O.held out.old;
            faults = O.faults out.old;
            failing = O.failing out.old;
            room = O.room out.old;
          };
          note = record {
            held = N.held note.old;
            faults = N.faults note.old;
            failing = N.failing note.old;
            room = N.room note.old;
          };
        })
        (record {
          files = record {
            told = F.told files.new;
            failing = F.failing files.new;
            faults = F.faults files.new;
            long = F.long files.new;
            fetches = F.fetches files.new;
          };
          out = record {
            held = O.held out.new;
            faults = O.faults out.new;
            failing = O.failing out.new;
            room = O.room out.new;
          };
          note = record {
            held = N.held note.new;
            faults = N.faults note.new;
            failing = N.failing note.new;
            room = N.room note.new;
          };
        }) (out.new ≡ out.old) result }
    ensures unread { IfNone (options_given given) (files.new ≡ files.old) }
{
    match given {
        Given::Words(words) => run(rt, alloc, &words, files, out, note, gate).code(),
        Given::NotText => {
            tell(note, b"rcpsp: words not understood\n");
            Status::Words.code()
        }
        Given::NoMemory => Status::Memory.code(),
    }
}
