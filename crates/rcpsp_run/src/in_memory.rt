// A caller of `run` that rests on its promises.
ghost use Rattle.std.specs.Prelude.{◌≡◌, ◌⊎◌, ◌<◌, length, map, string_bytes, IfOk};
ghost use Rattle.rc_edge.specs.Files.{pairs_of};
ghost use Rattle.rcpsp_run.specs.declared.status.Status.TheVariants.{Memory as OutOfMemory};
ghost use Rattle.rcpsp_run.specs.Answer.{ending};
ghost use Rattle.rcpsp_run.specs.Live.{HasRoomFor};
ghost use Rattle.rcpsp_run.specs.Outcome.{outcome};

use crate::runs::run;
use crate::status::Status;
use rc_edge::{MemFiles, MemSink, NoGate};
use rc_instance::Memory;
use std::alloc::Global;
use std::thread::Threads;

/// A run over files, an output and a note in memory, of which no fetch and no put is to fail.
///
/// Where the words and the files come to an answer, the output has room for more than its text, and the
/// 30,000 bytes of the note are more than what `--live` asks for, the run ends as the answer says, with
/// `Done` or `Violated`, or memory runs out.
pub fn run_in_memory<R: Threads + Sync>(
    rt: &R,
    alloc: Global,
    words: &[String],
    files: Vec<(String, Vec<u8>)>,
    room: usize,
) -> Result<Status, Memory>
    ensures { IfOk result (λ status.
        IfOk (outcome (map string_bytes words.now) (pairs_of files.items))
        (λ answer. length answer.text < room → HasRoomFor answer.live 30000
        → (status ≡ ending answer) ⊎ (status ≡ OutOfMemory))) }
{
    let mut files = MemFiles::new(files, Vec::new(alloc));
    let mut out = MemSink::new(alloc, room, 4096, Vec::new(alloc))?;
    let mut note = MemSink::new(alloc, 30_000, 30_000, Vec::new(alloc))?;
    Ok(run(rt, alloc, words, &mut files, &mut out, &mut note, &NoGate))
}
