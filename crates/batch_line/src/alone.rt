//! One file, scheduled alone.
ghost use Rattle.std.specs.Prelude.{◌≡◌, ◌<◌, ◌≤◌, ◌∷◌, [], length, IfOk};
ghost use Rattle.rc_instance.specs.declared.limits.TheConstants.{MAX_FILE_BYTES};
ghost use Rattle.rc_edge.specs.MemFiles.{contents_of, failing_of};
ghost use Rattle.rc_edge.specs.MemSink.{bytes_of, room_of, failing_of as puts_failing};
ghost use Rattle.batch_line.specs.Batch.{alone, CameTo, IsEnding, IsPlainName};

use crate::ran::Ran;
use rc_edge::{MemFiles, MemSink, NoGate};
use rc_instance::Memory;
use rcpsp_run::words::plain_words;
use rcpsp_run::{Status, run};
use std::alloc::Global;
use std::thread::Threads;

// The room for the text of one file, which none passes.
const TEXT_ROOM: usize = 65_536;

// The room for the line of one file, beside its name, which none passes.
const LINE_ROOM: usize = 16_384;

// Runs the words `schedule NAME --workers 1` over this file alone.
pub(crate) fn run_alone<R: Threads + Sync>(
    rt: &R,
    alloc: Global,
    name: &str,
    bytes: &[u8],
) -> Result<Ran, Memory>
    requires plain { IsPlainName name.now }
    requires short { length bytes.now ≤ MAX_FILE_BYTES }
    ensures came { IfOk result (CameTo (alone ((name.now, bytes.now) ∷ []) name.now)) }
    ensures ends { IfOk result (λ ran. IsEnding ran.status) }
{
    let words = plain_words(alloc, name)?;
    let mut files = only_file(alloc, name, bytes)?;
    let mut out = sink(alloc, TEXT_ROOM)?;
    let mut note = sink(alloc, name.len() + LINE_ROOM)?;
    let status = run(rt, alloc, &words, &mut files, &mut out, &mut note, &NoGate);
    let text = taken(alloc, &out)?;
    let line = taken(alloc, &note)?;
    match status {
        Status::Memory => Err(Memory),
        _ => Ok(Ran { status, text, line }),
    }
}

// The bytes that a sink took.
fn taken(alloc: Global, sink: &MemSink) -> Result<Vec<u8>, Memory>
    ensures { IfOk result (λ bytes. bytes.items ≡ bytes_of sink.now) }
{
    let bytes = Vec::from_slice(alloc, sink.bytes())?;
    Ok(bytes)
}

// Files of which there is but this one.
fn only_file(alloc: Global, name: &str, bytes: &[u8]) -> Result<MemFiles, Memory>
    ensures file { IfOk result (λ files. contents_of files ≡ (name.now, bytes.now) ∷ []) }
    ensures failing { IfOk result (λ files. failing_of files ≡ []) }
{
    let mut files = Vec::with_capacity(alloc, 1)?;
    files.push((
        String::from_str(alloc, name)?,
        Vec::from_slice(alloc, bytes)?,
    ))?;
    Ok(MemFiles::new(files, Vec::new(alloc)))
}

// A sink that takes so many bytes.
fn sink(alloc: Global, room: usize) -> Result<MemSink, Memory>
    requires { 0 < room }
    ensures empty { IfOk result (λ sink. bytes_of sink ≡ []) }
    ensures room { IfOk result (λ sink. room_of sink ≡ room) }
    ensures failing { IfOk result (λ sink. puts_failing sink ≡ []) }
{
    let sink = MemSink::new(alloc, room, room, Vec::new(alloc))?;
    Ok(sink)
}
