// Runs whose files, output and note are made for them, to be cut or to fail.
use crate::case::{Ran, file, text_of, words_of};
use crate::fixtures::SIX;
use rc_edge::{Gate, MemFiles, MemSink};
use rcpsp_run::run;
use std::alloc::Global;
use std::process::Abort;
use std::test::*;
use std::thread::Threads;

// Runs the words of a line over these ends, and answers what the output and the note then hold.
pub(crate) fn run_over<G: Gate + Sync>(
    rt: &(impl Threads + Sync),
    alloc: Global,
    line: &str,
    files: MemFiles,
    out: MemSink,
    note: MemSink,
    gate: &G,
) -> Result<Ran, Fail> {
    let words = words_of(alloc, line)?;
    let mut files = files;
    let mut out = out;
    let mut note = note;
    let status = run(rt, alloc, &words, &mut files, &mut out, &mut note, gate).code();
    Ok(Ran {
        status,
        out: text_of(alloc, out.bytes())?,
        note: text_of(alloc, note.bytes())?,
    })
}

// The six activities and a list of them, of which some fetches fail by their number.
pub(crate) fn six_files(alloc: Global, failing: &[u32]) -> Result<MemFiles, Fail> {
    let six = SIX.whole(alloc)?;
    let six = file(alloc, "e1.rcp", six.as_bytes())?;
    let list = file(alloc, "l.txt", b"1 2 3 4 5 6")?;
    let failing = Vec::from_slice(alloc, failing)?;
    Ok(MemFiles::new(vec![in alloc; six, list]?, failing))
}

// A sink that takes whole pieces, of which some puts fail by their number.
pub(crate) fn sink(alloc: Global, failing: &[u32]) -> Result<MemSink, Fail> {
    let failing = Vec::from_slice(alloc, failing)?;
    Ok(MemSink::new(alloc, 1000, 1000, failing)?)
}

// Compares what a run did with its status, the bytes of its output, and its note.
pub(crate) fn compare(rt: &impl Abort, ran: &Ran, status: u8, out: &[u8], note: &str) {
    assert_eq!(rt; ran.status, status);
    assert_eq!(rt; ran.note.as_str(), note);
    assert_eq!(rt; ran.out.as_bytes(), out);
}
