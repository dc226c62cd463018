use crate::case::{file, run_line, text_of};
use crate::fixtures::{SIX, SIX_TABLE};
use rc_edge::{MemFiles, MemSink, NoGate};
use rcpsp_run::{Given, exit_code};
use std::alloc::Global;
use std::test::Fail;
use std::thread::Threads;

#[test]
fn an_output_is_written_in_pieces_or_not_at_all(rt: HostRuntime) -> Result<(), Fail> {
    let alloc = rt.alloc();
    let six = SIX.whole(alloc)?;
    let table = SIX_TABLE.whole(alloc)?;
    let files = vec![in alloc; file(alloc, "e1.rcp", six.as_bytes())?]?;
    let mut slow = MemSink::new(alloc, 10_000, 1, Vec::new(alloc))?;
    let whole = run_line(&rt, alloc, "schedule e1.rcp", files, &mut slow)?;
    assert_eq!(rt; whole.status, 0);
    assert_eq!(rt; whole.out, table);
    let files = vec![in alloc; file(alloc, "e1.rcp", six.as_bytes())?]?;
    let mut failing = MemSink::new(alloc, 10_000, 10_000, vec![in alloc; 0]?)?;
    let failed = run_line(&rt, alloc, "schedule e1.rcp", files, &mut failing)?;
    assert_eq!(rt; failed.status, 6);
    assert_eq!(rt; failed.out.len(), 0);
    assert_eq!(rt; failed.note.as_str(), "rcpsp: cannot write\n");
    Ok(())
}

#[test]
fn a_file_may_have_so_many_bytes_and_no_more(rt: HostRuntime) -> Result<(), Fail> {
    let alloc = rt.alloc();
    let mut spaces = vec![in alloc; b' '; 4_194_304]?;
    let mut out = MemSink::new(alloc, 10, 10, Vec::new(alloc))?;
    let full = file(alloc, "full.rcp", &spaces)?;
    let ended = run_line(
        &rt,
        alloc,
        "schedule full.rcp",
        vec![in alloc; full]?,
        &mut out,
    )?;
    assert_eq!(rt; ended.status, 1);
    assert_eq!(rt;
        ended.note.as_str(),
        "rcpsp: full.rcp: text ends at 4194304\n"
    );
    spaces.push(b' ')?;
    let long = file(alloc, "long.rcp", &spaces)?;
    let refused = run_line(
        &rt,
        alloc,
        "schedule long.rcp",
        vec![in alloc; long]?,
        &mut out,
    )?;
    assert_eq!(rt; refused.status, 8);
    assert_eq!(rt; refused.out.len(), 0);
    assert_eq!(rt;
        refused.note.as_str(),
        "rcpsp: long.rcp is larger than 4194304 bytes\n"
    );
    Ok(())
}

#[test]
fn a_program_without_words_says_why_or_nothing(rt: HostRuntime) -> Result<(), Fail> {
    let alloc = rt.alloc();
    let no_text = ended(&rt, alloc, Given::NotText)?;
    assert_eq!(rt; no_text.0, 2);
    assert_eq!(rt; no_text.1.as_str(), "rcpsp: words not understood\n");
    let no_memory = ended(&rt, alloc, Given::NoMemory)?;
    assert_eq!(rt; no_memory.0, 7);
    assert_eq!(rt; no_memory.1.len(), 0);
    Ok(())
}

// The exit code and the note of a program that is given this, without files and without room for an output.
fn ended(rt: &(impl Threads + Sync), alloc: Global, given: Given) -> Result<(u8, String), Fail> {
    let mut files = MemFiles::new(Vec::new(alloc), Vec::new(alloc));
    let mut out = MemSink::new(alloc, 0, 1, Vec::new(alloc))?;
    let mut note = MemSink::new(alloc, 100, 100, Vec::new(alloc))?;
    let code = exit_code(rt, alloc, given, &mut files, &mut out, &mut note, &NoGate);
    Ok((code, text_of(alloc, note.bytes())?))
}
