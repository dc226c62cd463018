// Fetches and puts that fail.
use crate::case::file;
use crate::fixtures::{MISFIT, SIX_TABLE};
use crate::hostile::{compare, run_over, sink, six_files};
use rc_edge::{MemFiles, MemSink, NoGate};
use std::test::*;

#[test]
fn a_fetch_that_fails_is_told_by_its_name(rt: HostRuntime) -> Result<(), Fail> {
    let alloc = rt.alloc();
    let line = "schedule e1.rcp --list l.txt";
    for (fetch, note_is) in [
        (0, "rcpsp: cannot read e1.rcp\n"),
        (1, "rcpsp: cannot read l.txt\n"),
    ] {
        let files = six_files(alloc, &[fetch])?;
        let out = sink(alloc, &[])?;
        let note = sink(alloc, &[])?;
        let ran = run_over(&rt, alloc, line, files, out, note, &NoGate)?;
        compare(&rt, &ran, 5, b"", note_is);
    }
    Ok(())
}

// The output takes 7 bytes a put: put k is that of the bytes from 7 k on.
#[test]
fn an_output_that_fails_has_a_prefix(rt: HostRuntime) -> Result<(), Fail> {
    let alloc = rt.alloc();
    let table = SIX_TABLE.whole(alloc)?;
    let table = table.as_bytes();
    assert_eq!(rt; table.len(), 186);
    for put in 0..28u32 {
        let files = six_files(alloc, &[])?;
        let out = MemSink::new(alloc, 1000, 7, vec![in alloc; put]?)?;
        let note = sink(alloc, &[])?;
        let ran = run_over(&rt, alloc, "schedule e1.rcp", files, out, note, &NoGate)?;
        if put < 27 {
            let taken = &table[..7 * put as usize];
            compare(&rt, &ran, 6, taken, "rcpsp: cannot write\n");
        } else {
            compare(&rt, &ran, 0, table, "");
        }
    }
    Ok(())
}

#[test]
fn a_refusal_keeps_its_status_where_the_note_fails(rt: HostRuntime) -> Result<(), Fail> {
    let alloc = rt.alloc();
    let misfit = MISFIT.whole(alloc)?;
    let pairs = vec![in alloc; file(alloc, "m.rcp", misfit.as_bytes())?]?;
    let files = MemFiles::new(pairs, Vec::new(alloc));
    let out = sink(alloc, &[])?;
    let note = sink(alloc, &[0])?;
    let ran = run_over(&rt, alloc, "schedule m.rcp", files, out, note, &NoGate)?;
    compare(&rt, &ran, 3, b"", "");
    Ok(())
}

// Five looks and the end put six lines of 14 bytes each.
#[test]
fn nothing_is_put_on_the_note_after_a_line_that_failed(rt: HostRuntime) -> Result<(), Fail> {
    let alloc = rt.alloc();
    let table = SIX_TABLE.whole(alloc)?;
    let line = "schedule e1.rcp --live 5";
    for put in 0..7u32 {
        let files = six_files(alloc, &[])?;
        let out = sink(alloc, &[])?;
        let note = sink(alloc, &[put])?;
        let ran = run_over(&rt, alloc, line, files, out, note, &NoGate)?;
        let status = if put < 6 { 6 } else { 0 };
        assert_eq!(rt; (ran.status, ran.note.len()), (status, 14 * put as usize));
        assert_eq!(rt; ran.out, table);
    }
    Ok(())
}
