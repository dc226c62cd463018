// Texts that are cut after so many bytes.
use crate::case::{file, run_line};
use crate::fixtures::{SIX, SIX_TABLE};
use crate::hostile::compare;
use crate::text::Text::{self, Lines};
use rc_edge::MemSink;
use std::alloc::Global;
use std::process::Abort;
use std::test::*;
use std::thread::Threads;

// Up to so many bytes: what is wrong with them, and at which byte, or else at their end.
struct Cuts {
    last: usize,
    fault: &'static str,
    at: Option<usize>,
}

// A text, each of whose numbers has one digit. Its last one is byte 54.
static SIX_CUTS: [Cuts; 1] = [Cuts {
    last: 54,
    fault: "text ends",
    at: None,
}];

// One activity that takes no time. The lines begin at the bytes 0, 7, 21, 42, 48, 67 and 73.
const ONE: Text = Lines(&[
    "jobs:1",
    "- renewable:0",
    "PRECEDENCE RELATIONS",
    "1 1 0",
    "REQUESTS/DURATIONS",
    "1 1 0",
    "RESOURCEAVAILABILITIES",
]);

const ONE_TABLE: Text = Lines(&[
    "activity   start  finish",
    "       1       0       0",
    "makespan 0",
]);

// A line of the preamble is read only where it has its colon, and each head only where it is whole. As
// long as a head is missing altogether, the text ends; a part of one stands in its place.
static ONE_CUTS: [Cuts; 8] = [
    Cuts {
        last: 4,
        fault: "text ends",
        at: None,
    },
    Cuts {
        last: 5,
        fault: "not a number",
        at: None,
    },
    Cuts {
        last: 18,
        fault: "text ends",
        at: None,
    },
    Cuts {
        last: 19,
        fault: "not a number",
        at: None,
    },
    Cuts {
        last: 48,
        fault: "text ends",
        at: None,
    },
    Cuts {
        last: 65,
        fault: "expected requests",
        at: Some(48),
    },
    Cuts {
        last: 73,
        fault: "text ends",
        at: None,
    },
    Cuts {
        last: 94,
        fault: "expected availabilities",
        at: Some(73),
    },
];

// The note of a run over the first so many bytes of a text.
fn note_of(alloc: Global, name: &str, cuts: &[Cuts], length: usize) -> Result<String, Fail> {
    for cut in cuts {
        if length <= cut.last {
            let at = cut.at.unwrap_or(length);
            return Ok(format!(in alloc; "rcpsp: {name}: {} at {at}\n", cut.fault)?);
        }
    }
    Ok(String::new(alloc))
}

// Cuts a text after each number of bytes, and compares the notes; where there is none, the whole
// schedule is put out.
fn compare_cuts<R: Threads + Sync + Abort>(
    rt: &R,
    alloc: Global,
    name: &str,
    text: &[u8],
    table: &[u8],
    cuts: &[Cuts],
) -> Result<(), Fail> {
    let line = format!(in alloc; "schedule {name}")?;
    for length in 0..text.len() + 1 {
        let files = vec![in alloc; file(alloc, name, &text[..length])?]?;
        let mut sink = MemSink::new(alloc, 1000, 1000, Vec::new(alloc))?;
        let ran = run_line(rt, alloc, &line, files, &mut sink)?;
        let note = note_of(alloc, name, cuts, length)?;
        if note.is_empty() {
            compare(rt, &ran, 0, table, "");
        } else {
            compare(rt, &ran, 1, b"", &note);
        }
    }
    Ok(())
}

#[test]
fn an_instance_may_be_cut_anywhere(rt: HostRuntime) -> Result<(), Fail> {
    let alloc = rt.alloc();
    let six = SIX.whole(alloc)?;
    assert_eq!(rt; six.len(), 56);
    let table = SIX_TABLE.whole(alloc)?;
    compare_cuts(
        &rt,
        alloc,
        "e1.rcp",
        six.as_bytes(),
        table.as_bytes(),
        &SIX_CUTS,
    )
}

#[test]
fn sections_may_be_cut_anywhere(rt: HostRuntime) -> Result<(), Fail> {
    let alloc = rt.alloc();
    let one = ONE.whole(alloc)?;
    assert_eq!(rt; one.len(), 96);
    let table = ONE_TABLE.whole(alloc)?;
    compare_cuts(
        &rt,
        alloc,
        "m.sm",
        one.as_bytes(),
        table.as_bytes(),
        &ONE_CUTS,
    )
}
