// Runs that tell how far their workers have come.
ghost use Rattle.std.specs.Prelude.{Some};
ghost use Rattle.rc_edge.specs.MemSink.{bytes_of, faults_of};

use crate::case::{Case, each_comes_true, file, text_of, words_of};
use crate::fixtures::{
    EMPTY, HOLIDAYS, MISFIT, SIX, SIX_BY_SAMPLE, SIX_CSV, SIX_ON_HOLIDAYS, SIX_TABLE,
};
use crate::text::Text::{self, Cut, Lines};
use rc_edge::{Gate, MemFiles, MemSink, NoGate, Point, Sink, SinkFault};
use rcpsp_run::run;
use std::alloc::Global;
use std::sync::atomic::{AtomicU64, Ordering};
use std::test::Fail;
use std::thread;
use std::thread::Threads;

// How often the note looks for the booking that it waits for.
const LOOKS: u32 = 20_000_000;

// Words that ask for three lines and the last one, and their output.
static TOLD: &[(&str, Text)] = &[
    ("schedule e1.rcp --live 3", SIX_TABLE),
    ("schedule e1.rcp --live 3 --workers 1", SIX_TABLE),
    ("schedule --live=3 --workers=64 e1.rcp", SIX_TABLE),
    ("schedule e1.rcp --as csv --live 3", SIX_CSV),
    (
        "schedule e1.rcp --live 3 --improve --calendar c.txt",
        SIX_ON_HOLIDAYS,
    ),
    (
        "schedule --list l.txt --descend 9 --live 3 e1.rcp",
        SIX_TABLE,
    ),
    (
        "sample e1.rcp --seed 42 --from 54 --count 1 --live 3",
        SIX_BY_SAMPLE,
    ),
    (
        "sample e1.rcp --seed 42 --from 54 --count 10 --improve --live=3 --workers 1",
        SIX_BY_SAMPLE,
    ),
];

// The status of a run over six activities, a list of them and a calendar.
fn six_told<N: Sink + Send, G: Gate + Sync>(
    rt: &(impl Threads + Sync),
    alloc: Global,
    line: &str,
    out: &mut MemSink,
    note: &mut N,
    gate: &G,
) -> Result<u8, Fail> {
    let words = words_of(alloc, line)?;
    let mut pairs = Vec::new(alloc);
    for (name, text) in [
        ("e1.rcp", SIX),
        ("l.txt", Cut(&["1 2 3 4 5 6"])),
        ("c.txt", HOLIDAYS),
    ] {
        let text = text.whole(alloc)?;
        pairs.push(file(alloc, name, text.as_bytes())?)?;
    }
    let mut files = MemFiles::new(pairs, Vec::new(alloc));
    Ok(run(rt, alloc, &words, &mut files, out, note, gate).code())
}

// The counts of some lines, each of which has one digit for the count and one for all.
fn digits(alloc: Global, lines: &[u8]) -> Result<Vec<u8>, Fail> {
    let mut digits = Vec::new(alloc);
    for line in lines.split(|byte| *byte == b'\n') {
        if let Some(rest) = line.strip_prefix(b"booked ") {
            if let Some(digit) = rest.strip_suffix(b" of 6") {
                digits.extend_from_slice(digit)?;
            }
        }
    }
    Ok(digits)
}

#[test]
fn lines_tell_counts_that_never_fall(rt: HostRuntime) -> Result<(), Fail> {
    let alloc = rt.alloc();
    for (line, expected) in TOLD {
        let mut out = MemSink::new(alloc, 10_000, 10_000, Vec::new(alloc))?;
        let mut note = MemSink::new(alloc, 1000, 1000, Vec::new(alloc))?;
        let status = six_told(&rt, alloc, line, &mut out, &mut note, &NoGate)?;
        assert_eq!(rt; status, 0, "{line}");
        assert_eq!(rt;
            text_of(alloc, out.bytes())?,
            expected.whole(alloc)?,
            "{line}"
        );
        assert_eq!(rt; note.bytes().len(), 4 * 14, "{line}");
        let counts = digits(alloc, note.bytes())?;
        assert_eq!(rt; counts.len(), 4);
        assert!(rt; counts.is_sorted() && counts.last() == Some(&b'6'));
    }
    Ok(())
}

#[test]
fn a_line_that_is_not_put_leaves_the_output_whole(rt: HostRuntime) -> Result<(), Fail> {
    let alloc = rt.alloc();
    for (line, expected) in TOLD {
        let mut out = MemSink::new(alloc, 10_000, 10_000, Vec::new(alloc))?;
        let mut note = MemSink::new(alloc, 1000, 1000, vec![in alloc; 1]?)?;
        let status = six_told(&rt, alloc, line, &mut out, &mut note, &NoGate)?;
        assert_eq!(rt; status, 6, "{line}");
        assert_eq!(rt;
            text_of(alloc, out.bytes())?,
            expected.whole(alloc)?,
            "{line}"
        );
        assert_eq!(rt; note.bytes().len(), 14, "{line}");
    }
    Ok(())
}

// How a run ends, and how many bytes its note has, whose output takes ten bytes.
fn cut_short<R: Threads + Sync>(
    rt: &R,
    alloc: Global,
    failing: Vec<u32>,
) -> Result<(u8, usize), Fail> {
    let mut out = MemSink::new(alloc, 10, 10, Vec::new(alloc))?;
    let mut note = MemSink::new(alloc, 1000, 1000, failing)?;
    let line = "schedule e1.rcp --live 3";
    let status = six_told(rt, alloc, line, &mut out, &mut note, &NoGate)?;
    Ok((status, note.bytes().len()))
}

// The line of a write fault comes after the others, unless one of these could not be put.
#[test]
fn a_write_fault_is_told_after_the_lines(rt: HostRuntime) -> Result<(), Fail> {
    let alloc = rt.alloc();
    assert_eq!(rt; cut_short(&rt, alloc, Vec::new(alloc))?, (6, 4 * 14 + 20));
    assert_eq!(rt; cut_short(&rt, alloc, vec![in alloc; 1]?)?, (6, 14));
    Ok(())
}

static REFUSED: &[Case] = &[Case {
    words: "schedule one.rcp --live 3",
    files: &[("one.rcp", MISFIT)],
    status: 3,
    out: EMPTY,
    note: Lines(&["rcpsp: activity 1 needs 5 of resource 1, capacity 2"]),
}];

#[test]
fn a_refusal_has_its_line_alone(rt: HostRuntime) -> Result<(), Fail> {
    each_comes_true(&rt, rt.alloc(), REFUSED)
}

// Its first put waits until the third position is booked.
#[derive(Drop)]
struct Patient<'g> {
    inner: MemSink,
    waited: bool,
    booked: &'g AtomicU64,
    alone: &'g AtomicU64,
}

impl<'g> Patient<'g> {
    // Waits for so many looks, and counts a wait in vain.
    fn wait(&self) {
        for _ in 0..LOOKS {
            if self.booked.load(Ordering::SeqCst) == 1 {
                return;
            }
            thread::yield_now();
        }
        self.alone.fetch_add(1, Ordering::SeqCst);
    }
}

impl<'g> Sink for Patient<'g> {
    ghost held = { λ s. Some (bytes_of s.inner) };

    ghost faults = { λ s. faults_of s.inner };

    fn put(&mut self, piece: &[u8]) -> Result<usize, SinkFault> {
        if !self.waited {
            self.waited = true;
            self.wait();
        }
        self.inner.put(piece)
    }
}

// Tells that the third position is booked.
#[derive(Drop)]
struct Third<'g> {
    booked: &'g AtomicU64,
}

impl<'g> Gate for Third<'g> {
    fn at(&self, _worker: u32, point: Point, position: u32) {
        if point == Point::Booked && position == 2 {
            self.booked.store(1, Ordering::SeqCst);
        }
    }
}

#[test]
fn a_line_waits_for_no_booking_and_no_booking_for_a_line(rt: HostRuntime) -> Result<(), Fail> {
    let alloc = rt.alloc();
    let booked = AtomicU64::new(0);
    let alone = AtomicU64::new(0);
    let mut note = Patient {
        inner: MemSink::new(alloc, 1000, 1000, Vec::new(alloc))?,
        waited: false,
        booked: &booked,
        alone: &alone,
    };
    let gate = Third { booked: &booked };
    let line = "schedule e1.rcp --live 2 --workers 1";
    let mut out = MemSink::new(alloc, 10_000, 10_000, Vec::new(alloc))?;
    let status = six_told(&rt, alloc, line, &mut out, &mut note, &gate)?;
    assert_eq!(rt; status, 0);
    assert_eq!(rt; text_of(alloc, out.bytes())?, SIX_TABLE.whole(alloc)?);
    assert_eq!(rt; alone.load(Ordering::SeqCst), 0);
    let counts = digits(alloc, note.inner.bytes())?;
    assert_eq!(rt; counts.len(), 3);
    let second = counts.get(1).copied().unwrap_or(b'0');
    assert!(rt; second >= b'3');
    Ok(())
}
