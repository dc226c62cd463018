// Runs of many files, each scheduled alone, and joined.

use crate::case::{Case, Ran, file, text_of, words_of};
use crate::fixtures::{EMPTY, MISFIT, NOT_UNDERSTOOD, OTHER_SIX, RING, SIX, SIX_TABLE};
use crate::text::Text::{self, Lines};
use batch_line::run_many;
use rc_edge::{Gate, MemFiles, MemSink, NoGate, Point};
use std::alloc::{AllocError, Global};
use std::sync::Wait;
use std::sync::atomic::{AtomicU64, Ordering};
use std::test::Fail;
use std::thread;
use std::thread::Threads;

// How often a worker looks for the other one.
const LOOKS: u32 = 20_000_000;

static CASES: &[Case] = &[
    Case {
        words: "e1.rcp e2.rcp",
        files: &[("e1.rcp", SIX), ("e2.rcp", OTHER_SIX)],
        status: 0,
        out: Lines(&[
            "== e1.rcp",
            "activity   start  finish",
            "       1       0       0",
            "       2       0       3",
            "       3       3       5",
            "       4       3       5",
            "       5       5       6",
            "       6       6       6",
            "makespan 6",
            "== e2.rcp",
            "activity   start  finish",
            "       1       0       0",
            "       2       0       1",
            "       3       1       4",
            "       4       0       2",
            "       5       2       4",
            "       6       4       4",
            "makespan 4",
        ]),
        note: EMPTY,
    },
    Case {
        words: "e1.rcp b.rcp e1.rcp",
        files: &[("b.rcp", EMPTY), ("e1.rcp", SIX)],
        status: 1,
        out: Lines(&[
            "== e1.rcp",
            "activity   start  finish",
            "       1       0       0",
            "       2       0       3",
            "       3       3       5",
            "       4       3       5",
            "       5       5       6",
            "       6       6       6",
            "makespan 6",
            "== b.rcp",
            "rcpsp: b.rcp: text ends at 0",
            "== e1.rcp",
            "activity   start  finish",
            "       1       0       0",
            "       2       0       3",
            "       3       3       5",
            "       4       3       5",
            "       5       5       6",
            "       6       6       6",
            "makespan 6",
        ]),
        note: EMPTY,
    },
    Case {
        words: "--workers 1 misfit.rcp ring.rcp",
        files: &[("ring.rcp", RING), ("misfit.rcp", MISFIT)],
        status: 3,
        out: Lines(&[
            "== misfit.rcp",
            "rcpsp: activity 1 needs 5 of resource 1, capacity 2",
            "== ring.rcp",
            "rcpsp: cycle 1 2 1",
        ]),
        note: EMPTY,
    },
    Case {
        words: "ring.rcp --workers=64 misfit.rcp",
        files: &[("ring.rcp", RING), ("misfit.rcp", MISFIT)],
        status: 1,
        out: Lines(&[
            "== ring.rcp",
            "rcpsp: cycle 1 2 1",
            "== misfit.rcp",
            "rcpsp: activity 1 needs 5 of resource 1, capacity 2",
        ]),
        note: EMPTY,
    },
    Case {
        words: "idle.rcp",
        files: &[("idle.rcp", IDLE)],
        status: 0,
        out: Lines(&[
            "== idle.rcp",
            "activity   start  finish",
            "       1       0       5",
            "makespan 5",
        ]),
        note: EMPTY,
    },
    Case {
        words: "e1.rcp x.rcp",
        files: &[("e1.rcp", SIX)],
        status: 5,
        out: EMPTY,
        note: Lines(&["rcpsp: cannot read x.rcp"]),
    },
    Case {
        words: "",
        files: &[("e1.rcp", SIX)],
        status: 2,
        out: EMPTY,
        note: NOT_UNDERSTOOD,
    },
    Case {
        words: "e1.txt",
        files: &[("e1.txt", SIX)],
        status: 2,
        out: EMPTY,
        note: NOT_UNDERSTOOD,
    },
    Case {
        words: "-",
        files: &[("-", SIX)],
        status: 2,
        out: EMPTY,
        note: NOT_UNDERSTOOD,
    },
    Case {
        words: "e1.rcp --improve",
        files: &[("e1.rcp", SIX)],
        status: 2,
        out: EMPTY,
        note: NOT_UNDERSTOOD,
    },
    Case {
        words: "e1.rcp --workers 65",
        files: &[("e1.rcp", SIX)],
        status: 2,
        out: EMPTY,
        note: NOT_UNDERSTOOD,
    },
];

// One activity, and no resource.
const IDLE: Text = Lines(&["1 0 5 0"]);

#[test]
fn many_files_come_to_their_runs_one_after_the_other(rt: HostRuntime) -> Result<(), Fail> {
    let alloc = rt.alloc();
    for (number, case) in CASES.iter().enumerate() {
        let line = case.words;
        let mut files = Vec::new(alloc);
        for (name, text) in case.files {
            let text = text.whole(alloc)?;
            files.push(file(alloc, name, text.as_bytes())?)?;
        }
        let words = words_of(alloc, line)?;
        let ran = run_words(&rt, alloc, &words, files, &NoGate)?;
        assert_eq!(rt; ran.status, case.status, "case {number}: {line}");
        assert_eq!(rt; ran.out, case.out.whole(alloc)?, "case {number}: {line}");
        assert_eq!(rt; ran.note, case.note.whole(alloc)?, "case {number}: {line}");
    }
    Ok(())
}

// Runs words over these files, with a long output.
fn run_words<R: Threads + Wait + Sync, G: Gate + Sync>(
    rt: &R,
    alloc: Global,
    words: &[String],
    files: Vec<(String, Vec<u8>)>,
    gate: &G,
) -> Result<Ran, Fail> {
    let mut files = MemFiles::new(files, Vec::new(alloc));
    let mut out = MemSink::new(alloc, 100_000, 100_000, Vec::new(alloc))?;
    let mut note = MemSink::new(alloc, 1000, 1000, Vec::new(alloc))?;
    let status = run_many(rt, alloc, words, &mut files, &mut out, &mut note, gate).code();
    Ok(Ran {
        status,
        out: text_of(alloc, out.bytes())?,
        note: text_of(alloc, note.bytes())?,
    })
}

// A name so many times over, after the number of workers.
fn repeated(
    alloc: Global,
    name: &str,
    times: u32,
    workers: &str,
) -> Result<Vec<String>, AllocError> {
    let mut words = words_of(alloc, workers)?;
    for _ in 0..times {
        words.push(String::from_str(alloc, name)?)?;
    }
    Ok(words)
}

// The files of which there is but the first instance.
fn six_alone(alloc: Global) -> Result<Vec<(String, Vec<u8>)>, AllocError> {
    let six = SIX.whole(alloc)?;
    let mut files = Vec::with_capacity(alloc, 1)?;
    files.push(file(alloc, "e1.rcp", six.as_bytes())?)?;
    Ok(files)
}

#[test]
fn a_hundred_files_come_to_the_same_by_any_workers(rt: HostRuntime) -> Result<(), Fail> {
    let alloc = rt.alloc();
    let one = repeated(alloc, "e1.rcp", 100, "--workers 1")?;
    let all = repeated(alloc, "e1.rcp", 100, "--workers 64")?;
    let by_one = run_words(&rt, alloc, &one, six_alone(alloc)?, &NoGate)?;
    let by_all = run_words(&rt, alloc, &all, six_alone(alloc)?, &NoGate)?;
    let part = 10 + SIX_TABLE.whole(alloc)?.len();
    assert_eq!(rt; by_one.status, 0);
    assert_eq!(rt; by_all.status, 0);
    assert_eq!(rt; by_one.out.len() % 100, 0);
    assert_eq!(rt; by_one.out.len() / 100, part);
    assert_eq!(rt; by_all.out, by_one.out);
    assert!(rt; by_one.note.is_empty() && by_all.note.is_empty());
    Ok(())
}

#[test]
fn there_are_no_more_than_a_hundred_files(rt: HostRuntime) -> Result<(), Fail> {
    let alloc = rt.alloc();
    let words = repeated(alloc, "e1.rcp", 101, "")?;
    let ran = run_words(&rt, alloc, &words, six_alone(alloc)?, &NoGate)?;
    assert_eq!(rt; ran.status, 2);
    assert!(rt; ran.out.is_empty());
    assert_eq!(rt; ran.note, NOT_UNDERSTOOD.whole(alloc)?);
    Ok(())
}

#[test]
fn an_output_that_fails_is_told(rt: HostRuntime) -> Result<(), Fail> {
    let alloc = rt.alloc();
    let words = words_of(alloc, "e1.rcp")?;
    let mut files = MemFiles::new(six_alone(alloc)?, Vec::new(alloc));
    let mut out = MemSink::new(alloc, 100, 7, vec![in alloc; 2]?)?;
    let mut note = MemSink::new(alloc, 100, 100, Vec::new(alloc))?;
    let ended = run_many(&rt, alloc, &words, &mut files, &mut out, &mut note, &NoGate);
    assert_eq!(rt; ended.code(), 6);
    assert_eq!(rt; text_of(alloc, out.bytes())?.as_str(), "== e1.rcp\nacti");
    assert_eq!(rt;
        text_of(alloc, note.bytes())?.as_str(),
        "rcpsp: cannot write\n"
    );
    Ok(())
}

// Each of two workers waits at its first file until the other one has one too.
#[derive(Drop)]
struct Meeting {
    here: [AtomicU64; 2],
    alone: AtomicU64,
}

impl Meeting {
    fn new() -> Meeting {
        Meeting {
            here: [AtomicU64::new(0), AtomicU64::new(0)],
            alone: AtomicU64::new(0),
        }
    }

    // Waits for the other worker, for so many looks, and counts a wait in vain.
    fn meet(&self, worker: u32) {
        let own = (worker % 2) as usize;
        if self.here[own].swap(1, Ordering::SeqCst) == 1 {
            return;
        }
        for _ in 0..LOOKS {
            if self.here[1 - own].load(Ordering::SeqCst) == 1 {
                return;
            }
            thread::yield_now();
        }
        self.alone.fetch_add(1, Ordering::SeqCst);
    }
}

impl Gate for Meeting {
    fn at(&self, worker: u32, point: Point, _position: u32) {
        if point == Point::Claimed {
            self.meet(worker);
        }
    }
}

#[test]
fn two_workers_do_two_files_beside_each_other(rt: HostRuntime) -> Result<(), Fail> {
    let alloc = rt.alloc();
    let one = words_of(alloc, "--workers 1 e1.rcp e1.rcp")?;
    let two = words_of(alloc, "--workers 2 e1.rcp e1.rcp")?;
    let by_one = run_words(&rt, alloc, &one, six_alone(alloc)?, &NoGate)?;
    let gate = Meeting::new();
    let by_two = run_words(&rt, alloc, &two, six_alone(alloc)?, &gate)?;
    assert_eq!(rt; by_two.status, 0);
    assert_eq!(rt; by_two.out, by_one.out);
    assert_eq!(rt; gate.here[0].load(Ordering::SeqCst), 1);
    assert_eq!(rt; gate.here[1].load(Ordering::SeqCst), 1);
    assert_eq!(rt; gate.alone.load(Ordering::SeqCst), 0);
    Ok(())
}

// Activities that take no time, each before the next; the last before the first, where there is to be a ring.
fn chain(alloc: Global, activities: u32, is_ring: bool) -> Result<String, Fail> {
    let mut text = format!(in alloc; "{activities} 0\n")?;
    for activity in 1..activities {
        write!(text, "0 1 {}\n", activity + 1)?;
    }
    text.push_str(if is_ring { "0 1 1\n" } else { "0 0\n" })?;
    Ok(text)
}

#[test]
fn the_largest_instance_and_the_longest_cycle_have_room(rt: HostRuntime) -> Result<(), Fail> {
    let alloc = rt.alloc();
    let long = chain(alloc, 1000, false)?;
    let ring = chain(alloc, 1000, true)?;
    let files = vec![in alloc;
        file(alloc, "long.rcp", long.as_bytes())?,
        file(alloc, "ring.rcp", ring.as_bytes())?,
    ]?;
    let words = words_of(alloc, "long.rcp ring.rcp")?;
    let ran = run_words(&rt, alloc, &words, files, &NoGate)?;
    assert_eq!(rt; ran.status, 1);
    assert_eq!(rt; ran.out.lines().count(), 1005);
    assert!(rt; ran.out.ends_with(" 998 999 1000 1\n"));
    Ok(())
}
