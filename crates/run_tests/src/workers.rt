// Runs whose schedule is booked by so many workers.
use crate::case::{Case, each_comes_true, file, text_of, words_of};
use crate::fixtures::{EMPTY, HOLIDAYS, SIX, SIX_ON_HOLIDAYS, SIX_TABLE};
use rc_edge::{Gate, MemFiles, MemSink, Point};
use rcpsp_run::run;
use std::sync::atomic::{AtomicU64, Ordering};
use std::test::Fail;
use std::thread;

// How often a worker looks for the other one.
const LOOKS: u32 = 20_000_000;

static BOOKED: &[Case] = &[
    Case {
        words: "schedule e1.rcp --workers 1",
        files: &[("e1.rcp", SIX)],
        status: 0,
        out: SIX_TABLE,
        note: EMPTY,
    },
    Case {
        words: "schedule --workers=2 e1.rcp",
        files: &[("e1.rcp", SIX)],
        status: 0,
        out: SIX_TABLE,
        note: EMPTY,
    },
    Case {
        words: "schedule e1.rcp --workers 64",
        files: &[("e1.rcp", SIX)],
        status: 0,
        out: SIX_TABLE,
        note: EMPTY,
    },
    Case {
        words: "schedule e1.rcp --workers 3 --improve --calendar c.txt",
        files: &[("e1.rcp", SIX), ("c.txt", HOLIDAYS)],
        status: 0,
        out: SIX_ON_HOLIDAYS,
        note: EMPTY,
    },
];

#[test]
fn schedules_are_the_same_by_any_workers(rt: HostRuntime) -> Result<(), Fail> {
    each_comes_true(&rt, rt.alloc(), BOOKED)
}

// Each of two workers waits after its first search ahead until the other one has come as far. The
// claims and the bookings of the six positions are counted.
#[derive(Drop)]
struct Meeting {
    here: [AtomicU64; 2],
    alone: AtomicU64,
    claimed: [AtomicU64; 6],
    booked: [AtomicU64; 6],
}

// So many counts of nothing.
fn zeros() -> [AtomicU64; 6] {
    [
        AtomicU64::new(0),
        AtomicU64::new(0),
        AtomicU64::new(0),
        AtomicU64::new(0),
        AtomicU64::new(0),
        AtomicU64::new(0),
    ]
}

impl Meeting {
    fn new() -> Meeting {
        Meeting {
            here: [AtomicU64::new(0), AtomicU64::new(0)],
            alone: AtomicU64::new(0),
            claimed: zeros(),
            booked: zeros(),
        }
    }

    // Waits for the other worker, for so many looks, and counts a wait in vain.
    fn meet(&self, worker: u32) {
        let own = (worker % 2) as usize;
        if self.here[own].swap(1, Ordering::SeqCst) == 1 {
            return;
        }
        for _ in 0..LOOKS {
            if self.here[1 - own].load(Ordering::SeqCst) == 1 {
                return;
            }
            thread::yield_now();
        }
        self.alone.fetch_add(1, Ordering::SeqCst);
    }
}

fn count(counts: &[AtomicU64], position: u32) {
    if let Some(times) = counts.get(position as usize) {
        times.fetch_add(1, Ordering::SeqCst);
    }
}

// Whether each count is one.
fn are_ones(counts: &[AtomicU64]) -> bool {
    for times in counts {
        if times.load(Ordering::SeqCst) != 1 {
            return false;
        }
    }
    true
}

impl Gate for Meeting {
    fn at(&self, worker: u32, point: Point, position: u32) {
        match point {
            Point::Searched => self.meet(worker),
            Point::Claiming => {}
            Point::Claimed => count(&self.claimed, position),
            Point::Booked => count(&self.booked, position),
        }
    }
}

#[test]
fn two_workers_run_beside_each_other(rt: HostRuntime) -> Result<(), Fail> {
    let alloc = rt.alloc();
    let words = words_of(alloc, "schedule e1.rcp --workers 2")?;
    let six = SIX.whole(alloc)?;
    let pairs = vec![in alloc; file(alloc, "e1.rcp", six.as_bytes())?]?;
    let mut files = MemFiles::new(pairs, Vec::new(alloc));
    let mut out = MemSink::new(alloc, 10_000, 10_000, Vec::new(alloc))?;
    let mut note = MemSink::new(alloc, 1000, 1000, Vec::new(alloc))?;
    let gate = Meeting::new();
    let status = run(&rt, alloc, &words, &mut files, &mut out, &mut note, &gate).code();
    assert_eq!(rt; status, 0);
    assert_eq!(rt; text_of(alloc, out.bytes())?, SIX_TABLE.whole(alloc)?);
    assert_eq!(rt; gate.alone.load(Ordering::SeqCst), 0);
    assert!(rt; are_ones(&gate.claimed) && are_ones(&gate.booked));
    Ok(())
}
