// Workers that are held on their way.
use crate::fixtures::SIX_TABLE;
use crate::hostile::{compare, run_over, sink, six_files};
use rc_edge::{Gate, Point};
use std::sync::atomic::{AtomicU64, Ordering};
use std::test::*;
use std::thread;

// The first worker that comes to a point of a position yields so often.
const YIELDS: u32 = 1000;

// How often a worker that is held looks whether it may go on.
const LOOKS: u32 = 20_000_000;

static POINTS: [Point; 4] = [
    Point::Searched,
    Point::Claiming,
    Point::Claimed,
    Point::Booked,
];

// Delays the first worker that comes to one point of one position.
#[derive(Drop)]
struct Delay {
    point: Point,
    position: u32,
    came: AtomicU64,
}

impl Gate for Delay {
    fn at(&self, _worker: u32, point: Point, position: u32) {
        if point != self.point || position != self.position {
            return;
        }
        if self.came.swap(1, Ordering::SeqCst) == 1 {
            return;
        }
        for _ in 0..YIELDS {
            thread::yield_now();
        }
    }
}

#[test]
fn a_delay_at_any_point_changes_no_byte(rt: HostRuntime) -> Result<(), Fail> {
    let alloc = rt.alloc();
    let table = SIX_TABLE.whole(alloc)?;
    let line = "schedule e1.rcp --workers 3";
    for at in 0..24usize {
        let gate = Delay {
            point: POINTS[at / 6],
            position: (at % 6) as u32,
            came: AtomicU64::new(0),
        };
        let (out, note) = (sink(alloc, &[])?, sink(alloc, &[])?);
        let ran = run_over(&rt, alloc, line, six_files(alloc, &[])?, out, note, &gate)?;
        compare(&rt, &ran, 0, table.as_bytes(), "");
    }
    Ok(())
}

// Holds worker 1 after its first search until the position that it has searched is booked. Positions
// are booked in order, so as many bookings as there are up to it are enough.
#[derive(Drop)]
struct Hold {
    came: AtomicU64,
    booked: AtomicU64,
    missed: AtomicU64,
}

impl Hold {
    // Waits for so many looks, and counts a wait in vain.
    fn wait(&self, position: u32) {
        for _ in 0..LOOKS {
            if self.booked.load(Ordering::SeqCst) > position as u64 {
                return;
            }
            thread::yield_now();
        }
        self.missed.fetch_add(1, Ordering::SeqCst);
    }
}

impl Gate for Hold {
    fn at(&self, worker: u32, point: Point, position: u32) {
        if point == Point::Booked {
            self.booked.fetch_add(1, Ordering::SeqCst);
        }
        if worker != 1 || point != Point::Searched {
            return;
        }
        if self.came.swap(1, Ordering::SeqCst) == 0 {
            self.wait(position);
        }
    }
}

#[test]
fn an_offer_that_comes_too_late_changes_no_byte(rt: HostRuntime) -> Result<(), Fail> {
    let alloc = rt.alloc();
    let table = SIX_TABLE.whole(alloc)?;
    let gate = Hold {
        came: AtomicU64::new(0),
        booked: AtomicU64::new(0),
        missed: AtomicU64::new(0),
    };
    let line = "schedule e1.rcp --workers 2";
    let (out, note) = (sink(alloc, &[])?, sink(alloc, &[])?);
    let ran = run_over(&rt, alloc, line, six_files(alloc, &[])?, out, note, &gate)?;
    compare(&rt, &ran, 0, table.as_bytes(), "");
    assert_eq!(rt; gate.missed.load(Ordering::SeqCst), 0);
    Ok(())
}
