// Two workers that really run beside each other.
use crate::fixtures::{SIX, SIX_STARTS, by_number, known_of, net_of, six_starts};
use book_table::Book;
use rc_edge::{Gate, Point};
use std::sync::atomic::{AtomicU64, Ordering};
use std::test::*;
use std::thread;
use worker_run::book_all;

// How often a worker looks for the other one.
const LOOKS: u32 = 20_000_000;

// Each of two workers waits after its first search ahead until the other one has come as far. The
// claims and the bookings of the six positions are counted.
#[derive(Drop)]
struct Meeting {
    here: [AtomicU64; 2],
    alone: AtomicU64,
    claimed: [AtomicU64; 6],
    booked: [AtomicU64; 6],
}

// So many counts of nothing.
fn zeros() -> [AtomicU64; 6] {
    [
        AtomicU64::new(0),
        AtomicU64::new(0),
        AtomicU64::new(0),
        AtomicU64::new(0),
        AtomicU64::new(0),
        AtomicU64::new(0),
    ]
}

impl Meeting {
    fn new() -> Meeting {
        Meeting {
            here: [AtomicU64::new(0), AtomicU64::new(0)],
            alone: AtomicU64::new(0),
            claimed: zeros(),
            booked: zeros(),
        }
    }

    // Waits for the other worker, for so many looks, and counts a wait in vain.
    fn meet(&self, worker: u32) {
        let own = (worker % 2) as usize;
        if self.here[own].swap(1, Ordering::SeqCst) == 1 {
            return;
        }
        for _ in 0..LOOKS {
            if self.here[1 - own].load(Ordering::SeqCst) == 1 {
                return;
            }
            thread::yield_now();
        }
        self.alone.fetch_add(1, Ordering::SeqCst);
    }
}

impl Gate for Meeting {
    fn at(&self, worker: u32, point: Point, position: u32) {
        match point {
            Point::Searched => self.meet(worker),
            Point::Claiming => {}
            Point::Claimed => count(&self.claimed, position),
            Point::Booked => count(&self.booked, position),
        }
    }
}

fn count(counts: &[AtomicU64], position: u32) {
    if let Some(times) = counts.get(position as usize) {
        times.fetch_add(1, Ordering::SeqCst);
    }
}

// Whether each count is one.
fn are_ones(counts: &[AtomicU64]) -> bool {
    for times in counts {
        if times.load(Ordering::SeqCst) != 1 {
            return false;
        }
    }
    true
}

#[test]
fn two_workers_meet_and_book_each_position_once(rt: HostRuntime) -> Result<(), Fail> {
    let net = net_of(rt.alloc(), SIX)?;
    let list = by_number(rt.alloc(), &net)?;
    let known = known_of(rt.alloc(), &list)?;
    let (book, passes) = Book::open(rt.alloc(), &list, 2)?;
    let meeting = Meeting::new();
    let closed = book_all(&rt, book, passes, &known, &meeting);
    assert_eq!(rt; six_starts(&rt, closed), SIX_STARTS);
    assert_eq!(rt; meeting.alone.load(Ordering::SeqCst), 0);
    assert!(rt; are_ones(&meeting.claimed) && are_ones(&meeting.booked));
    Ok(())
}
