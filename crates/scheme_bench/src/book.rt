// Schedules through a book.
ghost use Rattle.std.specs.Prelude.{◌≤◌};
ghost use Rattle.rc_instance.specs.Misfit.{HasNoMisfit};

use activity_net::{FeasibleList, Net};
use book_table::Book;
use priority_rules::list_by_number;
use rc_edge::{Gate, NoGate, Point};
use serial_plain::serial;
use std::alloc::Global;
use std::sync::atomic::{AtomicU64, Ordering};
use std::thread::Threads;
use worker_run::book_all;

const MAX_WORKERS: u32 = 64;

/// So many serial schedules of the list by number, each made on a line of events and then booked by
/// so many workers in a book, with the memory of both.
pub(crate) fn in_books<R: Threads + Sync>(
    rt: &R,
    alloc: Global,
    net: &Net,
    rounds: u32,
    workers: u32,
) -> Option<u64> {
    if workers == 0 || workers > MAX_WORKERS {
        return None;
    }
    if let Err(_) = net.instance().fits_all() {
        return None;
    }
    let Ok(list) = list_by_number(alloc, net) else {
        return None;
    };
    for _ in 0..rounds {
        book_once(rt, alloc, &list, workers, &NoGate)?;
    }
    Some(u64::from(rounds))
}

/// How many searches ahead are late in so many such schedules: their position is claimed before they
/// have ended. Each other search has made its offer by then, and there is one search a position.
pub(crate) fn late_searches<R: Threads + Sync>(
    rt: &R,
    alloc: Global,
    net: &Net,
    rounds: u32,
    workers: u32,
) -> Option<u64> {
    if workers == 0 || workers > MAX_WORKERS {
        return None;
    }
    if let Err(_) = net.instance().fits_all() {
        return None;
    }
    let Ok(list) = list_by_number(alloc, net) else {
        return None;
    };
    let late = AtomicU64::new(0);
    for _ in 0..rounds {
        let gate = LateSearches {
            claimed: AtomicU64::new(0),
            late: &late,
        };
        book_once(rt, alloc, &list, workers, &gate)?;
    }
    Some(late.load(Ordering::SeqCst))
}

// One schedule.
fn book_once<'n, R: Threads + Sync, G: Gate + Sync>(
    rt: &R,
    alloc: Global,
    list: &'n FeasibleList<'n>,
    workers: u32,
    gate: &G,
) -> Option<()>
    requires fits { HasNoMisfit list.now.network.project }
    requires workers { (1 ≤ workers) × (workers ≤ 64) }
{
    let Ok(known) = serial(alloc, list) else {
        return None;
    };
    let Ok((book, passes)) = Book::open(alloc, list, workers) else {
        return None;
    };
    book_all(rt, book, passes, &known, gate);
    Some(())
}

// Counts the searches whose position is claimed before they have ended.
#[derive(Drop)]
struct LateSearches<'l> {
    // How many positions are claimed.
    claimed: AtomicU64,
    late: &'l AtomicU64,
}

impl<'l> Gate for LateSearches<'l> {
    fn at(&self, _worker: u32, point: Point, position: u32) {
        match point {
            Point::Searched => {
                if self.claimed.load(Ordering::SeqCst) > u64::from(position) {
                    self.late.fetch_add(1, Ordering::SeqCst);
                }
            }
            Point::Claimed => self
                .claimed
                .store(u64::from(position) + 1, Ordering::SeqCst),
            Point::Claiming | Point::Booked => {}
        }
    }
}
