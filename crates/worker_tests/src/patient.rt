// A watch that puts its lines while a worker books.
ghost use Rattle.std.specs.Prelude.{Some};
ghost use Rattle.rc_instance.specs.Misfit.{HasNoMisfit};
ghost use Rattle.rc_edge.specs.MemSink.{bytes_of, faults_of};

use crate::fixtures::{SIX, SIX_STARTS, by_number, known_of, net_of, six_starts};
use activity_net::FeasibleList;
use book_table::Book;
use rc_edge::{Gate, MemSink, Point, Sink, SinkFault};
use std::alloc::Global;
use std::process::Abort;
use std::sync::atomic::{AtomicU64, Ordering};
use std::test::*;
use std::thread;
use std::thread::Threads;
use worker_run::{Ran, Watch, run_book};

// How often the note looks for the booking that it waits for.
const LOOKS: u32 = 20_000_000;

// How long a line `booked C of 6` is, and where its count stands.
const LINE: usize = 14;

const DIGIT: usize = 7;

// Whether the third position is booked, and how often that was waited for in vain.
#[derive(Drop)]
struct Third {
    booked: AtomicU64,
    missed: AtomicU64,
}

impl Third {
    // Waits for so many looks, and counts a wait in vain.
    fn wait(&self) {
        for _ in 0..LOOKS {
            if self.booked.load(Ordering::SeqCst) == 1 {
                return;
            }
            thread::yield_now();
        }
        self.missed.fetch_add(1, Ordering::SeqCst);
    }
}

impl Gate for Third {
    fn at(&self, _worker: u32, point: Point, position: u32) {
        if point == Point::Booked && position == 2 {
            self.booked.store(1, Ordering::SeqCst);
        }
    }
}

// A note whose first put waits until the third position is booked.
#[derive(Drop)]
struct Patient<'g> {
    inner: MemSink,
    waited: bool,
    third: &'g Third,
}

impl<'g> Sink for Patient<'g> {
    ghost held = { λ s. Some (bytes_of s.inner) };

    ghost faults = { λ s. faults_of s.inner };

    fn put(&mut self, piece: &[u8]) -> Result<usize, SinkFault> {
        if !self.waited {
            self.waited = true;
            self.third.wait();
        }
        self.inner.put(piece)
    }
}

// A run of one worker, beside a watch that looks twice.
fn watched<'n, R: Threads + Sync>(
    rt: &R,
    alloc: Global,
    list: &'n FeasibleList<'n>,
    third: &Third,
    note: &mut Patient<'_>,
) -> Result<Ran<'n>, Fail>
    requires { HasNoMisfit list.now.network.project }
{
    let known = known_of(alloc, list)?;
    let (book, mut passes) = Book::open(alloc, list, 2)?;
    let out = vec![in alloc; 0; book.positions() as usize]?;
    let Some(pass) = passes.pop() else {
        return Err(Fail::from("there is a pass for the watch"));
    };
    let watch = Watch {
        pass,
        times: 2,
        out,
    };
    Ok(run_book(rt, book, passes, &known, third, Some(watch), note))
}

#[test]
fn a_line_waits_for_no_booking_and_no_booking_for_a_line(rt: HostRuntime) -> Result<(), Fail> {
    let net = net_of(rt.alloc(), SIX)?;
    let list = by_number(rt.alloc(), &net)?;
    let third = Third {
        booked: AtomicU64::new(0),
        missed: AtomicU64::new(0),
    };
    let mut note = Patient {
        inner: MemSink::new(rt.alloc(), 100, 100, Vec::new(rt.alloc()))?,
        waited: false,
        third: &third,
    };
    let ran = watched(&rt, rt.alloc(), &list, &third, &mut note)?;
    assert_eq!(rt;
        (ran.note_failed, third.missed.load(Ordering::SeqCst)),
        (false, 0)
    );
    assert_eq!(rt; six_starts(&rt, ran.closed), SIX_STARTS);
    compare_lines(&rt, note.inner.bytes());
    Ok(())
}

// Of three lines `booked C of 6` the second one shows at least 3, and the third one 6.
fn compare_lines(rt: &impl Abort, lines: &[u8]) {
    assert_eq!(rt; lines.len(), 3 * LINE);
    assert!(rt; lines[LINE + DIGIT] >= b'3');
    assert_eq!(rt; lines[2 * LINE + DIGIT], b'6');
}
