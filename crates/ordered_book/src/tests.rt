ghost use Rattle.std.specs.Prelude.{◌≡◌, ◌<◌, IfOk};
ghost use Rattle.rc_instance.specs.Misfit.{HasNoMisfit};
ghost use Rattle.rc_instance.specs.Schedule.{serial_schedule};
ghost use Rattle.book_rule.specs.Listed.{count};
ghost use Rattle.book_table.specs.Passes.{IsFree};

use super::*;
use crate::claiming::book_next;
use activity_net::{FeasibleList, Net};
use book_search::seek;
use book_table::{Book, Pass};
use rc_edge::{Gate, NoGate, Point};
use rc_instance::{Instance, Parts, Schedule};
use serial_plain::serial;
use std::alloc::Global;
use std::sync::atomic::{AtomicU64, Ordering};
use std::test::*;

// How often the gate was called at each point, and the sum of the positions of the claims.
#[derive(Drop)]
struct Calls {
    claiming: AtomicU64,
    claimed: AtomicU64,
    booked: AtomicU64,
    positions: AtomicU64,
}

impl Gate for Calls {
    fn at(&self, _worker: u32, point: Point, position: u32) {
        let count = match point {
            Point::Searched => return,
            Point::Claiming => &self.claiming,
            Point::Claimed => {
                self.positions.fetch_add(position as u64, Ordering::SeqCst);
                &self.claimed
            }
            Point::Booked => &self.booked,
        };
        count.fetch_add(1, Ordering::SeqCst);
    }
}

fn no_calls() -> Calls {
    Calls {
        claiming: AtomicU64::new(0),
        claimed: AtomicU64::new(0),
        booked: AtomicU64::new(0),
        positions: AtomicU64::new(0),
    }
}

// The net of an instance with one resource: its capacity, and the durations, demands and successors.
fn net_of(
    alloc: Global,
    capacity: u32,
    durations: &[u32],
    demands: &[u32],
    successors: &[&[u32]],
) -> Result<Net, Fail>
    ensures { IfOk result (λ net. HasNoMisfit net.project) }
{
    let mut lists = Vec::new(alloc);
    for list in successors {
        lists.push(Vec::from_slice(alloc, list)?)?;
    }
    let parts = Parts {
        capacities: Vec::from_slice(alloc, &[capacity])?,
        durations: Vec::from_slice(alloc, durations)?,
        demands: Vec::from_slice(alloc, demands)?,
        successors: lists,
    };
    let count = parts.durations.len();
    if parts.successors.len() != count || parts.demands.len() != count {
        return Err(Fail::from("the lists have their lengths"));
    }
    let instance = Instance::build(alloc, parts)?;
    instance.fits_all()?;
    Ok(Net::of(alloc, instance)?)
}

// The net of six activities, of which four take time.
fn six_net(alloc: Global) -> Result<Net, Fail>
    ensures { IfOk result (λ net. HasNoMisfit net.project) }
{
    let successors: [&[u32]; 6] = [&[2, 3, 4], &[5], &[6], &[6], &[6], &[]];
    net_of(
        alloc,
        2,
        &[0, 3, 2, 2, 1, 0],
        &[0, 2, 1, 1, 1, 0],
        &successors,
    )
}

// The serial schedule of a list, made on a line of events.
fn known_of(alloc: Global, list: &FeasibleList<'_>) -> Result<Schedule, Fail>
    ensures { IfOk result (λ starts.
        starts ≡ serial_schedule list.now.network.project list.now.order) }
{
    Ok(serial(alloc, list)?)
}

// A new book of a list, and its two passes.
fn opened<'n>(alloc: Global, list: &'n FeasibleList<'n>) -> Result<(Book<'n>, Pass, Pass), Fail>
    requires { HasNoMisfit list.now.network.project }
    ensures { IfOk result (λ all. IsFree all.0 all.1 × IsFree all.0 all.2
        × (all.0.listing ≡ list.now)) }
{
    let (book, mut passes) = Book::open(alloc, list, 2)?;
    let Some(second) = passes.pop() else {
        return Err(Fail::from("two passes"));
    };
    let Some(first) = passes.pop() else {
        return Err(Fail::from("two passes"));
    };
    Ok((book, first, second))
}

// Books so many positions by one pass, with a look at the turn before each.
fn book_some(book: &Book<'_>, pass: &mut Pass, count: u32)
    requires { IsFree book.now pass.old }
    ensures { IsFree book.now pass.new }
{
    let last = 2 * book.positions() as u64;
    'tries: for _ in 0..count {
        let turn = book.load_turn(pass);
        if turn % 2 == 0 && turn < last {
            book_next(book, pass, turn, &NoGate);
        }
    }
}

// Begins a search ahead of a position, and searches its start.
fn search_ahead(book: &Book<'_>, pass: &mut Pass, position: u32) -> Option<u32>
    requires own { IsFree book.now pass.old }
    requires position { position < count book.now.listing }
    ensures { IsFree book.now pass.new }
{
    book.begin_search(pass, position);
    seek(book, pass)
}

#[test]
fn two_passes_book_all(rt: HostRuntime) -> Result<(), Fail> {
    let alloc = rt.alloc();
    let net = six_net(alloc)?;
    let list = FeasibleList::of(alloc, &net, &[1, 2, 3, 4, 5, 6])?;
    let (book, mut first, mut second) = opened(alloc, &list)?;
    book_some(&book, &mut first, 4);
    assert_eq!(rt; (first.mine(), first.resting()), (4, false));
    let calls = no_calls();
    assert_eq!(rt; advance(&book, &mut second, &calls), Advance::Complete);
    assert_eq!(rt; (second.mine(), second.loaded()), (2, 3));
    assert_eq!(rt; calls.claiming.load(Ordering::SeqCst), 2);
    assert_eq!(rt; calls.claimed.load(Ordering::SeqCst), 2);
    assert_eq!(rt; calls.booked.load(Ordering::SeqCst), 2);
    assert_eq!(rt; calls.positions.load(Ordering::SeqCst), 9);
    assert_eq!(rt; advance(&book, &mut first, &NoGate), Advance::Complete);
    assert_eq!(rt; (first.mine(), first.resting()), (4, true));
    Ok(())
}

#[test]
fn a_full_block_is_passed_by_one_load(rt: HostRuntime) -> Result<(), Fail> {
    let alloc = rt.alloc();
    let successors: [&[u32]; 2] = [&[], &[]];
    let net = net_of(alloc, 1, &[64, 1], &[1, 1], &successors)?;
    let list = FeasibleList::of(alloc, &net, &[1, 2])?;
    let (book, mut first, mut second) = opened(alloc, &list)?;
    book_some(&book, &mut first, 1);
    assert_eq!(rt; book.positions(), 2);
    assert_eq!(rt; search_ahead(&book, &mut second, 1), Some(64));
    assert_eq!(rt; second.loaded(), 65);
    assert_eq!(rt; search_ahead(&book, &mut second, 1), Some(64));
    assert_eq!(rt; second.loaded(), 66);
    Ok(())
}

#[test]
fn a_known_schedule_is_booked_without_a_search(rt: HostRuntime) -> Result<(), Fail> {
    let alloc = rt.alloc();
    let net = six_net(alloc)?;
    let list = FeasibleList::of(alloc, &net, &[1, 2, 3, 4, 5, 6])?;
    let known = known_of(alloc, &list)?;
    let (book, mut first, mut second) = opened(alloc, &list)?;
    let calls = no_calls();
    assert_eq!(rt;
        advance_known(&book, &mut first, &known, &calls),
        Advance::Complete
    );
    assert_eq!(rt; (first.mine(), first.loaded()), (6, 0));
    assert_eq!(rt; calls.claiming.load(Ordering::SeqCst), 6);
    assert_eq!(rt; calls.claimed.load(Ordering::SeqCst), 6);
    assert_eq!(rt; calls.booked.load(Ordering::SeqCst), 6);
    assert_eq!(rt; calls.positions.load(Ordering::SeqCst), 15);
    assert_eq!(rt;
        advance_known(&book, &mut second, &known, &NoGate),
        Advance::Complete
    );
    assert_eq!(rt; (second.mine(), second.resting()), (0, true));
    assert_eq!(rt; book.positions(), 6);
    assert_eq!(rt; book.load_start(&mut second, 4), 6);
    Ok(())
}

#[test]
fn a_search_and_known_starts_share_a_book(rt: HostRuntime) -> Result<(), Fail> {
    let alloc = rt.alloc();
    let net = six_net(alloc)?;
    let list = FeasibleList::of(alloc, &net, &[1, 2, 3, 4, 5, 6])?;
    let known = known_of(alloc, &list)?;
    let (book, mut first, mut second) = opened(alloc, &list)?;
    book_some(&book, &mut first, 3);
    assert_eq!(rt;
        advance_known(&book, &mut second, &known, &NoGate),
        Advance::Complete
    );
    assert_eq!(rt; (first.mine(), second.mine()), (3, 3));
    assert_eq!(rt; second.loaded(), 0);
    assert_eq!(rt; advance(&book, &mut first, &NoGate), Advance::Complete);
    Ok(())
}
