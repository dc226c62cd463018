// Searches ahead, offers and reports on a book of two passes, of which the first one books.
ghost use Rattle.book_table.specs.Passes.{IsFree};

use crate::booking::{book_some, claim_next};
use crate::fixtures::{LONG, SIX, by_number, net_of, opened};
use book_table::{Book, Pass};
use ordered_book::{Advance, advance};
use rc_edge::NoGate;
use report_reader::report;
use spec_search::{Guess, offer, speculate};
use std::process::Abort;
use std::test::*;

// How many positions are booked more, and what a search ahead of the fifth position and a report on
// six entries that were 9 then tell.
struct Row {
    more: u32,
    guess: Guess,
    complete: u32,
    starts: [u32; 6],
}

static ROWS: [Row; 3] = [
    Row {
        more: 0,
        guess: Guess::Found {
            start: 0,
            seen_before: 0,
            seen_after: 0,
        },
        complete: 0,
        starts: [9, 9, 9, 9, 9, 9],
    },
    Row {
        more: 4,
        guess: Guess::Found {
            start: 5,
            seen_before: 8,
            seen_after: 8,
        },
        complete: 4,
        starts: [0, 0, 3, 3, 9, 9],
    },
    Row {
        more: 2,
        guess: Guess::Late { turn: 12 },
        complete: 6,
        starts: [0, 0, 3, 3, 5, 6],
    },
];

// What a search ahead of the fifth position finds. A start is offered.
fn fifth(rt: &impl Abort, book: &Book<'_>, pass: &mut Pass) -> Guess
    requires { IsFree book.now pass.old }
    ensures { IsFree book.now pass.new }
{
    assert!(rt; book.positions() > 4);
    let guess = speculate(book, pass, 4);
    if let Guess::Found { start, .. } = guess {
        offer(book, pass, 4, start);
    }
    guess
}

// What a report shows of six entries that were 9.
fn reported(rt: &impl Abort, book: &Book<'_>, pass: &mut Pass) -> (u32, [u32; 6])
    requires { IsFree book.now pass.old }
    ensures { IsFree book.now pass.new }
{
    let mut starts = [9; 6];
    assert!(rt; book.positions() <= 6);
    let complete = report(book, pass, &mut starts);
    (complete, starts)
}

// Books on by the first pass, and compares each row with what the second one is told.
fn compare_rows(
    rt: &impl Abort,
    book: &Book<'_>,
    first: &mut Pass,
    second: &mut Pass,
) -> Result<(), Fail>
    requires { IsFree book.now first.old × IsFree book.now second.old }
{
    'rows: for row in &ROWS {
        book_some(book, first, row.more)?;
        assert_eq!(rt; fifth(rt, book, second), row.guess);
        assert_eq!(rt; reported(rt, book, second), (row.complete, row.starts));
    }
    Ok(())
}

#[test]
fn searches_and_reports_follow_the_bookings(rt: HostRuntime) -> Result<(), Fail> {
    let net = net_of(rt.alloc(), SIX)?;
    let list = by_number(rt.alloc(), &net)?;
    let (book, mut first, mut second) = opened(rt.alloc(), &list)?;
    compare_rows(&rt, &book, &mut first, &mut second)
}

// Four positions are booked, and a start is offered for the fifth one. The holder then loads no more
// than one word for the two that are left, and both passes come to rest.
fn compare_loads(
    rt: &impl Abort,
    book: &Book<'_>,
    first: &mut Pass,
    second: &mut Pass,
) -> Result<(), Fail>
    requires { IsFree book.now first.old × IsFree book.now second.old }
{
    book_some(book, first, 4)?;
    fifth(rt, book, first);
    let loaded = first.loaded();
    assert_eq!(rt; advance(book, first, &NoGate), Advance::Complete);
    assert_eq!(rt; first.mine(), 6);
    assert!(rt; first.loaded() <= loaded.saturating_add(1));
    assert_eq!(rt; advance(book, second, &NoGate), Advance::Complete);
    assert!(rt; first.resting() && second.resting());
    Ok(())
}

#[test]
fn an_offer_spares_the_holder_its_search(rt: HostRuntime) -> Result<(), Fail> {
    let net = net_of(rt.alloc(), SIX)?;
    let list = by_number(rt.alloc(), &net)?;
    let (book, mut first, mut second) = opened(rt.alloc(), &list)?;
    compare_loads(&rt, &book, &mut first, &mut second)
}

// The first pass loads the offer for the fifth position, and the second one makes it, before that or
// too late.
fn load_and_offer(
    rt: &impl Abort,
    book: &Book<'_>,
    first: &mut Pass,
    second: &mut Pass,
    is_late: bool,
)
    requires { IsFree book.now first.old × IsFree book.now second.old }
    ensures { IsFree book.now first.new × IsFree book.now second.new }
{
    assert!(rt; book.positions() > 4);
    if is_late {
        book.load_offer(first, 4);
        fifth(rt, book, second);
    } else {
        fifth(rt, book, second);
        book.load_offer(first, 4);
    }
}

// Where the search of the holder of the fifth position begins.
fn begins_at(
    rt: &impl Abort,
    book: &Book<'_>,
    first: &mut Pass,
    second: &mut Pass,
    is_late: bool,
) -> Result<u32, Fail>
    requires { IsFree book.now first.old × IsFree book.now second.old }
{
    book_some(book, first, 4)?;
    load_and_offer(rt, book, first, second, is_late);
    claim_next(book, first)?;
    Ok(first.search().least)
}

#[test]
fn a_late_offer_is_not_adopted(rt: HostRuntime) -> Result<(), Fail> {
    let net = net_of(rt.alloc(), SIX)?;
    let list = by_number(rt.alloc(), &net)?;
    for (is_late, least) in [(false, 5), (true, 0)] {
        let (book, mut first, mut second) = opened(rt.alloc(), &list)?;
        assert_eq!(rt;
            begins_at(&rt, &book, &mut first, &mut second, is_late)?,
            least
        );
    }
    Ok(())
}

// The first activity is booked. Each of two searches finds the start 64, and so many words have then
// been loaded.
fn compare_searches(
    rt: &impl Abort,
    book: &Book<'_>,
    first: &mut Pass,
    second: &mut Pass,
) -> Result<(), Fail>
    requires { IsFree book.now first.old × IsFree book.now second.old }
{
    book_some(book, first, 1)?;
    assert!(rt; book.positions() > 1);
    let found = Guess::Found {
        start: 64,
        seen_before: 2,
        seen_after: 2,
    };
    'searches: for loaded in [65, 66] {
        assert_eq!(rt; speculate(book, second, 1), found);
        assert_eq!(rt; second.loaded(), loaded);
    }
    Ok(())
}

#[test]
fn a_second_search_passes_a_full_block_by_its_floor(rt: HostRuntime) -> Result<(), Fail> {
    let net = net_of(rt.alloc(), LONG)?;
    let list = by_number(rt.alloc(), &net)?;
    let (book, mut first, mut second) = opened(rt.alloc(), &list)?;
    compare_searches(&rt, &book, &mut first, &mut second)
}
