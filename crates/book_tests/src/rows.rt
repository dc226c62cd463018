// Rows that were worked by hand.
ghost use Rattle.std.specs.Prelude.{IfOk};
ghost use Rattle.book_table.specs.Passes.{IsFree, AreAll};

use crate::fixtures::{FIVE_RESOURCES, SIX, by_number, instance_of, net_of, with_pause};
use crate::outcome::outcome_of;
use book_table::{Book, Pass};
use std::process::Abort;
use std::test::*;

#[test]
fn a_book_closes_as_the_worked_schedule(rt: HostRuntime) -> Result<(), Fail> {
    let alloc = rt.alloc();
    let net = net_of(alloc, instance_of(alloc, SIX)?)?;
    let list = by_number(alloc, &net)?;
    for passes in [1, 2] {
        let outcome = outcome_of(&rt, alloc, &list, passes, None)?;
        assert_eq!(rt; outcome.starts.as_slice(), [0, 0, 3, 3, 5, 6].as_slice());
        assert_eq!(rt;
            outcome.words.as_slice(),
            [2, 2, 2, 2, 2, 1, 0, 0].as_slice()
        );
        assert_eq!(rt; outcome.booked.len(), passes as usize);
    }
    Ok(())
}

#[test]
fn a_booking_waits_for_the_pause_of_a_calendar(rt: HostRuntime) -> Result<(), Fail> {
    let alloc = rt.alloc();
    let instance = instance_of(alloc, SIX)?;
    assert_eq!(rt; instance.resources(), 1);
    let net = net_of(alloc, with_pause(alloc, instance)?)?;
    let list = by_number(alloc, &net)?;
    let outcome = outcome_of(&rt, alloc, &list, 2, None)?;
    assert_eq!(rt; outcome.starts.as_slice(), [0, 3, 6, 6, 8, 9].as_slice());
    Ok(())
}

#[test]
fn resources_stand_in_lanes_of_two_words(rt: HostRuntime) -> Result<(), Fail> {
    let alloc = rt.alloc();
    let net = net_of(alloc, instance_of(alloc, FIVE_RESOURCES)?)?;
    let list = by_number(alloc, &net)?;
    let outcome = outcome_of(&rt, alloc, &list, 1, None)?;
    let of_four = 0x0004_0003_0002_0001;
    assert_eq!(rt;
        outcome.words.as_slice(),
        [of_four, 5, of_four, 5].as_slice()
    );
    Ok(())
}

// The two passes of a book that hold nothing.
fn pair_of(book: &Book<'_>, passes: Vec<Pass>) -> Result<(Pass, Pass), Fail>
    requires { AreAll book.now passes.items }
    ensures { IfOk result (λ pair. IsFree book.now pair.0 × IsFree book.now pair.1) }
{
    let mut passes = passes;
    let Some(second) = passes.pop() else {
        return Err(Fail::from("there is a second pass"));
    };
    let Some(first) = passes.pop() else {
        return Err(Fail::from("there is a first pass"));
    };
    if first.hand().holds || second.hand().holds {
        return Err(Fail::from("a new pass holds nothing"));
    }
    Ok((first, second))
}

// Seven draws of a pass: a ticket for each of six positions, and one past the end.
fn draw_seven(rt: &impl Abort, book: &Book<'_>, pass: &mut Pass)
    requires { IsFree book.now pass.old }
    ensures { IsFree book.now pass.new }
{
    for ticket in 0..7 {
        assert_eq!(rt; book.take_ticket(pass), ticket);
    }
}

// The first booking of a list, whose activity takes no time.
fn book_first(rt: &impl Abort, book: &Book<'_>, pass: &mut Pass)
    requires { IsFree book.now pass.old }
    ensures { IsFree book.now pass.new }
{
    assert!(rt; book.positions() > 0);
    assert_eq!(rt; book.load_turn(pass), 0);
    let claimed = book.claim(pass, 0);
    assert_eq!(rt; claimed, Ok(()));
    let (search, hand) = (pass.search(), pass.hand());
    assert!(rt; hand.holds);
    assert!(rt; book.is_chosen(search) && book.is_whole(search.position, hand.added));
    book.store_start(pass);
    book.release(pass);
    assert_eq!(rt; pass.seen(), 2);
    assert_eq!(rt; pass.mine(), 1);
    assert!(rt; !pass.resting());
}

// A claim of the second position, by a pass that has seen the turn 2.
fn claim_second(rt: &impl Abort, book: &Book<'_>, pass: &mut Pass) -> Result<(), u64>
    requires { IsFree book.now pass.old }
{
    assert!(rt; book.positions() > 1);
    assert_eq!(rt; pass.seen(), 2);
    book.claim(pass, 2)
}

#[test]
fn two_passes_book_and_draw_step_by_step(rt: HostRuntime) -> Result<(), Fail> {
    let alloc = rt.alloc();
    let net = net_of(alloc, instance_of(alloc, SIX)?)?;
    let list = by_number(alloc, &net)?;
    let (book, passes) = Book::open(alloc, &list, 2)?;
    let (mut first, mut second) = pair_of(&book, passes)?;
    draw_seven(&rt, &book, &mut first);
    book_first(&rt, &book, &mut first);
    assert_eq!(rt; book.load_turn(&mut second), 2);
    assert_eq!(rt; claim_second(&rt, &book, &mut second), Ok(()));
    assert_eq!(rt; claim_second(&rt, &book, &mut first), Err(3));
    assert_eq!(rt; first.seen(), 3);
    assert!(rt; first.resting(), "it has seen that the other pass holds");
    Ok(())
}
