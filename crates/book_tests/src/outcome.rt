// What a book comes to whose passes have all come to rest.
ghost use Rattle.std.specs.Prelude.{◌≡◌, ◌≤◌};
ghost use Rattle.rc_instance.specs.Misfit.{HasNoMisfit};
ghost use Rattle.rc_instance.specs.Project.{activity_count};
ghost use Rattle.book_rule.specs.Listed.{project_of, horizon_of, width};

use crate::stepping::{are_at_rest, steps};
use activity_net::FeasibleList;
use book_table::{Book, Closed};
use std::alloc::{AllocError, Global};
use std::process::Abort;
use std::test::*;

// So many steps are enough for each of the books here.
const STEPS: u64 = 2_000_000;

// The start of each activity, the words of each period, and how many bookings each pass has made.
#[derive(Drop)]
pub(crate) struct Outcome {
    pub(crate) starts: Vec<u32>,
    pub(crate) words: Vec<u64>,
    pub(crate) booked: Vec<u32>,
}

// The outcome of a book of a list, with so many passes that step in turn, or in an order that is drawn
// from a seed.
pub(crate) fn outcome_of(
    rt: &impl Abort,
    alloc: Global,
    list: &FeasibleList<'_>,
    passes: u32,
    seed: Option<u64>,
) -> Result<Outcome, Fail>
    requires fits { HasNoMisfit list.now.network.project }
    requires passes { (1 ≤ passes) × (passes ≤ 65) }
{
    let (book, mut passes) = Book::open(alloc, list, passes)?;
    steps(&book, &mut passes, STEPS, seed)?;
    assert!(rt; are_at_rest(&book, &passes));
    is_send(&book);
    is_sync(&book);
    is_send(&passes);
    let (positions, horizon, words) = (book.positions(), book.horizon(), book.words());
    let closed = book.close(passes, None);
    Ok(Outcome {
        starts: starts_of(alloc, &closed, positions)?,
        words: words_of(alloc, &closed, horizon, words)?,
        booked: booked_by(alloc, &closed)?,
    })
}

fn is_send<T: Send>(_: &T) {}

fn is_sync<T: Sync>(_: &T) {}

// The starts of so many activities, in order of number.
fn starts_of(alloc: Global, closed: &Closed<'_>, count: u32) -> Result<Vec<u32>, AllocError>
    requires { activity_count (project_of closed.now.listing) ≡ count }
{
    let mut starts = Vec::new(alloc);
    for index in 0..count {
        starts.push(closed.start(index + 1))?;
    }
    Ok(starts)
}

// The words of so many periods, so many each.
fn words_of(
    alloc: Global,
    closed: &Closed<'_>,
    periods: u32,
    words: u32,
) -> Result<Vec<u64>, AllocError>
    requires periods { horizon_of closed.now.listing ≡ periods }
    requires words { width closed.now.listing ≡ words }
{
    let mut all = Vec::new(alloc);
    for period in 0..periods {
        for index in 0..words {
            all.push(closed.word(period, index))?;
        }
    }
    Ok(all)
}

// How many bookings each pass has made.
fn booked_by(alloc: Global, closed: &Closed<'_>) -> Result<Vec<u32>, AllocError> {
    let mut booked = Vec::new(alloc);
    for pass in 0..closed.passes() {
        booked.push(closed.booked(pass))?;
    }
    Ok(booked)
}
