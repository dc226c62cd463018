ghost use Rattle.std.specs.Prelude.{◌≡◌, IfOk};
ghost use Rattle.rc_instance.specs.Misfit.{HasNoMisfit};
ghost use Rattle.rc_instance.specs.Schedule.{serial_schedule};
ghost use Rattle.book_table.specs.Passes.{IsFree};

use activity_net::{FeasibleList, Net};
use book_table::{Book, Closed, Pass};
use patterson_read::read_rcp;
use rc_instance::{Instance, Schedule};
use serial_plain::serial;
use std::alloc::Global;
use std::process::Abort;
use std::test::*;

// Six activities that share one resource of capacity 2, in the Patterson format.
pub(crate) static SIX: &str = "6 1\n2\n0 0 3 2 3 4\n3 2 1 5\n2 1 1 6\n2 1 1 6\n1 1 1 6\n0 0 0\n";

// Their serial starts by number.
pub(crate) const SIX_STARTS: [u32; 6] = [0, 0, 3, 3, 5, 6];

// Two activities that share one resource of capacity 1, of which the first takes 64 periods.
pub(crate) static LONG: &str = "2 1\n1\n64 1 0\n1 1 0\n";

// The instance of a text.
fn instance_of(alloc: Global, text: &str) -> Result<Instance, Fail> {
    if text.len() > 1000 {
        return Err(Fail::from("the text is short"));
    }
    Ok(read_rcp(alloc, text.as_bytes())?)
}

// The net of a text without a cycle and without a misfit.
pub(crate) fn net_of(alloc: Global, text: &str) -> Result<Net, Fail>
    ensures { IfOk result (λ net. HasNoMisfit net.project) }
{
    let instance = instance_of(alloc, text)?;
    instance.fits_all()?;
    Ok(Net::of(alloc, instance)?)
}

// The list of the activities by number.
pub(crate) fn by_number<'n>(alloc: Global, net: &'n Net) -> Result<FeasibleList<'n>, Fail>
    requires { HasNoMisfit net.now.project }
    ensures { IfOk result (λ list. HasNoMisfit list.network.project) }
{
    let mut order = Vec::new(alloc);
    for activity in 1..net.instance().count() + 1 {
        order.push(activity)?;
    }
    Ok(FeasibleList::of(alloc, net, &order)?)
}

// The serial schedule of a list, made on a line of events.
pub(crate) fn known_of(alloc: Global, list: &FeasibleList<'_>) -> Result<Schedule, Fail>
    ensures { IfOk result (λ starts.
        starts ≡ serial_schedule list.now.network.project list.now.order) }
{
    Ok(serial(alloc, list)?)
}

// A new book of a list, and its two passes.
pub(crate) fn opened<'n>(
    alloc: Global,
    list: &'n FeasibleList<'n>,
) -> Result<(Book<'n>, Pass, Pass), Fail>
    requires { HasNoMisfit list.now.network.project }
    ensures { IfOk result (λ all. IsFree all.0 all.1 × IsFree all.0 all.2) }
{
    let (book, mut passes) = Book::open(alloc, list, 2)?;
    let Some(second) = passes.pop() else {
        return Err(Fail::from("two passes"));
    };
    let Some(first) = passes.pop() else {
        return Err(Fail::from("two passes"));
    };
    Ok((book, first, second))
}

// The starts of six activities in a closed book.
pub(crate) fn six_starts(rt: &impl Abort, closed: Closed<'_>) -> [u32; 6] {
    let schedule = closed.into_schedule();
    assert_eq!(rt; schedule.count(), 6);
    [
        schedule.start(1),
        schedule.start(2),
        schedule.start(3),
        schedule.start(4),
        schedule.start(5),
        schedule.start(6),
    ]
}
