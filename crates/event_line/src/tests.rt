ghost use Rattle.std.specs.Prelude.{◌≡◌, ℕ, ◌+◌, ◌*◌, ◌^◌, ◌<◌, ◌≤◌, length, take, IsTrue};
ghost use Rattle.rc_instance.specs.Project.{IsActivity, IsResource, activity_count, demand, capacity_at};
ghost use Rattle.rc_instance.specs.Usage.{Fits, last_finish, use_of, usage};
ghost use Rattle.event_line.specs.Timeline.{IsUnbooked, FitsAtRest};
ghost use Rattle.rc_instance.specs.declared.limits.TheConstants.{MAX_HORIZON};

use super::*;
use Call::*;
use rc_instance::limits::MAX_HORIZON;
use rc_instance::{Change, Instance, Parts};
use std::alloc::Global;
use std::test::*;

// A call of a line, and last the start that it is to answer.
enum Call {
    // An activity from a period on.
    Place(u32, u32, u32),

    // An activity from a period on, near another one.
    PlaceNear(u32, u32, u32, u32),

    // An activity by an end.
    PlaceLast(u32, u32, u32),

    Undo,
    Clear,
}

// Whether no booking is of the activity.
fn is_unbooked(line: &Line<'_>, activity: u32) -> bool
    ensures { IsTrue result → IsUnbooked line.now.bookings activity }
{
    for index in 0..line.count() {
        if line.booked(index).0 == activity {
            return false;
        }
    }
    true
}

// Whether each booking ends by the greatest horizon.
fn ends_in_time(line: &Line<'_>) -> bool
    ensures { IsTrue result → last_finish line.now.project line.now.bookings ≤ MAX_HORIZON }
{
    for index in 0..line.count() {
        let (activity, start) = line.booked(index);
        if start > MAX_HORIZON || line.instance().duration(activity) > MAX_HORIZON - start {
            return false;
        }
    }
    true
}

// Whether the activity can run once nothing changes any more and nothing runs.
fn fits_at_rest(line: &Line<'_>, activity: u32) -> bool
    requires { IsActivity line.now.project activity }
    ensures { IsTrue result → FitsAtRest line.now.project activity }
{
    let instance = line.instance();
    for resource in 1..instance.resources() + 1 {
        if instance.demand(activity, resource) > instance.last_capacity(resource) {
            return false;
        }
    }
    true
}

// What a booking uses of a resource in a period.
fn use_of(instance: &Instance, booking: (u32, u32), resource: u32, period: u32) -> u64
    requires activity { IsActivity instance.now booking.0 }
    requires resource { IsResource instance.now resource }
    ensures value { result ≡ use_of instance.now resource period
        (record { activity = booking.0; start = booking.1 }) }
    ensures within { result < 2 ^ 32 }
{
    let (activity, start) = booking;
    if start <= period && period - start < instance.duration(activity) {
        u64::from(instance.demand(activity, resource))
    } else {
        0
    }
}

// What the bookings use of a resource in a period.
fn used(line: &Line<'_>, resource: u32, period: u32) -> u64
    requires { IsResource line.now.project resource }
    ensures { result ≡ usage line.now.project line.now.bookings resource period }
{
    let mut used: u64 = 0;
    for index in 0..line.count() {
        used += use_of(line.instance(), line.booked(index), resource, period);
    }
    used
}

// Whether the activity exceeds no capacity in a period.
fn has_room(line: &Line<'_>, activity: u32, period: u32) -> bool
    requires { IsActivity line.now.project activity }
    ensures { IsTrue result → (k : ℕ) → IsResource line.now.project k
        → usage line.now.project line.now.bookings k period + demand line.now.project activity k
        ≤ capacity_at line.now.project k period }
{
    let instance = line.instance();
    for resource in 1..instance.resources() + 1 {
        let capacity = u64::from(instance.capacity_at(resource, period));
        let used = used(line, resource, period);
        if used > capacity || u64::from(instance.demand(activity, resource)) > capacity - used {
            return false;
        }
    }
    true
}

// Whether the activity fits at a start.
fn fits(line: &Line<'_>, activity: u32, start: u32) -> bool
    requires activity { IsActivity line.now.project activity }
    requires start { start ≤ MAX_HORIZON }
    ensures { IsTrue result → Fits line.now.project line.now.bookings activity start }
{
    for period in start..start + line.instance().duration(activity) {
        if !has_room(line, activity, period) {
            return false;
        }
    }
    true
}

// Whether an activity may be placed.
fn may_place(line: &Line<'_>, activity: u32) -> bool
    ensures activity { IsTrue result → IsActivity line.now.project activity }
    ensures unbooked { IsTrue result → IsUnbooked line.now.bookings activity }
    ensures fits { IsTrue result → FitsAtRest line.now.project activity }
    ensures ended { IsTrue result
        → last_finish line.now.project line.now.bookings ≤ MAX_HORIZON }
{
    if activity == 0 || activity > line.instance().count() {
        return false;
    }
    is_unbooked(line, activity) && fits_at_rest(line, activity) && ends_in_time(line)
}

// Makes a call, and compares its answer.
fn make(line: &mut Line<'_>, call: &Call) -> Result<(), Fail> {
    let (answer, start) = match call {
        Place(activity, from, start) => (place(line, *activity, *from)?, *start),
        PlaceNear(activity, from, near, start) => (
            place_near(line, *activity, *from, *near)?,
            *start,
        ),
        PlaceLast(activity, by, start) => (place_last(line, *activity, *by, *start)?, *start),
        Undo => (undo(line)?, 0),
        Clear => {
            line.clear();
            (0, 0)
        }
    };
    if answer != start {
        return Err(Fail::from("the starts differ"));
    }
    Ok(())
}

fn place(line: &mut Line<'_>, activity: u32, from: u32) -> Result<u32, Fail> {
    if from > MAX_HORIZON || !may_place(line, activity) {
        return Err(Fail::from("the activity may be placed"));
    }
    Ok(line.place(activity, from))
}

fn place_near(line: &mut Line<'_>, activity: u32, from: u32, near: u32) -> Result<u32, Fail> {
    if from > MAX_HORIZON || !may_place(line, activity) {
        return Err(Fail::from("the activity may be placed near another"));
    }
    Ok(line.place_near(activity, from, near))
}

// A start is known that ends the activity by the end.
fn place_last(line: &mut Line<'_>, activity: u32, by: u32, start: u32) -> Result<u32, Fail> {
    if by > MAX_HORIZON || start > by || !may_place(line, activity) {
        return Err(Fail::from("the activity may be placed last"));
    }
    if line.instance().duration(activity) > by - start || !fits(line, activity, start) {
        return Err(Fail::from("the activity fits"));
    }
    Ok(line.place_last(activity, by))
}

fn undo(line: &mut Line<'_>) -> Result<u32, Fail> {
    if line.count() == 0 {
        return Err(Fail::from("there is a booking"));
    }
    line.undo();
    Ok(0)
}

// Makes calls one after the other.
fn make_all(line: &mut Line<'_>, calls: &[Call]) -> Result<(), Fail> {
    for call in calls {
        make(line, call)?;
    }
    Ok(())
}

// An instance with one resource and without precedence, which a line does not look at.
fn instance_of(
    alloc: Global,
    capacity: u32,
    durations: &[u32],
    demands: &[u32],
) -> Result<Instance, Fail> {
    if durations.len() != demands.len() {
        return Err(Fail::from("each activity has a demand"));
    }
    let mut successors = Vec::new(alloc);
    for _ in durations {
        successors.push(Vec::new(alloc))?;
    }
    let parts = Parts {
        capacities: vec![in alloc; capacity]?,
        durations: Vec::from_slice(alloc, durations)?,
        demands: Vec::from_slice(alloc, demands)?,
        successors,
    };
    if parts.successors.len() != parts.durations.len() {
        return Err(Fail::from("each activity has successors"));
    }
    Ok(Instance::build(alloc, parts)?)
}

// The same instance without its first resource in periods 1 and 2.
fn with_pause(alloc: Global, instance: Instance, capacity: u32) -> Result<Instance, Fail>
    requires { capacity ≤ 10 }
{
    if instance.resources() == 0 {
        return Err(Fail::from("there is a resource"));
    }
    let stop = Change {
        resource: 1,
        period: 1,
        capacity: 0,
    };
    let resume = Change {
        resource: 1,
        period: 3,
        capacity,
    };
    Ok(instance.with_calendar(vec![in alloc; stop, resume]?))
}

// Six activities on one resource: of capacity 2, with these durations and demands.
fn six(alloc: Global) -> Result<Instance, Fail> {
    instance_of(alloc, 2, &[0, 3, 2, 2, 1, 0], &[0, 2, 1, 1, 1, 0])
}

const ROUND: [Call; 11] = [
    Place(2, 0, 0),
    Place(3, 0, 3),
    Place(4, 0, 3),
    Place(5, 3, 5),
    Undo,
    Place(5, 3, 5),
    Clear,
    PlaceLast(5, 6, 5),
    PlaceLast(2, 5, 2),
    PlaceLast(3, 6, 0),
    PlaceLast(4, 6, 0),
];

#[test]
fn each_round_answers_the_same(rt: HostRuntime) -> Result<(), Fail> {
    let instance = six(rt.alloc())?;
    let mut line = Line::new(rt.alloc(), &instance)?;
    for _ in 0..1000 {
        line.clear();
        make_all(&mut line, &ROUND)?;
    }
    Ok(())
}

// Gaps are filled, also just before and just after others; what takes no time starts at once.
const GAPS: [Call; 12] = [
    Place(2, 4, 4),
    Place(3, 0, 0),
    Place(4, 1, 1),
    Place(5, 4, 7),
    Undo,
    Place(5, 3, 3),
    Place(1, 5, 5),
    Place(6, 100, 100),
    Undo,
    Undo,
    Undo,
    PlaceLast(5, 7, 3),
];

#[test]
fn gaps_are_filled(rt: HostRuntime) -> Result<(), Fail> {
    let instance = six(rt.alloc())?;
    make_all(&mut Line::new(rt.alloc(), &instance)?, &GAPS)
}

// The answer does not hang on the activity that is named near: one that was undone, none, or any.
const NEAR: [Call; 10] = [
    PlaceNear(2, 0, 0, 0),
    PlaceNear(3, 0, 2, 3),
    PlaceNear(4, 0, 3, 3),
    PlaceNear(5, 3, 2, 5),
    Undo,
    PlaceNear(5, 3, 5, 5),
    Undo,
    PlaceNear(5, 0, 6, 5),
    Undo,
    PlaceNear(5, 4, 7, 5),
];

#[test]
fn any_activity_may_be_near(rt: HostRuntime) -> Result<(), Fail> {
    let instance = six(rt.alloc())?;
    make_all(&mut Line::new(rt.alloc(), &instance)?, &NEAR)
}

// Nothing runs in periods 1 and 2.
const PAUSED: [Call; 8] = [
    Place(1, 0, 0),
    Place(2, 0, 3),
    Place(3, 0, 6),
    Place(4, 0, 6),
    Place(5, 6, 8),
    Place(6, 9, 9),
    Clear,
    PlaceLast(5, 3, 0),
];

#[test]
fn a_pause_is_waited_for(rt: HostRuntime) -> Result<(), Fail> {
    let instance = with_pause(rt.alloc(), six(rt.alloc())?, 2)?;
    make_all(&mut Line::new(rt.alloc(), &instance)?, &PAUSED)
}

// There is nothing before period 3.
const LATE: [Call; 3] = [Place(1, 0, 3), Undo, PlaceLast(1, 9, 8)];

#[test]
fn a_capacity_may_come_late(rt: HostRuntime) -> Result<(), Fail> {
    let instance = with_pause(rt.alloc(), instance_of(rt.alloc(), 0, &[1], &[1])?, 1)?;
    make_all(&mut Line::new(rt.alloc(), &instance)?, &LATE)
}

// The bookings are told in order, the oldest first.
#[test]
fn bookings_are_told(rt: HostRuntime) -> Result<(), Fail> {
    let instance = six(rt.alloc())?;
    let mut line = Line::new(rt.alloc(), &instance)?;
    make_all(&mut line, &ROUND[..3])?;
    if line.count() != 3 {
        return Err(Fail::from("there are three bookings"));
    }
    for (index, told) in [(2, 0), (3, 3), (4, 3)].iter().enumerate() {
        if index as u32 >= line.count() || line.booked(index as u32) != *told {
            return Err(Fail::from("the bookings differ"));
        }
    }
    Ok(())
}

// A line may be given to another thread.
fn is_send<T: Send>(_: &T) {}

#[test]
fn a_line_may_be_sent(rt: HostRuntime) -> Result<(), Fail> {
    let instance = six(rt.alloc())?;
    is_send(&Line::new(rt.alloc(), &instance)?);
    Ok(())
}
