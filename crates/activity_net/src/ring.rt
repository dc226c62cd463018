ghost use Rattle.std.specs.Prelude.{◌≡◌, ℕ, ◌+◌, ◌<◌, ◌≤◌, List, [], length, nat_eq, reverse, IsTrue, IfOk};
ghost use Rattle.std.specs.List.{find, position};
ghost use Rattle.std.specs.Fmt.{WritesOnOk};
ghost use Rattle.rc_instance.specs.Lists.{names};
ghost use Rattle.rc_instance.specs.Project.{activity_count, IsActivity};
ghost use Rattle.activity_net.specs.Network.{predecessor_table};
ghost use Rattle.activity_net.specs.Tables.{lists_in};
ghost use Rattle.activity_net.specs.Removal.{IsRemoval};
ghost use Rattle.activity_net.specs.RingWords.{ring_words};
ghost use Rattle.activity_net.specs.Ring.{stuck, least_stuck, least, way_back, from_least, shown_ring};

use crate::marks::first_unmarked;
use crate::removal::Removal;
use rc_instance::{Instance, Memory};
use std::alloc::Global;
use std::fmt;
use std::marker::Model;

/// A cycle of activities: each precedes the next one directly, and the last one the first.
#[derive(Debug, Drop)]
pub struct Ring {
    numbers: Vec<u32>,
}

impl Model for Ring {
    ghost Value = { List ℕ };

    ghost view = { λ ring. ring.numbers.items };
}

impl Ring {
    /// The activities, in order of precedence.
    pub fn numbers(&self) -> &[u32]
        ensures { result.now ≡ self.now }
    {
        &self.numbers
    }

    // The cycle on the way back from the least activity that is left, which is `start`.
    pub(crate) fn on_way_back(
        alloc: Global,
        instance: &Instance,
        predecessors: &[Vec<u32>],
        removal: &Removal,
        start: u32,
    ) -> Result<Ring, Memory>
        requires table { lists_in predecessors.now ≡ predecessor_table instance.now }
        requires removal { IsRemoval instance.now
            removal.now.order.items removal.now.removed.items }
        requires left { IsTrue (names (stuck instance.now) start) }
        requires start { start ≡ least_stuck instance.now }
        ensures { IfOk result (λ ring. ring ≡ shown_ring instance.now) }
    {
        let mut numbers = way_back(alloc, instance, predecessors, removal, start)?;
        numbers.reverse();
        turn_to_least(&mut numbers);
        Ok(Ring { numbers })
    }
}

impl fmt::Display for Ring {
    ghost use Rattle.std.specs.Prelude.{Some};
    ghost use Rattle.activity_net.specs.RingWords.{ring_words};

    ghost output = { λ ring. Some (ring_words ring) };

    fn fmt<W: fmt::Write>(&self, f: &mut fmt::Formatter<W>) -> fmt::Result {
        write_ring(f, &self.numbers)
    }
}

// The numbers of a cycle in their order, and the first of them once more.
fn write_ring<W: fmt::Write>(f: &mut fmt::Formatter<W>, numbers: &[u32]) -> fmt::Result
    ensures { WritesOnOk W.write_str_gives f.old result (ring_words numbers.now) f.new }
{
    f.write_str("cycle")?;
    for number in numbers {
        write!(f, " {number}")?;
    }
    match numbers {
        [] => Ok(()),
        [first, ..] => write!(f, " {first}"),
    }
}

// Goes from an activity to its least predecessor that is left, until a number comes twice: what was
// passed between its two places.
fn way_back(
    alloc: Global,
    instance: &Instance,
    predecessors: &[Vec<u32>],
    removal: &Removal,
    start: u32,
) -> Result<Vec<u32>, Memory>
    requires table { lists_in predecessors.now ≡ predecessor_table instance.now }
    requires removal { IsRemoval instance.now removal.now.order.items removal.now.removed.items }
    requires left { IsTrue (names (stuck instance.now) start) }
    ensures { IfOk result (λ way. way.items
        ≡ way_back instance.now (activity_count instance.now + 1) [] start) }
{
    let mut passed = Vec::new(alloc);
    let mut here = start;
    for _ in 0..instance.count() + 1 {
        if let Some(place) = place_of(here, &passed) {
            return Ok(Vec::from_slice(alloc, &passed[place..])?);
        }
        passed.push(here)?;

        // Each activity that is left has a predecessor that is left.
        here = first_unmarked(&predecessors[here as usize - 1], &removal.removed).unwrap();
    }
    Ok(passed)
}

// Turns a ring so that it begins with its least number.
fn turn_to_least(ring: &mut [u32])
    ensures { ring.new ≡ from_least ring.old }
{
    let least = least(ring);
    if let Some(place) = place_of(least, ring) {
        ring.rotate_left(place);
    }
}

// The least number of a list that is not empty.
fn least(list: &[u32]) -> u32
    ensures { result ≡ least list.now }
{
    let first = list.first().copied().unwrap_or(0);
    list.iter().fold(first, |least, a| least.min(*a))
}

// The first place of a number in a list.
fn place_of(number: u32, list: &[u32]) -> Option<usize>
    ensures { result ≡ position (λ a. nat_eq a number) list.now }
{
    list.iter().position(|a| *a == number)
}
