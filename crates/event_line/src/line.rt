ghost use Rattle.std.specs.Prelude.{◌≡◌, ◌-◌, ◌<◌, ◌≤◌, [], length, take, slice_get, Some, IfOk};
ghost use Rattle.rc_instance.specs.Project.{IsActivity, activity_count, duration};
ghost use Rattle.event_line.specs.Timeline.{IsUnbooked, CanPlaceFrom, CanPlaceBy, IsPlacedFrom, IsPlacedBy, with_booking};

use crate::axis::Axis;
use crate::chain::HEAD;
use crate::demands::{Demands, pack_all};
use crate::entry::{Entry, nodes_with};
use rc_instance::{Instance, Memory};
use std::alloc::Global;
use std::marker::Model;

/// Bookings of activities of an instance, each with its start. Contracts see the instance and the
/// list of the bookings, the oldest first; they see nothing of the nodes.
///
/// Periods are counted from 0, activities from 1. Only [`Line::new`] takes memory.
#[derive(Drop)]
pub struct Line<'i> {
    instance: &'i Instance,
    axis: Axis,
    base: Axis,
    demands: Vec<Demands>,
    entries: Vec<Entry>,
    ends: Vec<u32>,
}

impl<'i> Model for Line<'i> {
    ghost use Rattle.event_line.specs.Timeline.{Timeline};

    ghost Value = { Timeline };

    ghost use Rattle.event_line.specs.LineView.{timeline_of, KeepsNodes};

    ghost view = { timeline_of };

    ghost invariant = { KeepsNodes };
}

impl<'i> Line<'i> {
    /// A line without bookings. All memory that it ever needs is taken here: it is refused only where
    /// there is not so much.
    pub fn new(alloc: Global, instance: &'i Instance) -> Result<Line<'i>, Memory>
        ensures { IfOk result (λ line. line ≡ record { project = instance.now; bookings = [] }) }
    {
        let base = Axis::of(alloc, instance)?;
        let room = 2 + instance.change_count() + 2 * instance.count();
        let mut axis = Axis::new(alloc, room, instance.resources())?;
        axis.copy(&base);
        Ok(Line {
            instance,
            axis,
            base,
            demands: pack_all(alloc, instance)?,
            entries: Vec::with_capacity(alloc, instance.count() as usize)?,
            ends: vec![in alloc; HEAD; instance.count() as usize]?,
        })
    }

    /// The instance of which activities are booked.
    pub fn instance(&self) -> &'i Instance
        ensures { result.now ≡ self.now.project }
    {
        self.instance
    }

    /// How many bookings there are.
    pub fn count(&self) -> u32
        ensures value { result ≡ length self.now.bookings }
        ensures within { length self.now.bookings ≤ activity_count self.now.project }
    {
        self.entries.len() as u32
    }

    /// The activity and the start of the booking at a place, counted from 0 at the oldest one.
    pub fn booked(&self, index: u32) -> (u32, u32)
        requires { index < length self.now.bookings }
        ensures value { slice_get self.now.bookings index
            ≡ Some (record { activity = result.0; start = result.1 }) }
        ensures activity { IsActivity self.now.project result.0 }
    {
        let entry = self.entries[index as usize];
        (entry.activity, entry.start)
    }

    /// Books an activity at its least start from a period on, and answers this start.
    pub fn place(&mut self, activity: u32, from: u32) -> u32
        requires { CanPlaceFrom self.old activity from }
        ensures { IsPlacedFrom self.old self.new activity from result }
    {
        let near = self.newest_node();
        self.place_from(activity, from, near)
    }

    /// The same. The search begins at the finish of an activity that is near, if it is booked.
    // Always inlined, as the steps that call it.
    #[inline(always)]
    pub fn place_near(&mut self, activity: u32, from: u32, near: u32) -> u32
        requires { CanPlaceFrom self.old activity from }
        ensures { IsPlacedFrom self.old self.new activity from result }
    {
        let near = self.end_node(near);
        self.place_from(activity, from, near)
    }

    // The same, from any number of a node on: one that is no node counts as the head. Always inlined: as a call
    // of its own it takes some 16 instructions an activity.
    #[inline(always)]
    fn place_from(&mut self, activity: u32, from: u32, near: u32) -> u32
        requires { CanPlaceFrom self.old activity from }
        ensures { IsPlacedFrom self.old self.new activity from result }
    {
        let duration = self.instance.duration(activity);
        if duration == 0 {
            self.note(activity, from, near);
            return from;
        }
        let near = self.axis.node_or_head(near);
        let demands = &self.demands[activity as usize - 1];
        let span = self.axis.least_start(demands, duration, from, near);
        let entry = self.axis.book(activity, duration, span, demands);
        self.ends[activity as usize - 1] = entry.end;
        self.entries.push_reserved(entry);
        span.start
    }

    /// Books an activity at its latest start that ends it by a period, and answers this start.
    pub fn place_last(&mut self, activity: u32, by: u32) -> u32
        requires { CanPlaceBy self.old activity by }
        ensures { IsPlacedBy self.old self.new activity by result }
    {
        let duration = self.instance.duration(activity);
        let near = self.newest_node();
        if duration == 0 {
            self.note(activity, by, near);
            return by;
        }
        let near = self.axis.node_or_head(near);
        let demands = &self.demands[activity as usize - 1];
        let span = self.axis.latest_start(demands, duration, by, near);
        let entry = self.axis.book(activity, duration, span, demands);
        self.ends[activity as usize - 1] = entry.end;
        self.entries.push_reserved(entry);
        span.start
    }

    /// Takes the newest booking away.
    pub fn undo(&mut self)
        requires { 0 < length self.old.bookings }
        ensures { self.new ≡ record self.old {
          bookings = take (length self.old.bookings - 1) self.old.bookings;
        } }
    {
        let newest = self.entries.take_last();
        let demands = &self.demands[newest.activity as usize - 1];
        self.axis.give(newest.first, newest.end, demands);
        let nodes = nodes_with(self.base.chain.len(), &self.entries);
        self.axis.cut(nodes);
    }

    /// Takes all bookings away.
    pub fn clear(&mut self)
        ensures { self.new ≡ record self.old { bookings = [] } }
    {
        self.axis.restore(&self.base);
        self.entries.truncate(0);
    }

    // Books an activity that takes no time.
    fn note(&mut self, activity: u32, start: u32, near: u32)
        requires activity { IsActivity self.old.project activity }
        requires unbooked { IsUnbooked self.old.bookings activity }
        requires idle { duration self.old.project activity ≡ 0 }
        ensures { self.new ≡ with_booking self.old activity start }
    {
        let node = self.axis.node_or_head(near);
        self.ends[activity as usize - 1] = node;
        self.entries.push_reserved(Entry {
            activity,
            start,
            first: node,
            end: node,
            nodes: self.axis.chain.len(),
        });
    }

    // A node where a search may begin: the one at which the newest booking begins.
    fn newest_node(&self) -> u32 {
        match self.entries.last() {
            Some(entry) => entry.first,
            None => HEAD,
        }
    }

    // A node where a search may begin: the one at which the activity ended, when it was booked last.
    fn end_node(&self, activity: u32) -> u32 {
        if 1 <= activity && activity as usize <= self.ends.len() {
            self.ends[activity as usize - 1]
        } else {
            HEAD
        }
    }
}
