ghost use Rattle.std.specs.Prelude.{◌≡◌, ◌≢◌, ℕ, ◌+◌, ◌-◌, ◌<◌, ◌≤◌, ◌∷◌, [], length, take, slice_index, IfOk};
ghost use Rattle.rc_instance.specs.declared.limits.TheConstants.{MAX_RESOURCES};
ghost use Rattle.event_line.specs.declared.chain.TheConstants.{FAR, MAX_NODES};
ghost use Rattle.event_line.specs.Chain.{IsChain, StandsFor, IsLonger};
ghost use Rattle.event_line.specs.Rows.{HasRoomFrom, HasRoomBefore, CanTakeBack, IsTaken, IsRefined, IsBooked, row_at};
ghost use Rattle.event_line.specs.Journal.{IsMade};

use crate::chain::{Chain, HEAD};
use crate::demands::Demands;
use crate::entry::Entry;
use crate::rows::Rows;
use crate::search::Span;
use rc_instance::Memory;
use std::alloc::Global;

/// A chain of nodes, with what is free of each resource from each node up to the next one.
#[derive(Drop)]
pub(crate) struct Axis {
    pub(crate) chain: Chain,
    pub(crate) free: Rows,
    ghost shape: { length free.rows ≡ chain.room },
    ghost nodes: { length chain.periods ≤ chain.room },
}

impl Axis {
    /// The head and the tail, with room for so many nodes of rows so wide.
    pub(crate) fn new(alloc: Global, room: u32, width: u32) -> Result<Axis, Memory>
        requires room { (2 ≤ room) × (room ≤ MAX_NODES) }
        requires width { width ≤ MAX_RESOURCES }
        ensures { IfOk result (λ axis. (axis.chain ≡ record { periods = FAR ∷ 0 ∷ []; room = room })
            × (axis.free.width ≡ width)) }
    {
        Ok(Axis {
            chain: Chain::new(alloc, room)?,
            free: Rows::new(alloc, room, width)?,
        })
    }

    // The node at a period, which is made where there is none, after the node that stands for it.
    fn split(&mut self, at: u32, period: u32) -> u32
        requires stands { StandsFor self.old.chain.periods at period }
        requires room { length self.old.chain.periods < self.old.chain.room }
        ensures refined { IsRefined self.old.chain.periods self.old.free.rows
            self.new.chain.periods self.new.free.rows }
        ensures few { length self.new.chain.periods ≤ length self.old.chain.periods + 1 }
        ensures inside { result < length self.new.chain.periods }
        ensures at { slice_index self.new.chain.periods result ≡ period }
        ensures others { (i : ℕ) → i < length self.new.chain.periods → i ≢ result
            → i < length self.old.chain.periods }
        ensures room { self.new.chain.room ≡ self.old.chain.room }
        ensures width { self.new.free.width ≡ self.old.free.width }
    {
        if self.chain.period(at) == period {
            return at;
        }
        let node = self.chain.insert(at, period);
        self.free.copy(at, node);
        node
    }

    // The node at the end of a span.
    fn split_end(&mut self, span: Span, end: u32) -> u32
        requires last { StandsFor self.old.chain.periods span.last (end - 1) }
        requires end { (0 < end) × (end < FAR) }
        requires room { length self.old.chain.periods < self.old.chain.room }
        ensures refined { IsRefined self.old.chain.periods self.old.free.rows
            self.new.chain.periods self.new.free.rows }
        ensures few { length self.new.chain.periods ≤ length self.old.chain.periods + 1 }
        ensures inside { result < length self.new.chain.periods }
        ensures at { slice_index self.new.chain.periods result ≡ end }
        ensures others { (i : ℕ) → i < length self.new.chain.periods → i ≢ result
            → i < length self.old.chain.periods }
        ensures room { self.new.chain.room ≡ self.old.chain.room }
        ensures width { self.new.free.width ≡ self.old.free.width }
    {
        let next = self.chain.next(span.last);
        if self.chain.period(next) == end {
            return next;
        }
        self.split(span.last, end)
    }

    /// The node of this number, or the head where there is none.
    pub(crate) fn node_or_head(&self, number: u32) -> u32
        ensures inside { result < length self.now.chain.periods }
        ensures chain { IsChain self.now.chain.periods }
    {
        if number < self.chain.len() {
            number
        } else {
            HEAD
        }
    }

    /// Takes the demands from the start of a span on for so many periods, and tells what was done.
    #[inline(always)]
    pub(crate) fn book(
        &mut self,
        activity: u32,
        duration: u32,
        span: Span,
        demands: &Demands,
    ) -> Entry
        requires width { length demands.now ≡ self.old.free.width }
        requires duration { 0 < duration }
        requires end { span.start + duration < FAR }
        requires first { StandsFor self.old.chain.periods span.first span.start }
        requires last { StandsFor self.old.chain.periods span.last (span.start + duration - 1) }
        requires nodes { length self.old.chain.periods + 2 ≤ self.old.chain.room }
        requires room { HasRoomFrom self.old.chain.periods self.old.free.rows demands.now
            span.first span.last }
        ensures longer { IsLonger self.old.chain.periods self.new.chain.periods }
        ensures few { length self.new.chain.periods ≤ length self.old.chain.periods + 2 }
        ensures booked { IsBooked self.old.chain.periods self.old.free.rows
            self.new.chain.periods self.new.free.rows demands.now span.start
            (span.start + duration) }
        ensures entry { IsMade self.new.chain.periods activity span.start duration result }
        ensures room { self.new.chain.room ≡ self.old.chain.room }
        ensures width { self.new.free.width ≡ self.old.free.width }
    {
        let (first, end) = self.split_both(span, span.start + duration);
        let nodes = self.chain.len();
        // A copy that no write into the rows can change, so that it stays in registers.
        let own = demands.copied();
        self.take(first, end, &own);
        Entry {
            activity,
            start: span.start,
            first,
            end,
            nodes,
        }
    }

    // Makes the nodes at the start and at the end of a span, where there are none.
    fn split_both(&mut self, span: Span, end: u32) -> (u32, u32)
        requires first { StandsFor self.old.chain.periods span.first span.start }
        requires last { StandsFor self.old.chain.periods span.last (end - 1) }
        requires end { (span.start < end) × (end < FAR) }
        requires room { length self.old.chain.periods + 2 ≤ self.old.chain.room }
        ensures refined { IsRefined self.old.chain.periods self.old.free.rows
            self.new.chain.periods self.new.free.rows }
        ensures few { length self.new.chain.periods ≤ length self.old.chain.periods + 2 }
        ensures inside { (result.0 < length self.new.chain.periods)
            × (result.1 < length self.new.chain.periods) }
        ensures first { slice_index self.new.chain.periods result.0 ≡ span.start }
        ensures end { slice_index self.new.chain.periods result.1 ≡ end }
        ensures room { self.new.chain.room ≡ self.old.chain.room }
        ensures width { self.new.free.width ≡ self.old.free.width }
    {
        let end_node = self.split_end(span, end);
        let first_node = self.split(span.first, span.start);
        (first_node, end_node)
    }

    // Takes the demands at each node from the first one up to the end.
    fn take(&mut self, first: u32, end: u32, demands: &Demands)
        requires chain { IsChain self.old.chain.periods }
        requires width { length demands.now ≡ self.old.free.width }
        requires first { first < length self.old.chain.periods }
        requires end { end < length self.old.chain.periods }
        requires rise { slice_index self.old.chain.periods first
            ≤ slice_index self.old.chain.periods end }
        requires room { HasRoomBefore self.old.chain.periods self.old.free.rows demands.now
            first end }
        ensures taken { IsTaken self.old.chain.periods self.old.free.rows self.new.free.rows
            demands.now (slice_index self.old.chain.periods first)
            (slice_index self.old.chain.periods end) }
        ensures chain { self.new.chain ≡ self.old.chain }
        ensures width { self.new.free.width ≡ self.old.free.width }
    {
        let mut node = first;
        while node != end {
            self.free.take(node, demands);
            node = self.chain.next(node);
        }
    }

    /// Gives the demands back at each node from the first one up to the end.
    pub(crate) fn give(&mut self, first: u32, end: u32, demands: &Demands)
        requires width { length demands.now ≡ self.old.free.width }
        requires first { first < length self.old.chain.periods }
        requires end { end < length self.old.chain.periods }
        requires rise { slice_index self.old.chain.periods first
            ≤ slice_index self.old.chain.periods end }
        requires fits { CanTakeBack self.old.chain.periods self.old.free.rows demands.now
            first end }
        ensures given { IsTaken self.old.chain.periods self.new.free.rows self.old.free.rows
            demands.now (slice_index self.old.chain.periods first)
            (slice_index self.old.chain.periods end) }
        ensures chain { self.new.chain ≡ self.old.chain }
        ensures width { self.new.free.width ≡ self.old.free.width }
    {
        let until = self.chain.period(end);
        let mut node = first;
        while self.chain.period(node) < until {
            self.free.give(node, demands);
            node = self.chain.next(node);
        }
    }

    /// Takes the newest nodes away, down to so many.
    pub(crate) fn cut(&mut self, nodes: u32)
        requires { (2 ≤ nodes) × (nodes ≤ length self.old.chain.periods) }
        ensures chain { self.new.chain ≡ record self.old.chain {
          periods = take nodes self.old.chain.periods;
        } }
        ensures free { self.new.free ≡ self.old.free }
    {
        while self.chain.len() > nodes {
            self.chain.remove_newest();
        }
    }

    /// Makes the nodes and what is free at them those of another axis.
    pub(crate) fn copy(&mut self, other: &Axis)
        requires room { other.now.chain.room ≤ self.old.chain.room }
        requires width { other.now.free.width ≡ self.old.free.width }
        ensures chain { self.new.chain ≡ record self.old.chain { periods = other.now.chain.periods } }
        ensures free { (i : ℕ) → i < length other.now.chain.periods
            → row_at self.new.free.rows i ≡ row_at other.now.free.rows i }
        ensures width { self.new.free.width ≡ self.old.free.width }
    {
        self.chain.restore(&other.chain);
        self.free.restore(&other.free, other.chain.len() as usize);
    }

    /// The same, of an axis whose nodes are the first ones here.
    pub(crate) fn restore(&mut self, other: &Axis)
        requires room { other.now.chain.room ≤ self.old.chain.room }
        requires longer { IsLonger other.now.chain.periods self.old.chain.periods }
        requires width { other.now.free.width ≡ self.old.free.width }
        ensures chain { self.new.chain ≡ record self.old.chain { periods = other.now.chain.periods } }
        ensures free { (i : ℕ) → i < length other.now.chain.periods
            → row_at self.new.free.rows i ≡ row_at other.now.free.rows i }
        ensures width { self.new.free.width ≡ self.old.free.width }
    {
        let rows = other.chain.len() as usize;
        self.chain.cut_back(&other.chain);
        self.free.restore(&other.free, rows);
    }
}
