ghost use Rattle.std.specs.Prelude.{◌≡◌, ℕ, ◌+◌, ◌-◌, ◌<◌, ◌≤◌, length, slice_index, IfOk, IfErr};
ghost use Rattle.event_line.specs.Chain.{StandsFor};
ghost use Rattle.event_line.specs.Rows.{HasRoom, IsFull, HasRoomFor, HasRoomFrom};

use crate::axis::Axis;
use crate::chain::FAR;
use crate::demands::Demands;

/// Where an activity can run: its start, the node that stands for it, and the node that stands for
/// its last period.
#[derive(Clone, Copy)]
pub(crate) struct Span {
    pub(crate) start: u32,
    pub(crate) first: u32,
    pub(crate) last: u32,
}

impl Axis {
    /// The least start from the floor on at which the demands have room for so many periods. The
    /// search begins at a node that is near.
    pub(crate) fn least_start(&self, demands: &Demands, duration: u32, from: u32, near: u32) -> Span
        requires width { length demands.now ≡ self.now.free.width }
        requires duration { 0 < duration }
        requires near { near < length self.now.chain.periods }
        requires exists { (t : ℕ) × (from ≤ t) × (t + duration < FAR)
            × HasRoomFor self.now.chain.periods self.now.free.rows demands.now t duration }
        ensures after { from ≤ result.start }
        ensures first { StandsFor self.now.chain.periods result.first result.start }
        ensures last { StandsFor self.now.chain.periods result.last (result.start + duration - 1) }
        ensures room { HasRoomFrom self.now.chain.periods self.now.free.rows demands.now
            result.first result.last }
        ensures least { (t : ℕ) → from ≤ t
            → HasRoomFor self.now.chain.periods self.now.free.rows demands.now t duration
            → result.start ≤ t }
    {
        let mut start = from;
        let mut first = self.chain.node_at(near, from);
        let mut node = first;
        loop {
            let full = !self.free.has_room(node, demands);
            let next = self.chain.next(node);
            let period = self.chain.period(next);
            // No start before the next node has room where this one is full: it runs at it. Kept flat,
            // so that nothing but the exit is a branch.
            if full {
                first = next;
                start = period;
            }
            if start + duration <= period {
                return Span {
                    start,
                    first,
                    last: node,
                };
            }
            node = next;
        }
    }

    // The node that stands for the start, if each node from it up to the last one has room for the
    // demands, and else the last one that has none.
    fn room_down_to(&self, last: u32, start: u32, demands: &Demands) -> Result<u32, u32>
        requires width { length demands.now ≡ self.now.free.width }
        requires last { last < length self.now.chain.periods }
        requires latest { (i : ℕ) → i < length self.now.chain.periods
            → slice_index self.now.chain.periods i ≤ start
            → slice_index self.now.chain.periods i ≤ slice_index self.now.chain.periods last }
        ensures first { IfOk result (λ first. StandsFor self.now.chain.periods first start) }
        ensures room { IfOk result (λ first. HasRoomFrom self.now.chain.periods
            self.now.free.rows demands.now first last) }
        ensures full { IfErr result (λ node. IsFull self.now.chain.periods self.now.free.rows
            demands.now node) }
        ensures up_to { IfErr result (λ node. slice_index self.now.chain.periods node
            ≤ slice_index self.now.chain.periods last) }
        ensures latest { IfErr result (λ node. (i : ℕ) → i < length self.now.chain.periods
            → slice_index self.now.chain.periods i ≤ start
            → slice_index self.now.chain.periods i ≤ slice_index self.now.chain.periods node) }
    {
        let mut node = last;
        while self.free.has_room(node, demands) {
            if self.chain.period(node) <= start {
                return Ok(node);
            }
            node = self.chain.previous(node);
        }
        Err(node)
    }

    /// The latest start at which the demands have room for so many periods and these end by the
    /// given end. The search begins at a node that is near.
    pub(crate) fn latest_start(&self, demands: &Demands, duration: u32, by: u32, near: u32) -> Span
        requires width { length demands.now ≡ self.now.free.width }
        requires duration { 0 < duration }
        requires by { by < FAR }
        requires near { near < length self.now.chain.periods }
        requires exists { (t : ℕ) × (t + duration ≤ by)
            × HasRoomFor self.now.chain.periods self.now.free.rows demands.now t duration }
        ensures ends { result.start + duration ≤ by }
        ensures first { StandsFor self.now.chain.periods result.first result.start }
        ensures last { StandsFor self.now.chain.periods result.last (result.start + duration - 1) }
        ensures room { HasRoomFrom self.now.chain.periods self.now.free.rows demands.now
            result.first result.last }
        ensures latest { (t : ℕ) → t + duration ≤ by
            → HasRoomFor self.now.chain.periods self.now.free.rows demands.now t duration
            → t ≤ result.start }
    {
        let mut end = by;
        let mut last = self.chain.node_at(near, by - 1);
        loop {
            match self.room_down_to(last, end - duration, demands) {
                Ok(first) => {
                    return Span {
                        start: end - duration,
                        first,
                        last,
                    };
                }
                Err(full) => {
                    // No end after the full node has room: the activity runs at it.
                    end = self.chain.period(full);
                    last = self.chain.previous(full);
                }
            }
        }
    }
}
