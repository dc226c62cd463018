ghost use Rattle.std.specs.Prelude.{◌≡◌, ℕ, ◌+◌, ◌-◌, ◌<◌, ◌≤◌, [], ◌∷◌, ◌++◌, length, take, slice_index, IfOk};
ghost use Rattle.event_line.specs.Chain.{IsChain, AreNeighbours, StandsFor, IsLonger};

use rc_instance::Memory;
use rc_instance::limits::{MAX_ACTIVITIES, MAX_CHANGES};
use std::alloc::Global;
use std::marker::Model;

/// The node after all others.
pub(crate) const TAIL: u32 = 0;

/// The node at period 0.
pub(crate) const HEAD: u32 = 1;

/// The period of the tail: no activity runs so late.
pub(crate) const FAR: u32 = u32::MAX;

/// The most nodes: the head, the tail, one for each change of a capacity, and two for each booking.
pub(crate) const MAX_NODES: u32 = 2 + MAX_CHANGES + 2 * MAX_ACTIVITIES;

/// Nodes at periods, linked in rising order. Contracts see the periods, in the order in which the
/// nodes were made, and how many nodes there may be; they see nothing of the links.
///
/// The links stand in lists of their own, since a search reads periods and one way of links alone.
#[derive(Drop)]
pub(crate) struct Chain {
    periods: Vec<u32>,
    next: Vec<u32>,
    previous: Vec<u32>,
}

impl Model for Chain {
    ghost use Rattle.event_line.specs.Chain.{Nodes};

    ghost Value = { Nodes };

    ghost use Rattle.event_line.specs.ChainView.{nodes_of, KeepsLinks};

    ghost view = { nodes_of };

    ghost invariant = { KeepsLinks };
}

impl Chain {
    /// The head and the tail, with room for so many nodes.
    pub(crate) fn new(alloc: Global, room: u32) -> Result<Chain, Memory>
        requires { (2 ≤ room) × (room ≤ MAX_NODES) }
        ensures { IfOk result (λ chain.
            chain ≡ record { periods = FAR ∷ 0 ∷ []; room = room }) }
    {
        let mut periods = Vec::with_capacity(alloc, room as usize)?;
        periods.push_reserved(FAR);
        periods.push_reserved(0);
        Ok(Chain {
            periods,
            next: vec![in alloc; TAIL; room as usize]?,
            previous: vec![in alloc; HEAD; room as usize]?,
        })
    }

    /// How many nodes there are.
    pub(crate) fn len(&self) -> u32
        ensures value { result ≡ length self.now.periods }
        ensures chain { IsChain self.now.periods }
        ensures room { (length self.now.periods ≤ self.now.room) × (self.now.room ≤ MAX_NODES) }
    {
        self.periods.len() as u32
    }

    /// The period of a node.
    pub(crate) fn period(&self, node: u32) -> u32
        requires { node < length self.now.periods }
        ensures value { result ≡ slice_index self.now.periods node }
        ensures chain { IsChain self.now.periods }
    {
        self.periods[node as usize]
    }

    /// The node after a node that is not the tail.
    pub(crate) fn next(&self, node: u32) -> u32
        requires inside { node < length self.now.periods }
        requires before { slice_index self.now.periods node < FAR }
        ensures neighbours { AreNeighbours self.now.periods node result }
        ensures chain { IsChain self.now.periods }
    {
        self.next[node as usize]
    }

    /// The node before a node that is not the head.
    pub(crate) fn previous(&self, node: u32) -> u32
        requires inside { node < length self.now.periods }
        requires after { 0 < slice_index self.now.periods node }
        ensures neighbours { AreNeighbours self.now.periods result node }
        ensures chain { IsChain self.now.periods }
    {
        self.previous[node as usize]
    }

    // The latest node up to this one that stands no later than a period.
    fn back_to(&self, near: u32, period: u32) -> u32
        requires { near < length self.now.periods }
        ensures inside { result < length self.now.periods }
        ensures from { slice_index self.now.periods result ≤ period }
    {
        let mut node = near;
        while self.period(node) > period {
            node = self.previous(node);
        }
        node
    }

    /// The node that stands for a period. The search begins at a node that is near.
    pub(crate) fn node_at(&self, near: u32, period: u32) -> u32
        requires near { near < length self.now.periods }
        requires period { period < FAR }
        ensures { StandsFor self.now.periods result period }
    {
        let mut node = self.back_to(near, period);
        let mut next = self.next(node);
        while self.period(next) <= period {
            node = next;
            next = self.next(node);
        }
        node
    }

    /// Makes a node at a period, after the node that stands for it so far.
    pub(crate) fn insert(&mut self, after: u32, period: u32) -> u32
        requires stands { StandsFor self.old.periods after period }
        requires later { slice_index self.old.periods after < period }
        requires room { length self.old.periods < self.old.room }
        ensures value { self.new ≡ record self.old { periods = self.old.periods ++ period ∷ [] } }
        ensures node { result ≡ length self.old.periods }
    {
        let node = self.periods.len() as u32;
        let next = self.next[after as usize];
        self.periods.push_reserved(period);
        self.next[after as usize] = node;
        self.next[node as usize] = next;
        self.previous[next as usize] = node;
        self.previous[node as usize] = after;
        node
    }

    /// The node at a period, which is made where there is none. The search begins at a node that is
    /// near.
    pub(crate) fn node_made(&mut self, near: u32, period: u32) -> u32
        requires near { near < length self.old.periods }
        requires period { period < FAR }
        requires room { length self.old.periods < self.old.room }
        ensures longer { IsLonger self.old.periods self.new.periods }
        ensures few { length self.new.periods ≤ length self.old.periods + 1 }
        ensures inside { result < length self.new.periods }
        ensures at { slice_index self.new.periods result ≡ period }
        ensures room { self.new.room ≡ self.old.room }
    {
        let node = self.node_at(near, period);
        if self.period(node) == period {
            return node;
        }
        self.insert(node, period)
    }

    /// Takes the newest node away: its neighbours are linked to one another again.
    pub(crate) fn remove_newest(&mut self)
        requires { 2 < length self.old.periods }
        ensures { self.new ≡ record self.old {
          periods = take (length self.old.periods - 1) self.old.periods;
        } }
    {
        let node = self.periods.len() - 1;
        let next = self.next[node];
        let previous = self.previous[node];
        self.next[previous as usize] = next;
        self.previous[next as usize] = previous;
        self.periods.truncate(node);
    }

    /// Makes the nodes those of another chain.
    pub(crate) fn restore(&mut self, other: &Chain)
        requires { other.now.room ≤ self.old.room }
        ensures { self.new ≡ record self.old { periods = other.now.periods } }
    {
        self.periods.clear();
        match self.periods.extend_from_slice(&other.periods) {
            Ok(()) => {}
            Err(_) => unreachable!(),
        }
        copy_front(&mut self.next, &other.next);
        copy_front(&mut self.previous, &other.previous);
    }

    /// The same, of a chain whose nodes are the first ones here: where there are no others, nothing
    /// is to be done.
    pub(crate) fn cut_back(&mut self, other: &Chain)
        requires room { other.now.room ≤ self.old.room }
        requires longer { IsLonger other.now.periods self.old.periods }
        ensures { self.new ≡ record self.old { periods = other.now.periods } }
    {
        if self.len() > other.len() {
            self.restore(other);
        }
    }
}

// Copies a list over the front of another one.
fn copy_front(to: &mut [u32], from: &[u32])
    requires { length from.now ≤ length to.old }
    ensures { (i : ℕ) → i < length from.now → slice_index to.new i ≡ slice_index from.now i }
{
    to[..from.len()].copy_from_slice(from);
}
