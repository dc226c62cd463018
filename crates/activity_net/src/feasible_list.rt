ghost use Rattle.std.specs.Prelude.{◌≡◌, ℕ, ◌+◌, ◌<◌, ◌≤◌, List, None, length, slice_index, not, if◌then◌else◌, IfOk, IfErr};
ghost use Rattle.std.specs.List.{swap};
ghost use Rattle.rc_instance.specs.Project.{activity_count, precedes};
ghost use Rattle.rc_instance.specs.Order.{IsFeasibleList};
ghost use Rattle.activity_net.specs.Network.{Network, Listing};
ghost use Rattle.activity_net.specs.Tables.{Shows};
ghost use Rattle.activity_net.specs.ListFault.{first_list_fault, next_fault, RefusesList};

use crate::fault::ListFault;
use crate::marks::first_unmarked;
use crate::net::Net;
use std::alloc::Global;
use std::marker::Model;

/// An order of the activities of a net: each once, and after all its direct predecessors.
#[derive(Debug, Drop)]
pub struct FeasibleList<'n> {
    net: &'n Net,
    order: Vec<u32>,
}

impl<'n> Model for FeasibleList<'n> {
    ghost use Rattle.rc_instance.specs.Order.{IsFeasibleList};
    ghost use Rattle.activity_net.specs.Network.{Network, Listing};

    ghost Value = { Listing };

    ghost view = { λ list. record { network = list.net.now; order = list.order.items } };

    ghost invariant = { λ list. IsFeasibleList list.net.now.project list.order.items };
}

impl<'n> FeasibleList<'n> {
    /// The list of this order of the activities of a net, where it is feasible.
    ///
    /// A fault is the first one: of the length, or else of the first position that has one. At each
    /// position the number is tested first, then whether it stands earlier, then its predecessors.
    /// `Memory` may come at any place.
    pub fn of(alloc: Global, net: &'n Net, order: &[u32]) -> Result<FeasibleList<'n>, ListFault>
        ensures listed { IfOk result (λ list. list
            ≡ record { network = net.now; order = order.now }) }
        ensures accepted { IfOk result (λ _. first_list_fault net.now.project order.now ≡ None) }
        ensures refused { IfErr result (RefusesList (first_list_fault net.now.project order.now)) }
    {
        let count = net.instance().count();
        if order.len() != count as usize {
            return Err(ListFault::Length {
                found: order.len() as u64,
                activities: count,
            });
        }
        let mut listed = vec![in alloc; false; order.len()]?;
        for (position, activity) in order.iter().enumerate() {
            if let Some(fault) = next_fault(net, &order[..position], &listed, *activity) {
                return Err(fault);
            }
            listed[*activity as usize - 1] = true;
        }
        Ok(FeasibleList::from_feasible(net, Vec::from_slice(alloc, order)?))
    }

    /// The list of this order, which is known to be feasible: it is not tested again.
    pub fn from_feasible(net: &'n Net, order: Vec<u32>) -> FeasibleList<'n>
        requires { IsFeasibleList net.now.project order.items }
        ensures { result ≡ record { network = net.now; order = order.items } }
    {
        FeasibleList { net, order }
    }

    /// The net whose activities are listed.
    pub fn net(&self) -> &'n Net
        ensures value { result.now ≡ self.now.network }
        ensures feasible { IsFeasibleList self.now.network.project self.now.order }
    {
        self.net
    }

    /// The activities in their order.
    pub fn order(&self) -> &[u32]
        ensures value { result.now ≡ self.now.order }
        ensures feasible { IsFeasibleList self.now.network.project self.now.order }
    {
        &self.order
    }

    /// Puts another feasible order of the same net in the place of this one. It takes no memory.
    pub fn set_order(&mut self, order: &[u32])
        requires { IsFeasibleList self.old.network.project order.now }
        ensures { self.new ≡ record self.old { order = order.now } }
    {
        self.order.copy_from_slice(order);
    }

    /// Exchanges the activity at a position, counted from 0, with the one at the next. Where it
    /// directly precedes that one, the list stays as it is, and the answer is false. It takes no
    /// memory.
    pub fn swap_at(&mut self, position: u32) -> bool
        requires { position + 1 < length self.old.order }
        ensures told { result ≡ not (precedes self.old.network.project
            (slice_index self.old.order position) (slice_index self.old.order (position + 1))) }
        ensures order { self.new ≡ record self.old {
          order = if result then swap self.old.order position (position + 1) else self.old.order;
        } }
    {
        let net = self.net;
        let place = position as usize;
        if net.precedes(self.order[place], self.order[place + 1]) {
            return false;
        }
        self.order.swap(place, place + 1);
        true
    }
}

/// Why an activity can not come next, after those that are listed.
#[tactic(auto, unfolding(crate::specs::ListFault::next_fault))]
fn next_fault(net: &Net, before: &[u32], listed: &[bool], activity: u32) -> Option<ListFault>
    requires shows { Shows (activity_count net.now.project) listed.now before.now }
    requires few { length before.now ≤ activity_count net.now.project }
    ensures { result ≡ next_fault net.now.project before.now activity }
{
    let count = net.instance().count();
    let position = before.len() as u32;
    if activity == 0 || activity > count {
        return Some(ListFault::Unknown { position });
    }
    if listed[activity as usize - 1] {
        return Some(ListFault::Repeated { position });
    }
    let predecessor = first_unmarked(net.predecessors(activity), listed)?;
    Some(ListFault::TooEarly {
        position,
        predecessor,
    })
}
