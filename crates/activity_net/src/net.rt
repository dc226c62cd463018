ghost use Rattle.std.specs.Prelude.{◌≡◌, ◌↔◌, ℕ, ◌<◌, ◌≤◌, List, None, length, slice_index, IsTrue, IfOk, IfErr};
ghost use Rattle.rc_instance.specs.Lists.{names, IsRising};
ghost use Rattle.rc_instance.specs.Project.{Project, activity_count, IsActivity, precedes};
ghost use Rattle.rc_instance.specs.Calendar.{IsWithinLimits};
ghost use Rattle.rc_instance.specs.Order.{IsFeasibleList, IsCycle};
ghost use Rattle.activity_net.specs.Network.{Network, predecessors_of};
ghost use Rattle.activity_net.specs.Follows.{Follows, followers, all_successors};
ghost use Rattle.activity_net.specs.NetFault.{IsNetFault};
ghost use Rattle.activity_net.specs.Ring.{shown_cycle};

use crate::bits::has;
use crate::fault::NetFault;
use crate::marks::least_unmarked;
use crate::predecessors::predecessor_lists;
use crate::reach::follower_sets;
use crate::removal::take_away;
use crate::ring::Ring;
use rc_instance::Instance;
use std::alloc::Global;
use std::marker::Model;

/// An instance whose precedence has no cycle, with the predecessors of each activity.
///
/// No reader takes memory.
#[derive(Debug, Drop)]
pub struct Net {
    instance: Instance,
    order: Vec<u32>,
    predecessors: Vec<Vec<u32>>,
    followers: Vec<Vec<u64>>,
}

impl Model for Net {
    ghost use Rattle.activity_net.specs.Network.{Network};

    ghost Value = { Network };

    ghost use Rattle.activity_net.specs.NetView.{network_of, KeepsTables};

    ghost view = { network_of };

    ghost invariant = { KeepsTables };
}

impl Net {
    /// The net of an instance, where its precedence has no cycle.
    ///
    /// The cycle that is shown is fixed: activities without a predecessor are taken away until
    /// there is none, and from the least one that is left the way goes back, each time to the least
    /// predecessor that is left, until a number comes twice. A refused instance is dropped.
    pub fn of(alloc: Global, instance: Instance) -> Result<Net, NetFault>
        ensures made { IfOk result (λ net. net.project ≡ instance) }
        ensures acyclic { IfOk result (λ _. (ring : List ℕ) → IsCycle instance ring → ⊥) }
        ensures shown { IfOk result (λ _. shown_cycle instance ≡ None) }
        ensures refused { IfErr result (IsNetFault instance) }
    {
        let predecessors = predecessor_lists(alloc, &instance)?;
        let removal = take_away(alloc, &instance, &predecessors)?;
        if let Some(start) = least_unmarked(&removal.removed) {
            let ring = Ring::on_way_back(alloc, &instance, &predecessors, &removal, start)?;
            return Err(NetFault::Cycle(ring));
        }
        let followers = follower_sets(alloc, &instance, &removal.order)?;
        Ok(Net {
            instance,
            order: removal.order,
            predecessors,
            followers,
        })
    }

    /// The instance that the net is made of.
    pub fn instance(&self) -> &Instance
        ensures value { result.now ≡ self.now.project }
        ensures limits { IsWithinLimits self.now.project }
        ensures acyclic { (ring : List ℕ) → IsCycle self.now.project ring → ⊥ }
    {
        &self.instance
    }

    /// One order of the activities in which each stands after all its direct predecessors.
    pub fn order(&self) -> &[u32]
        ensures value { result.now ≡ self.now.order }
        ensures feasible { IsFeasibleList self.now.project result.now }
        ensures limits { IsWithinLimits self.now.project }
    {
        &self.order
    }

    /// The direct predecessors of an activity, in rising order.
    pub fn predecessors(&self, activity: u32) -> &[u32]
        requires { IsActivity self.now.project activity }
        ensures value { result.now ≡ predecessors_of self.now.project activity }
        ensures within { IsRising (activity_count self.now.project) result.now }
        ensures limits { IsWithinLimits self.now.project }
    {
        &self.predecessors[activity as usize - 1]
    }

    /// How many direct predecessors an activity has.
    pub fn predecessor_count(&self, activity: u32) -> u32
        requires { IsActivity self.now.project activity }
        ensures { result ≡ length (predecessors_of self.now.project activity) }
    {
        self.predecessors(activity).len() as u32
    }

    /// The direct predecessor of an activity at a place of the rising order, counted from 0.
    pub fn predecessor(&self, activity: u32, index: u32) -> u32
        requires activity { IsActivity self.now.project activity }
        requires index { index < length (predecessors_of self.now.project activity) }
        ensures value { result ≡ slice_index (predecessors_of self.now.project activity) index }
        ensures within { IsActivity self.now.project result }
    {
        self.predecessors(activity)[index as usize]
    }

    /// Whether an activity is a direct predecessor of a later one.
    #[tactic(auto, unfolding(rc_instance::specs::Project::precedes))]
    pub fn precedes(&self, activity: u32, later: u32) -> bool
        requires { IsActivity self.now.project activity }
        ensures { result ≡ precedes self.now.project activity later }
    {
        is_among(self.instance().successors(activity), later)
    }

    /// Whether a later activity follows an activity, directly or through others.
    pub fn follows(&self, activity: u32, later: u32) -> bool
        requires activity { IsActivity self.now.project activity }
        requires later { IsActivity self.now.project later }
        ensures value { result ≡ names (followers self.now.project activity) later }
        ensures chain { IsTrue result ↔ Follows self.now.project activity later }
    {
        has(&self.followers[activity as usize - 1], later)
    }

    /// How many activities follow an activity, directly or through others.
    pub fn all_successors(&self, activity: u32) -> u32
        requires { IsActivity self.now.project activity }
        ensures { result ≡ all_successors self.now.project activity }
    {
        let mut count = 0;
        for later in 1..self.instance.count() + 1 {
            if self.follows(activity, later) {
                count += 1;
            }
        }
        count
    }
}

// Whether a list names a number.
fn is_among(list: &[u32], number: u32) -> bool
    ensures { result ≡ names list.now number }
{
    list.iter().any(|a| *a == number)
}
