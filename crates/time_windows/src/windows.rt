ghost use Rattle.std.specs.Prelude.{◌≡◌, ℕ, ◌+◌, ◌-◌, ◌<◌, ◌≤◌, IfOk};
ghost use Rattle.rc_instance.specs.declared.limits.TheConstants.{MAX_DURATION_SUM};
ghost use Rattle.rc_instance.specs.Project.{Project, IsActivity};
ghost use Rattle.activity_net.specs.Network.{Network};
ghost use Rattle.time_windows.specs.Windows.{IsEarliest, IsTail, IsCritical, earliest_of, tail_of, critical_of, latest_of};
ghost use Rattle.time_windows.specs.CapacityBound.{capacity_bound_of};
ghost use Rattle.rc_instance.specs.Lists.{greatest};

use crate::capacity::capacity_bound;
use crate::longest::{fill_earliest, fill_tails};
use activity_net::Net;
use rc_instance::Memory;
use std::alloc::Global;
use std::marker::Model;

/// The time windows of the activities of a net, and lower bounds on its makespan.
///
/// Contracts see it as the net. No reader takes memory.
#[derive(Debug, Drop)]
pub struct Windows<'n> {
    net: &'n Net,
    earliest: Vec<u32>,
    tails: Vec<u32>,
    critical: u32,
    capacity_bound: u32,
}

impl<'n> Model for Windows<'n> {
    ghost use Rattle.activity_net.specs.Network.{Network};

    ghost Value = { Network };

    ghost view = { λ windows. windows.net.now };

    ghost use Rattle.time_windows.specs.WindowsView.{KeepsWindows};

    ghost invariant = { KeepsWindows };
}

impl<'n> Windows<'n> {
    /// The windows of this net.
    pub fn of(alloc: Global, net: &'n Net) -> Result<Windows<'n>, Memory>
        ensures { IfOk result (λ windows. windows ≡ net.now) }
    {
        let count = net.order().len();
        let mut earliest = vec![in alloc; 0; count]?;
        fill_earliest(net, &mut earliest);
        let mut tails = vec![in alloc; 0; count]?;
        fill_tails(net, &mut tails);
        let critical = greatest(&tails);
        Ok(Windows {
            net,
            earliest,
            tails,
            critical,
            capacity_bound: capacity_bound(net.instance()),
        })
    }

    /// The net whose windows they are.
    pub fn net(&self) -> &'n Net
        ensures { result.now ≡ self.now }
    {
        self.net
    }

    /// The earliest start of an activity, in periods: the longest time of the chains of direct
    /// precedence that end just before it.
    pub fn earliest(&self, activity: u32) -> u32
        requires { IsActivity self.now.project activity }
        ensures value { result ≡ earliest_of self.now.project activity }
        ensures longest { IsEarliest self.now.project activity result }
        ensures within { result ≤ MAX_DURATION_SUM }
    {
        self.earliest[activity as usize - 1]
    }

    /// The tail of an activity, in periods: the longest time of the chains of direct precedence
    /// that begin with it, its own duration included.
    pub fn tail(&self, activity: u32) -> u32
        requires { IsActivity self.now.project activity }
        ensures value { result ≡ tail_of self.now.project activity }
        ensures longest { IsTail self.now.project activity result }
        ensures within { result ≤ MAX_DURATION_SUM }
    {
        self.tails[activity as usize - 1]
    }

    /// The critical length, in periods: the longest time of all chains of direct precedence.
    /// No feasible schedule has a smaller makespan.
    pub fn critical(&self) -> u32
        ensures value { result ≡ critical_of self.now.project }
        ensures longest { IsCritical self.now.project result }
        ensures within { result ≤ MAX_DURATION_SUM }
    {
        self.critical
    }

    /// The capacity bound, in periods: the greatest, over the resources, of the work of a resource
    /// over its top capacity, rounded up. The work is the sum of demand times duration. A resource
    /// of top capacity 0, or of which an activity that takes time demands more, counts as 0. No
    /// feasible schedule has a smaller makespan.
    pub fn capacity_bound(&self) -> u32
        ensures value { result ≡ capacity_bound_of self.now.project }
        ensures within { result ≤ MAX_DURATION_SUM }
    {
        self.capacity_bound
    }

    /// The latest start of an activity, in periods, of a project that is to end by the critical
    /// length: what its tail leaves of that.
    pub fn latest(&self, activity: u32) -> u32
        requires { IsActivity self.now.project activity }
        ensures value { result ≡ latest_of self.now.project activity }
        ensures window { earliest_of self.now.project activity ≤ result }
        ensures end { result + tail_of self.now.project activity ≡ critical_of self.now.project }
        ensures within { result ≤ MAX_DURATION_SUM }
    {
        self.critical - self.tails[activity as usize - 1]
    }
}

// The greatest of some times, or 0 where there is none.
fn greatest(times: &[u32]) -> u32
    ensures { result ≡ greatest times.now }
{
    times.iter().fold(0, |longest, time| longest.max(*time))
}
