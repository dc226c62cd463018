ghost use Rattle.std.specs.Prelude.{◌≡◌, ℕ, ◌^◌, ◌<◌, ◌≤◌, length, slice_index, IfOk};
ghost use Rattle.rc_instance.specs.Project.{activity_count};
ghost use Rattle.event_line.specs.Shown.{ShowsDemands};

use crate::lanes::{LANES, with_lane};
use rc_instance::{Instance, Memory};
use std::alloc::Global;
use std::marker::Model;
use std::simd::prelude::*;

/// What an activity demands of each resource. Contracts see the list.
#[derive(Drop)]
pub(crate) struct Demands {
    pub(crate) vector: u16x16,
    width: usize,
}

impl Model for Demands {
    ghost use Rattle.std.specs.Prelude.{List, ℕ};

    ghost Value = { List ℕ };

    ghost use Rattle.event_line.specs.DemandsView.{demands_of, KeepsDemands};

    ghost view = { demands_of };

    ghost invariant = { KeepsDemands };
}

impl Demands {
    /// Demands, one for each resource. One that is above all capacities is cut at the greatest number
    /// that a lane holds.
    pub(crate) fn of(demands: &[u32]) -> Demands
        requires { length demands.now ≤ LANES }
        ensures count { length result ≡ length demands.now }
        ensures same { (j : ℕ) → slice_index demands.now j < 2 ^ 16
            → slice_index result j ≡ slice_index demands.now j }
    {
        let mut vector = u16x16::splat(0);
        for (j, demand) in demands.iter().enumerate() {
            vector = with_lane(vector, j, lane_of(*demand));
        }
        Demands {
            vector,
            width: demands.len(),
        }
    }

    /// The same demands.
    pub(crate) fn copied(&self) -> Demands
        ensures { result ≡ self.now }
    {
        Demands {
            vector: self.vector,
            width: self.width,
        }
    }
}

// A number that fits a lane: the greatest one, where it does not.
fn lane_of(number: u32) -> u16
    ensures { number < 2 ^ 16 → result ≡ number }
{
    u16::try_from(number).unwrap_or(u16::MAX)
}

/// The demands of each activity of an instance, in order of number.
pub(crate) fn pack_all(alloc: Global, instance: &Instance) -> Result<Vec<Demands>, Memory>
    ensures count { IfOk result (λ demands. length demands.items ≡ activity_count instance.now) }
    ensures demands { IfOk result (λ demands. ShowsDemands instance.now demands.items) }
{
    let mut demands = Vec::with_capacity(alloc, instance.count() as usize)?;
    for activity in 1..instance.count() + 1 {
        demands.push_reserved(Demands::of(instance.demands(activity)));
    }
    Ok(demands)
}
