ghost use Rattle.std.specs.Prelude.{◌≡◌, [], ◌∷◌, ◌++◌, OnOk, OnErr};
ghost use Rattle.schedule_check.specs.Plan.{booking_of, bookings_in};

use crate::placement::Placement;
use rc_instance::Memory;
use std::alloc::Global;
use std::marker::Model;

/// Activities with their starts, in the order in which a plan names them.
///
/// Contracts see it as a list of bookings. A plan may name any number, and any number of times.
#[derive(Debug, Drop)]
pub struct Plan {
    placements: Vec<Placement>,
}

impl Model for Plan {
    ghost use Rattle.std.specs.Prelude.{List};
    ghost use Rattle.rc_instance.specs.Usage.{Booking};
    ghost use Rattle.schedule_check.specs.Plan.{bookings_in};

    ghost Value = { List Booking };

    ghost view = { λ plan. bookings_in plan.placements.items };
}

impl Plan {
    /// A plan that names no activity.
    pub fn new(alloc: Global) -> Plan
        ensures { result ≡ [] }
    {
        Plan {
            placements: Vec::new(alloc),
        }
    }

    /// Adds a placement behind all others. At want of memory the plan is what it was.
    pub fn push(&mut self, placement: Placement) -> Result<(), Memory>
        ensures added { OnOk result (self.new ≡ self.old ++ booking_of placement ∷ []) }
        ensures kept { OnErr result (self.new ≡ self.old) }
    {
        self.placements.push(placement)?;
        Ok(())
    }

    /// The placements, in order.
    pub fn placements(&self) -> &[Placement]
        ensures { bookings_in result.now ≡ self.now }
    {
        &self.placements
    }

    /// The placements as a vector. It takes no memory.
    pub fn into_placements(self) -> Vec<Placement>
        ensures { bookings_in result.items ≡ self }
    {
        self.placements
    }
}

impl From<Vec<Placement>> for Plan {
    ghost use Rattle.std.specs.Prelude.{◌≡◌};
    ghost use Rattle.schedule_check.specs.Plan.{bookings_in};

    ghost from_gives = { λ placements plan. plan ≡ bookings_in placements.items };

    fn from(placements: Vec<Placement>) -> Self {
        Plan { placements }
    }
}
