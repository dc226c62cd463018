use crate::ring::Ring;
use rc_instance::Memory;
use std::alloc::AllocError;
use std::error::Error;
use std::fmt;

/// Why an instance makes no net.
#[derive(Debug, Drop)]
pub enum NetFault {
    /// The precedence has a cycle; this is the one that is shown.
    Cycle(Ring),

    /// An allocation was refused.
    Memory,
}

impl From<Memory> for NetFault {
    ghost use Rattle.std.specs.Prelude.{◌≡◌};
    ghost use Rattle.activity_net.specs.declared.fault.NetFault.TheVariants.{Memory};

    ghost from_gives = { λ _ fault. fault ≡ Memory };

    fn from(_: Memory) -> Self {
        NetFault::Memory
    }
}

impl fmt::Display for NetFault {
    ghost use Rattle.std.specs.Prelude.{Some};
    ghost use Rattle.activity_net.specs.FaultWords.{net_words};

    ghost output = { λ fault. Some (net_words fault) };

    fn fmt<W: fmt::Write>(&self, f: &mut fmt::Formatter<W>) -> fmt::Result {
        match self {
            NetFault::Cycle(ring) => ring.fmt(f),
            NetFault::Memory => f.write_str("out of memory"),
        }
    }
}

impl Error for NetFault {}

/// Why an order of numbers is no feasible list of a net: the first reason, position by position.
#[derive(Clone, Copy, Debug, PartialEq, Eq)]
pub enum ListFault {
    /// It has not as many entries as there are activities.
    Length { found: u64, activities: u32 },

    /// The entry at this position, counted from 0, is no number of an activity.
    Unknown { position: u32 },

    /// The activity at this position stands at an earlier one too.
    Repeated { position: u32 },

    /// The activity at this position has a predecessor that does not stand before it; the least such predecessor.
    TooEarly { position: u32, predecessor: u32 },

    /// An allocation was refused.
    Memory,
}

impl From<AllocError> for ListFault {
    ghost use Rattle.std.specs.Prelude.{◌≡◌};
    ghost use Rattle.activity_net.specs.declared.fault.ListFault.TheVariants.{Memory};

    ghost from_gives = { λ _ fault. fault ≡ Memory };

    fn from(_: AllocError) -> Self {
        ListFault::Memory
    }
}

impl fmt::Display for ListFault {
    ghost use Rattle.std.specs.Prelude.{Some};
    ghost use Rattle.activity_net.specs.FaultWords.{list_words};

    ghost output = { λ fault. Some (list_words fault) };

    fn fmt<W: fmt::Write>(&self, f: &mut fmt::Formatter<W>) -> fmt::Result {
        match *self {
            ListFault::Length { found, activities } => {
                write!(f, "list: {found} numbers for {activities} activities")
            }
            ListFault::Unknown { position } => write!(f, "list: position {position} is unknown"),
            ListFault::Repeated { position } => write!(f, "list: position {position} is repeated"),
            ListFault::TooEarly {
                position,
                predecessor,
            } => write!(
                f,
                "list: position {position} comes before predecessor {predecessor}"
            ),
            ListFault::Memory => f.write_str("out of memory"),
        }
    }
}

impl Error for ListFault {}
