use std::error::Error;
use std::fmt;

/// What an instance is built from, as a file tells it.
///
/// Activities and resources are numbered from 1. The lists are in order of number.
#[derive(Debug, Drop)]
pub struct Parts {
    /// The capacity of each resource.
    pub capacities: Vec<u32>,

    /// The duration of each activity, in periods.
    pub durations: Vec<u32>,

    /// The demands of each activity, for one resource after the other: `n` times `K` numbers.
    pub demands: Vec<u32>,

    /// The direct successors of each activity, in any order, repeated or not.
    pub successors: Vec<Vec<u32>>,
}

/// Why parts make no instance: the first limit that they pass, in this order.
#[derive(Clone, Copy, Debug, PartialEq, Eq)]
pub enum InstanceFault {
    /// There is no activity.
    NoActivity,

    /// There are more than 1,000 activities.
    TooManyActivities { count: u64 },

    /// There are more than 16 resources.
    TooManyResources { count: u64 },

    /// A capacity is above 65,535; the least such resource.
    CapacityTooLarge { resource: u32, capacity: u32 },

    /// A successor is 0 or above the number of activities; the least such activity, and the first such entry of its list.
    SuccessorOutOfRange { activity: u32, successor: u32 },

    /// The sum of the durations is above 65,535.
    TooLong { sum: u64 },

    /// An allocation was refused.
    Memory,
}

impl fmt::Display for InstanceFault {
    ghost use Rattle.std.specs.Prelude.{Some};
    ghost use Rattle.rc_instance.specs.FaultWords.{instance_words};

    ghost output = { λ fault. Some (instance_words fault) };

    fn fmt<W: fmt::Write>(&self, f: &mut fmt::Formatter<W>) -> fmt::Result {
        f.write_str(match self {
            InstanceFault::NoActivity => "no activity",
            InstanceFault::TooManyActivities { .. } => "too many activities",
            InstanceFault::TooManyResources { .. } => "too many resources",
            InstanceFault::CapacityTooLarge { .. } => "capacity too large",
            InstanceFault::SuccessorOutOfRange { .. } => "successor out of range",
            InstanceFault::TooLong { .. } => "too long",
            InstanceFault::Memory => "out of memory",
        })
    }
}

impl Error for InstanceFault {}
