use std::error::Error;
use std::fmt;

/// What keeps a plan from being a feasible schedule. Activities and resources are numbered from 1.
#[derive(Clone, Copy, Debug, PartialEq, Eq)]
pub enum Violation {
    /// The plan names a number that is no activity.
    Unknown {
        activity: u32,
    },

    /// The plan names an activity again.
    Twice {
        activity: u32,
    },

    /// The plan does not name an activity.
    Missing {
        activity: u32,
    },

    /// An activity starts before one of its direct predecessors ends.
    BeforePredecessor {
        activity: u32,
        predecessor: u32,
    },

    /// In a period more of a resource is used than its capacity then.
    OverCapacity {
        resource: u32,
        period: u64,
        used: u64,
        capacity: u32,
    },
}

impl fmt::Display for Violation {
    ghost use Rattle.std.specs.Prelude.{Some};
    ghost use Rattle.schedule_check.specs.Words.{violation_words};

    ghost output = { λ violation. Some (violation_words violation) };

    fn fmt<W: fmt::Write>(&self, f: &mut fmt::Formatter<W>) -> fmt::Result {
        match *self {
            Violation::Unknown { activity } => {
                write!(f, "violation: activity {activity} is unknown")
            }
            Violation::Twice { activity } => {
                write!(f, "violation: activity {activity} comes twice")
            }
            Violation::Missing { activity } => {
                write!(f, "violation: activity {activity} is missing")
            }
            Violation::BeforePredecessor {
                activity,
                predecessor,
            } => write!(
                f,
                "violation: activity {activity} starts before predecessor {predecessor} ends"
            ),
            Violation::OverCapacity {
                resource,
                period,
                used,
                capacity,
            } => write!(
                f,
                "violation: resource {resource} is used {used} of {capacity} in period {period}"
            ),
        }
    }
}

impl Error for Violation {}
