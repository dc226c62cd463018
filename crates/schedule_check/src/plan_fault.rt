use std::error::Error;
use std::fmt;

/// What is wrong with the text of a plan.
#[derive(Clone, Copy, Debug, PartialEq, Eq)]
pub enum PlanKind {
    /// The first record does not begin with the fields `activity` and `start`, or there is none.
    NotHeader,

    /// A record lacks its second field.
    TooFewFields,

    /// One of the first two fields is empty, or has a byte that is no ASCII digit.
    NotANumber,

    /// One of the first two fields is a number above 4,294,967,295.
    NumberTooLarge,

    /// An allocation was refused.
    Memory,
}

/// The first fault of the text of a plan.
#[derive(Clone, Copy, Debug, PartialEq, Eq)]
pub struct PlanFault {
    /// What is wrong.
    pub kind: PlanKind,

    /// The number of the record at fault, counted from 1; 0 with `Memory`.
    pub row: u32,
}

impl fmt::Display for PlanKind {
    ghost use Rattle.std.specs.Prelude.{Some};
    ghost use Rattle.schedule_check.specs.PlanFault.{plan_kind_words};

    ghost output = { λ kind. Some (plan_kind_words kind) };

    fn fmt<W: fmt::Write>(&self, f: &mut fmt::Formatter<W>) -> fmt::Result {
        f.write_str(match self {
            PlanKind::NotHeader => "not a header",
            PlanKind::TooFewFields => "too few fields",
            PlanKind::NotANumber => "not a number",
            PlanKind::NumberTooLarge => "number too large",
            PlanKind::Memory => "out of memory",
        })
    }
}

impl Error for PlanKind {}

impl fmt::Display for PlanFault {
    ghost use Rattle.std.specs.Prelude.{Some};
    ghost use Rattle.schedule_check.specs.PlanFault.{plan_fault_words};

    ghost output = { λ fault. Some (plan_fault_words fault) };

    fn fmt<W: fmt::Write>(&self, f: &mut fmt::Formatter<W>) -> fmt::Result {
        let PlanFault { kind, row } = *self;
        write!(f, "{kind} in record {row}")
    }
}

impl Error for PlanFault {}

impl From<rc_instance::Memory> for PlanFault {
    ghost use Rattle.std.specs.Prelude.{◌≡◌};
    ghost use Rattle.schedule_check.specs.Reading.{out_of_memory};

    ghost from_gives = { λ _ fault. fault ≡ out_of_memory };

    fn from(_: rc_instance::Memory) -> Self {
        PlanFault {
            kind: PlanKind::Memory,
            row: 0,
        }
    }
}
