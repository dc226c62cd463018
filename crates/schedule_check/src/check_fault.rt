use crate::violation::Violation;
use rc_instance::Memory;
use std::error::Error;
use std::fmt;

/// Why a check gave no makespan.
#[derive(Clone, Copy, Debug, PartialEq, Eq)]
pub enum CheckFault {
    /// The plan has a violation; this is the first one.
    Violated(Violation),

    /// An allocation was refused.
    Memory,
}

impl fmt::Display for CheckFault {
    ghost use Rattle.std.specs.Prelude.{Some};
    ghost use Rattle.schedule_check.specs.Words.{check_fault_words};

    ghost output = { λ fault. Some (check_fault_words fault) };

    fn fmt<W: fmt::Write>(&self, f: &mut fmt::Formatter<W>) -> fmt::Result {
        match self {
            CheckFault::Violated(violation) => violation.fmt(f),
            CheckFault::Memory => f.write_str("out of memory"),
        }
    }
}

impl Error for CheckFault {}

impl From<Memory> for CheckFault {
    ghost use Rattle.std.specs.Prelude.{◌≡◌};
    ghost use Rattle.schedule_check.specs.declared.check_fault.CheckFault.TheVariants.{Memory as OutOfMemory};

    ghost from_gives = { λ _ fault. fault ≡ OutOfMemory };

    fn from(_: Memory) -> Self {
        CheckFault::Memory
    }
}
