ghost use Rattle.std.specs.Prelude.{◌≡◌};
ghost use Rattle.rcpsp_run.specs.Refusal.{status_of};

use crate::status::Status;
use activity_net::{ListFault, Ring};
use rc_edge::TextFault;
use rc_instance::limits::MAX_FILE_BYTES;
use rc_instance::{Memory, Misfit};
use rcpsp_words::{Name, WordsFault};
use schedule_check::PlanFault;
use std::error::Error;
use std::fmt;

/// Why a run has no output. Its `Display` is what the line on the note says of it.
#[derive(Debug, Drop)]
pub enum Refusal {
    /// The words are not those of a command.
    Words,

    /// A file is absent, or reading it failed.
    CannotRead { name: Name },

    /// A file has more than 4,194,304 bytes.
    TooLarge { name: Name },

    /// A text is not in its format: its first fault, which is never `Memory`.
    BadText { name: Name, fault: TextFault },

    /// The text of a plan is faulty: its first fault, which is never `Memory`.
    BadPlan { name: Name, fault: PlanFault },

    /// The precedence has a cycle.
    Cycle(Ring),

    /// A list is no feasible order of the activities: its first fault, which is never `Memory`.
    BadList(ListFault),

    /// A demand is above the last capacity.
    Misfit(Misfit),

    /// An allocation was refused.
    Memory,
}

impl Refusal {
    /// How a run ends that is refused so.
    pub fn status(&self) -> Status
        ensures { result ≡ status_of self.now }
    {
        match self {
            Refusal::Words => Status::Words,
            Refusal::CannotRead { .. } => Status::ReadFault,
            Refusal::TooLarge { .. } => Status::TooLarge,
            Refusal::BadText { .. } | Refusal::BadPlan { .. } => Status::BadText,
            Refusal::Cycle(_) => Status::Cycle,
            Refusal::BadList(_) => Status::BadList,
            Refusal::Misfit(_) => Status::Misfit,
            Refusal::Memory => Status::Memory,
        }
    }
}

impl fmt::Display for Refusal {
    ghost use Rattle.std.specs.Prelude.{Some};
    ghost use Rattle.rcpsp_run.specs.Refusal.{refusal_words};

    ghost output = { λ refusal. Some (refusal_words refusal) };

    fn fmt<W: fmt::Write>(&self, f: &mut fmt::Formatter<W>) -> fmt::Result {
        match self {
            Refusal::Words => f.write_str("words not understood"),
            Refusal::CannotRead { name } => write!(f, "cannot read {name}"),
            Refusal::TooLarge { name } => {
                let limit = MAX_FILE_BYTES;
                write!(f, "{name} is larger than {limit} bytes")
            }
            Refusal::BadText { name, fault } => write!(f, "{name}: {fault}"),
            Refusal::BadPlan { name, fault } => write!(f, "{name}: {fault}"),
            Refusal::Cycle(ring) => ring.fmt(f),
            Refusal::BadList(fault) => fault.fmt(f),
            Refusal::Misfit(misfit) => misfit.fmt(f),
            Refusal::Memory => f.write_str("out of memory"),
        }
    }
}

impl Error for Refusal {}

impl From<Memory> for Refusal {
    ghost use Rattle.rcpsp_run.specs.declared.refusal.Refusal.TheVariants.{Memory as OutOfMemory};

    ghost from_gives = { λ _ refusal. refusal ≡ OutOfMemory };

    fn from(_: Memory) -> Self {
        Refusal::Memory
    }
}

impl From<WordsFault> for Refusal {
    ghost use Rattle.rcpsp_run.specs.Refusal.{of_words_fault};

    ghost from_gives = { λ fault refusal. refusal ≡ of_words_fault fault };

    fn from(fault: WordsFault) -> Self {
        match fault {
            WordsFault::Undefined => Refusal::Words,
            WordsFault::Memory => Refusal::Memory,
        }
    }
}
