use rc_instance::{Memory, Misfit};
use std::error::Error;
use std::fmt;

/// Why a scheme gives no schedule.
#[derive(Clone, Copy, Debug, PartialEq, Eq)]
pub enum SchemeFault {
    /// A demand that no period can meet: of the least such activity, for its least such resource.
    Misfit(Misfit),

    /// An allocation was refused.
    Memory,
}

impl fmt::Display for SchemeFault {
    ghost use Rattle.std.specs.Prelude.{Some};
    ghost use Rattle.serial_plain.specs.Fault.{scheme_words};

    ghost output = { λ fault. Some (scheme_words fault) };

    fn fmt<W: fmt::Write>(&self, f: &mut fmt::Formatter<W>) -> fmt::Result {
        match self {
            SchemeFault::Misfit(misfit) => misfit.fmt(f),
            SchemeFault::Memory => f.write_str("out of memory"),
        }
    }
}

impl Error for SchemeFault {}

impl From<Misfit> for SchemeFault {
    ghost use Rattle.std.specs.Prelude.{◌≡◌};
    ghost use Rattle.serial_plain.specs.declared.fault.SchemeFault.{SchemeFault};

    ghost from_gives = { λ misfit fault. fault ≡ SchemeFault.Misfit misfit };

    fn from(misfit: Misfit) -> Self {
        SchemeFault::Misfit(misfit)
    }
}

impl From<Memory> for SchemeFault {
    ghost use Rattle.std.specs.Prelude.{◌≡◌};
    ghost use Rattle.serial_plain.specs.declared.fault.SchemeFault.{SchemeFault};

    ghost from_gives = { λ _ fault. fault ≡ SchemeFault.Memory };

    fn from(_: Memory) -> Self {
        SchemeFault::Memory
    }
}
