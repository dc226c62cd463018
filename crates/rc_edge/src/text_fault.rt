use rc_instance::InstanceFault;
use std::alloc::{AllocError, AllocFailed};
use std::error::Error;
use std::fmt;

/// What a text is to have at a place.
#[derive(Clone, Copy, Debug, PartialEq, Eq)]
pub enum Item {
    /// The line that gives the number of jobs.
    Jobs,

    /// The line that gives the number of renewable resources.
    Renewable,

    /// The section of the requests and durations.
    Requests,

    /// The section of the resources' capacities.
    Availabilities,
}

/// What is wrong with a text.
#[derive(Clone, Copy, Debug, PartialEq, Eq)]
pub enum TextKind {
    /// The text goes on without what is due here.
    Expected(Item),

    /// A token is empty, or has a byte that is no ASCII digit, where a number is due.
    NotANumber,

    /// A number is above 4,294,967,295.
    NumberTooLarge,

    /// A job has another number than its place.
    WrongJobNumber,

    /// A job has another mode than 1.
    MultiMode,

    /// There are resources that are not renewable.
    NotRenewable,

    /// There are more projects than one, or none.
    ManyProjects,

    /// A token is left after the end.
    Trailing,

    /// The text ends where a token is due.
    Ended,

    /// A calendar has more than 1,000 changes.
    TooManyChanges,

    /// A change is of a resource that is 0, or above the number of resources.
    ResourceOutOfRange,

    /// A change is in a period that is 0 or above 65,535.
    PeriodOutOfRange,

    /// The resource and period of a change are not above those of the change before.
    NotRising,

    /// The numbers pass a limit of instances; a capacity, that of a calendar too.
    Instance(InstanceFault),

    /// An allocation was refused.
    Memory,
}

/// The first fault of a text.
#[derive(Clone, Copy, Debug, PartialEq, Eq)]
pub struct TextFault {
    /// What is wrong.
    pub kind: TextKind,

    /// The offset of the token at fault, or the length of the text where it ends too early; 0 with `Memory`.
    pub at: u32,
}

impl fmt::Display for Item {
    ghost use Rattle.std.specs.Prelude.{Some};
    ghost use Rattle.rc_edge.specs.TextFault.{item_words};

    ghost output = { λ item. Some (item_words item) };

    fn fmt<W: fmt::Write>(&self, f: &mut fmt::Formatter<W>) -> fmt::Result {
        f.write_str(match self {
            Item::Jobs => "expected jobs",
            Item::Renewable => "expected renewable",
            Item::Requests => "expected requests",
            Item::Availabilities => "expected availabilities",
        })
    }
}

impl fmt::Display for TextKind {
    ghost use Rattle.std.specs.Prelude.{Some};
    ghost use Rattle.rc_edge.specs.TextFault.{kind_words};

    ghost output = { λ kind. Some (kind_words kind) };

    fn fmt<W: fmt::Write>(&self, f: &mut fmt::Formatter<W>) -> fmt::Result {
        match self {
            TextKind::Expected(item) => item.fmt(f),
            TextKind::NotANumber => f.write_str("not a number"),
            TextKind::NumberTooLarge => f.write_str("number too large"),
            TextKind::WrongJobNumber => f.write_str("wrong job number"),
            TextKind::MultiMode => f.write_str("not single mode"),
            TextKind::NotRenewable => f.write_str("not renewable"),
            TextKind::ManyProjects => f.write_str("more than one project"),
            TextKind::Trailing => f.write_str("text after the end"),
            TextKind::Ended => f.write_str("text ends"),
            TextKind::TooManyChanges => f.write_str("too many changes"),
            TextKind::ResourceOutOfRange => f.write_str("resource out of range"),
            TextKind::PeriodOutOfRange => f.write_str("period out of range"),
            TextKind::NotRising => f.write_str("not rising"),
            TextKind::Instance(fault) => fault.fmt(f),
            TextKind::Memory => f.write_str("out of memory"),
        }
    }
}

impl Error for TextKind {}

impl fmt::Display for TextFault {
    ghost use Rattle.std.specs.Prelude.{Some};
    ghost use Rattle.rc_edge.specs.TextFault.{fault_words};

    ghost output = { λ fault. Some (fault_words fault) };

    fn fmt<W: fmt::Write>(&self, f: &mut fmt::Formatter<W>) -> fmt::Result {
        let TextFault { kind, at } = *self;
        write!(f, "{kind} at {at}")
    }
}

impl Error for TextFault {}

impl From<AllocError> for TextFault {
    ghost use Rattle.std.specs.Prelude.{◌≡◌};
    ghost use Rattle.rc_edge.specs.declared.text_fault.TextKind.TheVariants.{Memory};

    ghost from_gives = { λ _ fault. fault ≡ record { kind = Memory; at = 0 } };

    fn from(_: AllocError) -> Self {
        TextFault {
            kind: TextKind::Memory,
            at: 0,
        }
    }
}

impl<T: Drop> From<AllocFailed<T>> for TextFault {
    ghost use Rattle.std.specs.Prelude.{◌≡◌};
    ghost use Rattle.rc_edge.specs.declared.text_fault.TextKind.TheVariants.{Memory};

    ghost from_gives = { λ _ fault. fault ≡ record { kind = Memory; at = 0 } };

    fn from(_: AllocFailed<T>) -> Self {
        TextFault {
            kind: TextKind::Memory,
            at: 0,
        }
    }
}
