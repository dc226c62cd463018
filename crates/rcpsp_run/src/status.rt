ghost use Rattle.std.specs.Prelude.{◌≡◌};
ghost use Rattle.rcpsp_run.specs.Status.{code_of};

/// How a run ended.
#[derive(Clone, Copy, Debug, PartialEq, Eq)]
pub enum Status {
    /// The whole output was written.
    Done,

    /// A text is not in its format.
    BadText,

    /// The precedence has a cycle.
    Cycle,

    /// The given list is no feasible order of the activities.
    BadList,

    /// The words are not those of a command.
    Words,

    /// A demand is above the capacity.
    Misfit,

    /// The checked plan has a violation.
    Violated,

    /// A file could not be read.
    ReadFault,

    /// The output could not be written.
    WriteFault,

    /// Memory ran out.
    Memory,

    /// A file has too many bytes.
    TooLarge,
}

impl Status {
    /// The exit code of the program.
    pub fn code(&self) -> u8
        ensures { result ≡ code_of self.now }
    {
        match self {
            Status::Done => 0,
            Status::BadText | Status::Cycle | Status::BadList => 1,
            Status::Words => 2,
            Status::Misfit => 3,
            Status::Violated => 4,
            Status::ReadFault => 5,
            Status::WriteFault => 6,
            Status::Memory => 7,
            Status::TooLarge => 8,
        }
    }
}
