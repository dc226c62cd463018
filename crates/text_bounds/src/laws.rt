//! The laws, each the contract of a function with an empty body.
ghost use Rattle.text_bounds.specs.Bounds.{ReadIsWithinLimits, TableIsShort, FaultIsShort, CycleIsShort, MisfitIsShort};

/// An instance that was read is within all limits.
pub fn read_is_within_limits()
    ensures { ReadIsWithinLimits }
{}

/// The table of the serial schedule by number, of an instance within the limits, has at most 25,100
/// bytes.
pub fn table_is_short()
    ensures { TableIsShort }
{}

/// What the first fault of a text of at most 4,194,304 bytes says has at most 100 bytes.
pub fn fault_is_short()
    ensures { FaultIsShort }
{}

/// What the cycle of an instance within the limits says has at most 5,100 bytes.
pub fn cycle_is_short()
    ensures { CycleIsShort }
{}

/// What the first misfit of an instance that was read says has at most 100 bytes.
pub fn misfit_is_short()
    ensures { MisfitIsShort }
{}
