//! The main laws of time windows and bounds, of every project: each is what a function with
//! nothing to do ensures.
ghost use Rattle.time_windows.specs.Laws.{MakespanIsAtLeastCritical, MakespanIsAtLeastCapacityBound, TailFitsAfterStart, NoStartIsBeforeEarliest, NoStartIsAfterLatest, EarliestIsUnique, TailIsUnique, CriticalIsUnique, EarliestIsComputed, TailIsComputed, CriticalIsComputed, CriticalIsGreatestWindow};

/// No feasible schedule has a makespan below the critical length, nor below the capacity bound.
pub fn makespan_is_at_least_the_bounds()
    ensures critical { MakespanIsAtLeastCritical }
    ensures capacity { MakespanIsAtLeastCapacityBound }
{}

/// In a feasible schedule the tail of each activity fits between its start and the makespan.
pub fn tail_fits_after_start()
    ensures { TailFitsAfterStart }
{}

/// In a feasible schedule no activity starts before its earliest start, nor, if the schedule ends
/// by the critical length, after its latest start.
pub fn starts_lie_in_their_windows()
    ensures earliest { NoStartIsBeforeEarliest }
    ensures latest { NoStartIsAfterLatest }
{}

/// There are no two earliest starts of an activity, no two tails and no two critical lengths.
pub fn times_are_unique()
    ensures earliest { EarliestIsUnique }
    ensures tail { TailIsUnique }
    ensures critical { CriticalIsUnique }
{}

/// The computed earliest starts, tails and critical length are those of longest chains.
pub fn times_are_computed()
    ensures earliest { EarliestIsComputed }
    ensures tail { TailIsComputed }
    ensures critical { CriticalIsComputed }
{}

/// The critical length is the greatest sum of an earliest start and the tail of the same activity.
pub fn critical_is_greatest_window()
    ensures { CriticalIsGreatestWindow }
{}
