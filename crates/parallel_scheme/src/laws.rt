//! The main laws of the parallel scheme, of every project: each is what a function with nothing to do
//! ensures.
ghost use Rattle.parallel_scheme.specs.Laws.{TestOfStartIsExact, ParallelIsSerial, ParallelScheduleIsFeasible, ParallelScheduleIsNonDelay};

/// The computed test is true exactly where the activity can start.
pub fn test_of_start_is_exact()
    ensures { TestOfStartIsExact }
{}

/// The scheme books what the serial scheme books of the order in which it books.
pub fn parallel_is_serial()
    ensures { ParallelIsSerial }
{}

/// The parallel schedule of a feasible list is feasible, and ends by the horizon.
pub fn parallel_schedule_is_feasible()
    ensures { ParallelScheduleIsFeasible }
{}

/// It lets nothing wait that could run: before its start, once its direct predecessors have ended,
/// no activity fits beside those that have started.
pub fn parallel_schedule_is_non_delay()
    ensures { ParallelScheduleIsNonDelay }
{}
