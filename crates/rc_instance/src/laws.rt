//! The limits as numbers, and the main laws of the definitions, of every project: each is what a
//! function with nothing to do ensures.
ghost use Rattle.std.specs.Prelude.{◌≡◌};
ghost use Rattle.rc_instance.specs.declared.limits.TheConstants.{MAX_ACTIVITIES, MAX_RESOURCES, MAX_CAPACITY, MAX_DURATION_SUM, MAX_CHANGES, MAX_CHANGE_PERIOD, MAX_HORIZON, MAX_FILE_BYTES};
ghost use Rattle.rc_instance.specs.Laws.{LatestChangeDecides, UnchangedUntilFirst, TestOfFitIsExact, LeastStartExists, LeastStartAfterPredecessorsExists, LeastStartIsUnique, LatestStartExists, LatestStartIsUnique, LeastStartIsNeverEarlier, EarlyStartIsNoLater, SerialStaysWithinCapacity, SerialScheduleIsFeasible};

/// The limits of the product: activities, resources, the capacity of a resource, the sum of the
/// durations in periods, the changes of a calendar and their periods, the horizon in periods, and
/// the bytes of a file.
pub fn limits_are_these_numbers()
    ensures activities { MAX_ACTIVITIES ≡ 1000 }
    ensures resources { MAX_RESOURCES ≡ 16 }
    ensures capacity { MAX_CAPACITY ≡ 65535 }
    ensures durations { MAX_DURATION_SUM ≡ 65535 }
    ensures changes { MAX_CHANGES ≡ 1000 }
    ensures change_period { MAX_CHANGE_PERIOD ≡ 65535 }
    ensures horizon { MAX_HORIZON ≡ 131070 }
    ensures file_bytes { MAX_FILE_BYTES ≡ 4194304 }
{}

/// In a calendar the capacity of a resource in a period is that of its change with the greatest
/// period up to then, and where it has no such change, its capacity before any.
pub fn latest_change_decides()
    ensures latest { LatestChangeDecides }
    ensures none { UnchangedUntilFirst }
{}

/// The computed test is true exactly where the activity fits.
pub fn test_of_fit_is_exact()
    ensures { TestOfFitIsExact }
{}

/// Without a misfit there is a least start from each floor on: the computed one, which is no later
/// than the floor, or the time from which nothing changes and nothing runs.
pub fn least_start_exists()
    ensures from_floor { LeastStartExists }
    ensures after_predecessors { LeastStartAfterPredecessorsExists }
{}

/// A least start, where there is one, is the computed one.
pub fn least_start_is_unique()
    ensures { LeastStartIsUnique }
{}

/// Where a start that ends by an end fits, there is a latest one: the computed one.
pub fn latest_start_exists()
    ensures { LatestStartExists }
{}

/// A latest start by an end, where there is one, is the computed one.
pub fn latest_start_is_unique()
    ensures { LatestStartIsUnique }
{}

/// Beside more bookings and from a later floor on, a least start is never earlier.
pub fn least_start_is_never_earlier()
    ensures { LeastStartIsNeverEarlier }
{}

/// The least start beside what the first places of an order book is at most the start that the
/// serial scheme gives to the activity of a later place.
pub fn early_start_is_no_later()
    ensures { EarlyStartIsNoLater }
{}

/// What the serial scheme books exceeds no capacity.
pub fn serial_stays_within_capacity()
    ensures { SerialStaysWithinCapacity }
{}

/// The serial schedule of a feasible list is feasible, and ends by the horizon.
pub fn serial_schedule_is_feasible()
    ensures { SerialScheduleIsFeasible }
{}
