//! The main laws of plans, of every project: each is what a function with nothing to do ensures.
ghost use Rattle.schedule_check.specs.Laws.{PlanWithoutViolationIsFeasible, FeasibleScheduleHasNoViolation, PlanIsThatOfItsRecords, FaultIsThatOfTheFirstRecord, CsvIsReadBack, CsvOfFeasibleIsAccepted, CsvOfSerialIsAccepted};

/// A plan without a violation is a feasible schedule, and its last finish is the makespan.
pub fn plan_without_violation_is_feasible()
    ensures { PlanWithoutViolationIsFeasible }
{}

/// The bookings of a feasible schedule have no violation.
pub fn feasible_schedule_has_no_violation()
    ensures { FeasibleScheduleHasNoViolation }
{}

/// Records are a plan exactly where the first is the header and each other one gives a booking; else
/// the fault is that of the first record that has one, taken for itself.
pub fn records_are_read_one_by_one()
    ensures plan { PlanIsThatOfItsRecords }
    ensures fault { FaultIsThatOfTheFirstRecord }
{}

/// The CSV of a schedule is a plan: the bookings of the schedule in order of number.
pub fn csv_is_read_back()
    ensures { CsvIsReadBack }
{}

/// The CSV of a feasible schedule, and so that of the serial schedule of a feasible list, is a plan
/// without a violation, and its last finish is the makespan.
pub fn csv_is_accepted()
    ensures feasible { CsvOfFeasibleIsAccepted }
    ensures serial { CsvOfSerialIsAccepted }
{}
