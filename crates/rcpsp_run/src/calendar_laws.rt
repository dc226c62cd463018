//! What a calendar means for a schedule, of every project: each is what a function with nothing to
//! do ensures.
ghost use Rattle.rcpsp_run.specs.CalendarLaws.{EmptyCalendarIsNone, CapacitiesDecide};

/// A calendar without changes is no calendar.
pub fn empty_calendar_is_none()
    ensures { EmptyCalendarIsNone }
{}

/// Calendars that give the same capacity in every period give the same serial schedules.
pub fn capacities_decide()
    ensures { CapacitiesDecide }
{}
