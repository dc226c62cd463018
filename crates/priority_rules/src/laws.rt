//! The main laws of the definitions, of every project: each is what a function with nothing to do
//! ensures.
ghost use Rattle.priority_rules.specs.Laws.{ListByNumberIsRising};

/// Where each successor has a number above its activity's, the list by number is 1, 2 and so on.
pub fn list_by_number_is_rising()
    ensures { ListByNumberIsRising }
{}
