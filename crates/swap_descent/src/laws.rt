//! The main laws of the descent: each is what a function with nothing to do ensures.
ghost use Rattle.swap_descent.specs.Laws.{DescentIsFeasible, DescentIsNeverLonger, DescentStays};

/// From a feasible list the descent goes to a feasible list.
pub fn descent_is_feasible()
    ensures { DescentIsFeasible }
{}

/// The serial schedule of the descended list is never longer.
pub fn descent_is_never_longer()
    ensures { DescentIsNeverLonger }
{}

/// Where no exchange improves, the list stays, however many rounds are left.
pub fn descent_stays()
    ensures { DescentStays }
{}
