//! The main laws of the improvement, of every project: each is what a function with nothing to do
//! ensures.
ghost use Rattle.fwd_back.specs.Laws.{ImprovedIsRepeated, ImprovedIsNeverLonger, ImprovedStays};

/// Where a round shortens a schedule, it is improved further from there on; else it stays.
pub fn improved_is_repeated()
    ensures { ImprovedIsRepeated }
{}

/// An improved schedule is never longer.
pub fn improved_is_never_longer()
    ensures { ImprovedIsNeverLonger }
{}

/// Improving an improved schedule again changes nothing.
pub fn improved_stays()
    ensures { ImprovedStays }
{}
