//! The main laws of networks and feasible lists: each is what a function with nothing to do ensures.
ghost use Rattle.activity_net.specs.Laws.{PredecessorStandsBefore, EligibleActivityExists, FeasibleListExcludesCycle, ListFaultIsExact, FollowersAreExact};

/// In a feasible list each direct predecessor stands before.
pub fn predecessor_stands_before()
    ensures { PredecessorStandsBefore }
{}

/// Where a feasible list exists, an activity is eligible as long as one is left: it is not listed,
/// and all its direct predecessors are.
pub fn eligible_activity_exists()
    ensures { EligibleActivityExists }
{}

/// Where a feasible list exists there is no cycle.
pub fn feasible_list_excludes_cycle()
    ensures { FeasibleListExcludesCycle }
{}

/// An order has no fault exactly where it is a feasible list.
pub fn list_fault_is_exact()
    ensures { ListFaultIsExact }
{}

/// The followers of an activity are just the activities that follow it.
pub fn followers_are_exact()
    ensures { FollowersAreExact }
{}
