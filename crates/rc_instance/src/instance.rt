ghost use Rattle.std.specs.Prelude.{◌≡◌, ℕ, ◌+◌, ◌*◌, ◌<◌, ◌≤◌, length, slice_index, slice_get, Some};
ghost use Rattle.rc_instance.specs.Lists.{IsRising};
ghost use Rattle.rc_instance.specs.Project.{Project, activity_count, resource_count, horizon, duration, demand, capacity, capacity_at, last_capacity, last_change, successors_of, IsActivity, IsResource, AreDemands};
ghost use Rattle.rc_instance.specs.Calendar.{IsWithinLimits, IsCalendar};
ghost use Rattle.rc_instance.specs.declared.limits.TheConstants.{MAX_CAPACITY, MAX_DURATION_SUM, MAX_CHANGE_PERIOD, MAX_HORIZON};

use crate::change::Change;
use std::marker::Model;

/// An instance of the resource-constrained project scheduling problem, within all limits.
///
/// Activities and resources are numbered from 1. No reader takes memory.
#[derive(Debug, Drop)]
pub struct Instance {
    pub(crate) capacities: Vec<u32>,
    pub(crate) durations: Vec<u32>,
    pub(crate) demands: Vec<u32>,
    pub(crate) successors: Vec<Vec<u32>>,
    pub(crate) changes: Vec<Change>,
}

impl Model for Instance {
    ghost use Rattle.rc_instance.specs.Project.{Project};

    ghost Value = { Project };

    ghost use Rattle.rc_instance.specs.View.{project_of, KeepsLimits};

    ghost view = { project_of };

    ghost invariant = { KeepsLimits };
}

impl Instance {
    /// How many activities there are.
    pub fn count(&self) -> u32
        ensures value { result ≡ activity_count self.now }
        ensures limits { IsWithinLimits self.now }
    {
        self.durations.len() as u32
    }

    /// How many resources there are.
    pub fn resources(&self) -> u32
        ensures value { result ≡ resource_count self.now }
        ensures limits { IsWithinLimits self.now }
    {
        self.capacities.len() as u32
    }

    /// The horizon, in periods: the last change of a capacity, and all durations after it.
    pub fn horizon(&self) -> u32
        ensures value { result ≡ horizon self.now }
        ensures within { result ≤ MAX_HORIZON }
        ensures limits { IsWithinLimits self.now }
    {
        self.last_change() + self.durations.iter().sum::<u32>()
    }

    /// The capacity of a resource before any change.
    #[tactic(auto, unfolding(crate::specs::Project::capacity))]
    pub fn capacity(&self, resource: u32) -> u32
        requires { IsResource self.now resource }
        ensures value { result ≡ capacity self.now resource }
        ensures within { result ≤ MAX_CAPACITY }
    {
        self.capacities[resource as usize - 1]
    }

    /// The capacity of a resource in a period: that of its latest change up to then.
    #[tactic(auto, unfolding(crate::specs::Project::capacity_at))]
    pub fn capacity_at(&self, resource: u32, period: u32) -> u32
        requires { IsResource self.now resource }
        ensures value { result ≡ capacity_at self.now resource period }
        ensures within { result ≤ MAX_CAPACITY }
    {
        self.changes
            .iter()
            .fold(self.capacity(resource), |now, change| {
                if change.resource == resource && change.period <= period {
                    change.capacity
                } else {
                    now
                }
            })
    }

    /// The capacity of a resource after all changes.
    #[tactic(auto, unfolding(crate::specs::Project::last_capacity))]
    pub fn last_capacity(&self, resource: u32) -> u32
        requires { IsResource self.now resource }
        ensures value { result ≡ last_capacity self.now resource }
        ensures within { result ≤ MAX_CAPACITY }
    {
        self.changes
            .iter()
            .fold(self.capacity(resource), |now, change| {
                if change.resource == resource {
                    change.capacity
                } else {
                    now
                }
            })
    }

    /// The latest period in which a capacity changes, or 0.
    #[tactic(auto, unfolding(crate::specs::Project::last_change))]
    pub fn last_change(&self) -> u32
        ensures value { result ≡ last_change self.now }
        ensures within { result ≤ MAX_CHANGE_PERIOD }
    {
        self.changes
            .iter()
            .fold(0, |latest, change| latest.max(change.period))
    }

    /// How many periods an activity takes.
    #[tactic(auto, unfolding(crate::specs::Project::duration))]
    pub fn duration(&self, activity: u32) -> u32
        requires { IsActivity self.now activity }
        ensures value { result ≡ duration self.now activity }
        ensures within { result ≤ MAX_DURATION_SUM }
    {
        self.durations[activity as usize - 1]
    }

    /// How much of a resource an activity uses in each period in which it runs.
    #[tactic(auto, unfolding(crate::specs::Project::demand))]
    pub fn demand(&self, activity: u32, resource: u32) -> u32
        requires activity { IsActivity self.now activity }
        requires resource { IsResource self.now resource }
        ensures { result ≡ demand self.now activity resource }
    {
        self.demands[(activity as usize - 1) * self.capacities.len() + (resource as usize - 1)]
    }

    /// What an activity uses of each resource in each period in which it runs, in order of resource.
    #[tactic(auto, unfolding(crate::specs::Project::demand))]
    pub fn demands(&self, activity: u32) -> &[u32]
        requires { IsActivity self.now activity }
        ensures demands { AreDemands self.now activity result.now }
        ensures limits { IsWithinLimits self.now }
    {
        let first = (activity as usize - 1) * self.capacities.len();
        &self.demands[first..first + self.capacities.len()]
    }

    /// The direct successors of an activity, in rising order.
    #[tactic(auto, unfolding(crate::specs::Project::successors_of))]
    pub fn successors(&self, activity: u32) -> &[u32]
        requires { IsActivity self.now activity }
        ensures value { result.now ≡ successors_of self.now activity }
        ensures within { IsRising (activity_count self.now) result.now }
        ensures limits { IsWithinLimits self.now }
    {
        &self.successors[activity as usize - 1]
    }

    /// How many direct successors an activity has.
    pub fn successor_count(&self, activity: u32) -> u32
        requires { IsActivity self.now activity }
        ensures { result ≡ length (successors_of self.now activity) }
    {
        self.successors(activity).len() as u32
    }

    /// The direct successor of an activity at a place of the rising order, counted from 0.
    pub fn successor(&self, activity: u32, index: u32) -> u32
        requires activity { IsActivity self.now activity }
        requires index { index < length (successors_of self.now activity) }
        ensures value { result ≡ slice_index (successors_of self.now activity) index }
        ensures within { IsActivity self.now result }
    {
        self.successors(activity)[index as usize]
    }

    /// How many changes the calendar has.
    pub fn change_count(&self) -> u32
        ensures { result ≡ length self.now.changes }
    {
        self.changes.len() as u32
    }

    /// The change at a place of the calendar, counted from 0.
    pub fn change(&self, index: u32) -> Change
        requires { index < length self.now.changes }
        ensures { slice_get self.now.changes index ≡ Some result }
    {
        self.changes[index as usize]
    }

    /// The same instance with this calendar in place of its own.
    pub fn with_calendar(self, changes: Vec<Change>) -> Instance
        requires { IsCalendar (resource_count self) changes.items }
        ensures { result ≡ record self { changes = changes.items } }
    {
        Instance { changes, ..self }
    }
}
