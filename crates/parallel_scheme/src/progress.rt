ghost use Rattle.std.specs.Prelude.{◌≡◌, ℕ, ◌≤◌, true, [], length, All, IfOk};
ghost use Rattle.std.specs.List.{list_all};
ghost use Rattle.rc_instance.specs.declared.limits.TheConstants.{MAX_HORIZON};
ghost use Rattle.rc_instance.specs.Lists.{IsUpTo};
ghost use Rattle.rc_instance.specs.Project.{IsActivity, activity_count};
ghost use Rattle.activity_net.specs.Network.{predecessors_of};
ghost use Rattle.serial_plain.specs.Shown.{finish_at, last_finish_of};
ghost use Rattle.parallel_scheme.specs.Passing.{IsTold, floor_in, is_marked};

use activity_net::Net;
use rc_instance::{Instance, Memory, Schedule};
use std::alloc::Global;

// What is booked, and from when on each activity may fit beside it.
#[derive(Drop)]
pub(crate) struct Progress {
    // the first period after the horizon
    pub(crate) end: u32,
    // of each activity: whether it is booked, where it starts, and a period before which it does not fit
    pub(crate) booked: Vec<bool>,
    pub(crate) starts: Schedule,
    pub(crate) floors: Vec<u32>,
}

impl Progress {
    // Nothing is booked, and nothing is known.
    pub(crate) fn new(alloc: Global, instance: &Instance) -> Result<Progress, Memory>
        ensures { IfOk result (IsTold instance.now 0 []) }
    {
        let count = instance.count();
        Ok(Progress {
            end: instance.horizon() + 1,
            booked: vec![in alloc; false; count as usize]?,
            starts: Schedule::zero(alloc, count)?,
            floors: vec![in alloc; 0; count as usize]?,
        })
    }

    // The period before which an activity can not start, as far as is known. None where it is booked,
    // or where it waits for one that is not.
    pub(crate) fn floor_of(&self, net: &Net, activity: u32) -> Option<u32>
        requires activity { IsActivity net.now.project activity }
        requires booked { length self.now.booked.items ≡ activity_count net.now.project }
        requires starts { length self.now.starts ≡ activity_count net.now.project }
        requires floors { length self.now.floors.items ≡ activity_count net.now.project }
        requires ended { All (λ a. is_marked self.now.booked.items a ≡ true
            → finish_at net.now.project self.now.starts a ≤ MAX_HORIZON)
            (predecessors_of net.now.project activity) }
        ensures { result ≡ floor_in net.now.project self.now activity }
    {
        let predecessors = net.predecessors(activity);
        if self.booked[activity as usize - 1] {
            return None;
        }
        if !are_marked(predecessors, &self.booked) {
            return None;
        }
        let ready = last_finish(net.instance(), predecessors, &self.starts);
        Some(ready.max(self.floors[activity as usize - 1]))
    }
}

// Whether all of some activities are marked.
fn are_marked(activities: &[u32], marks: &[bool]) -> bool
    requires { All (IsUpTo (length marks.now)) activities.now }
    ensures { result ≡ list_all (is_marked marks.now) activities.now }
{
    activities.iter().all(|a| marks[*a as usize - 1])
}

// The greatest finish of some activities, or 0.
fn last_finish(instance: &Instance, activities: &[u32], starts: &Schedule) -> u32
    requires activities { All (IsActivity instance.now) activities.now }
    requires count { length starts.now ≡ activity_count instance.now }
    requires ended { All (λ a. finish_at instance.now starts.now a ≤ MAX_HORIZON) activities.now }
    ensures { result ≡ last_finish_of instance.now starts.now activities.now }
{
    let mut latest: u32 = 0;
    for activity in activities {
        latest = latest.max(starts.start(*activity) + instance.duration(*activity));
    }
    latest
}
