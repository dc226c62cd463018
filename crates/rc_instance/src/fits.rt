ghost use Rattle.std.specs.Prelude.{◌≡◌, ℕ, ◌<◌, ◌≤◌, OnOk, IfErr, IfSome, IfNone};
ghost use Rattle.rc_instance.specs.Project.{IsActivity, IsResource, resource_count};
ghost use Rattle.rc_instance.specs.Misfit.{IsMisfit, HasNoMisfit, IsFirstMisfit, IsFirstMisfitOf};

use crate::instance::Instance;
use crate::misfit::Misfit;

impl Instance {
    /// Whether each activity that takes time demands no more of any resource than its last capacity.
    ///
    /// The answer is the misfit of the least activity, and of its least resource. It takes no memory.
    pub fn fits_all(&self) -> Result<(), Misfit>
        ensures ok { OnOk result (HasNoMisfit self.now) }
        ensures misfit { IfErr result (IsFirstMisfit self.now) }
    {
        for activity in 1..self.count() + 1 {
            if let Some(misfit) = self.first_misfit_of(activity) {
                return Err(misfit);
            }
        }
        Ok(())
    }

    // The misfit of this activity and its least resource, if it has one.
    fn first_misfit_of(&self, activity: u32) -> Option<Misfit>
        requires { IsActivity self.now activity }
        ensures none { IfNone result ((k : ℕ) → IsMisfit self.now activity k → ⊥) }
        ensures some { IfSome result (IsFirstMisfitOf self.now activity) }
    {
        if self.duration(activity) == 0 {
            return None;
        }
        for resource in 1..self.resources() + 1 {
            let demand = self.demand(activity, resource);
            let capacity = self.last_capacity(resource);
            if capacity < demand {
                return Some(Misfit {
                    activity,
                    resource,
                    demand,
                    capacity,
                });
            }
        }
        None
    }
}
