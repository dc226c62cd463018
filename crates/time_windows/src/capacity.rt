ghost use Rattle.std.specs.Prelude.{◌≡◌, ℕ, ◌+◌, ◌<◌, ◌≤◌, ◌↔◌, IsTrue};
ghost use Rattle.rc_instance.specs.declared.limits.TheConstants.{MAX_DURATION_SUM};
ghost use Rattle.rc_instance.specs.Project.{IsResource};
ghost use Rattle.rc_instance.specs.Calendar.{IsWithinLimits};
ghost use Rattle.time_windows.specs.CapacityBound.{IsEnough, top_capacity, work, bound_by, capacity_bound_of};

use rc_instance::Instance;

// The greatest bound that a resource gives.
pub(crate) fn capacity_bound(instance: &Instance) -> u32
    ensures value { result ≡ capacity_bound_of instance.now }
    ensures within { result ≤ MAX_DURATION_SUM }
{
    let mut bound: u32 = 0;
    for resource in 1..instance.resources() + 1 {
        bound = bound.max(bound_by(instance, resource));
    }
    bound
}

// The work of a resource over its top capacity, rounded up, or 0 where it gives no bound.
fn bound_by(instance: &Instance, resource: u32) -> u32
    requires { IsResource instance.now resource }
    ensures { result ≡ bound_by instance.now resource }
{
    let top = top_capacity(instance, resource);
    if top == 0 || !is_enough(instance, resource, top) {
        return 0;
    }
    work(instance, resource).div_ceil(u64::from(top)) as u32
}

// The greatest capacity that a resource ever has.
fn top_capacity(instance: &Instance, resource: u32) -> u32
    requires { IsResource instance.now resource }
    ensures { result ≡ top_capacity instance.now resource }
{
    let mut top = instance.capacity(resource);
    for index in 0..instance.change_count() {
        let change = instance.change(index);
        if change.resource == resource {
            top = top.max(change.capacity);
        }
    }
    top
}

// Whether no activity that takes time demands more of a resource than this capacity.
fn is_enough(instance: &Instance, resource: u32, capacity: u32) -> bool
    requires { IsResource instance.now resource }
    ensures { IsTrue result ↔ IsEnough instance.now resource capacity }
{
    for activity in 1..instance.count() + 1 {
        if instance.duration(activity) > 0 && instance.demand(activity, resource) > capacity {
            return false;
        }
    }
    true
}

// What all activities ask of a resource in all their periods together.
fn work(instance: &Instance, resource: u32) -> u64
    requires { IsResource instance.now resource }
    ensures value { result ≡ work instance.now resource }
    ensures limits { IsWithinLimits instance.now }
{
    let mut work: u64 = 0;
    for activity in 1..instance.count() + 1 {
        let demand = u64::from(instance.demand(activity, resource));
        work += demand * u64::from(instance.duration(activity));
    }
    work
}
