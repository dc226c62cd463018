ghost use Rattle.std.specs.Prelude.{◌≡◌, ℕ, ◌≤◌, List, length, IfOk};
ghost use Rattle.rc_instance.specs.declared.limits.TheConstants.{MAX_ACTIVITIES, MAX_RESOURCES};
ghost use Rattle.rc_instance.specs.Project.{horizon};
ghost use Rattle.rc_instance.specs.Misfit.{HasNoMisfit};
ghost use Rattle.rc_instance.specs.Order.{IsCycle};
ghost use Rattle.trial_instance.specs.Trial.{trial_project, project_of_words, word_count};
ghost use Rattle.trial_instance.specs.Parts.{AreParts};

use crate::draw::{capacities, demands, durations, first_word, successors};
use key_sampling::draw_keys;
use rc_instance::{Instance, InstanceFault, Memory, Parts};
use std::alloc::Global;

/// The greatest horizon of a trial instance, in periods.
pub const MAX_TRIAL_HORIZON: u32 = 9_980;

// The stream of the generator from which trial instances are drawn.
const STREAM: u32 = 54;

/// The trial instance of a number, with so many activities and resources. Capacities are from 10 to
/// 20, durations from 1 to 10, demands from 0 to 10, and each activity has up to two predecessors of
/// lower numbers; the first and the last activity take no time.
///
/// It is refused only for want of memory.
pub fn trial_instance(
    alloc: Global,
    number: u64,
    activities: u32,
    resources: u32,
) -> Result<Instance, Memory>
    requires activities { (2 ≤ activities) × (activities ≤ MAX_ACTIVITIES) }
    requires resources { resources ≤ MAX_RESOURCES }
    ensures value { IfOk result (λ instance.
        instance ≡ trial_project number activities resources) }
    ensures fits { IfOk result HasNoMisfit }
    ensures acyclic { IfOk result (λ instance. (ring : List ℕ) → IsCycle instance ring → ⊥) }
    ensures short { IfOk result (λ instance. horizon instance ≤ MAX_TRIAL_HORIZON) }
{
    let mut words = vec![in alloc; 0; first_word(resources, activities)]?;
    draw_keys(number, STREAM, &mut words);
    instance_of(alloc, activities, resources, &words)
}

// The instance of these words.
fn instance_of(
    alloc: Global,
    activities: u32,
    resources: u32,
    words: &[u32],
) -> Result<Instance, Memory>
    requires activities { (2 ≤ activities) × (activities ≤ MAX_ACTIVITIES) }
    requires resources { resources ≤ MAX_RESOURCES }
    requires words { length words.now ≡ word_count activities resources }
    ensures { IfOk result (λ instance. instance
        ≡ project_of_words activities resources words.now) }
{
    let parts = parts_of(alloc, activities, resources, words)?;
    match Instance::build(alloc, parts) {
        Ok(instance) => Ok(instance),
        Err(fault) => Err(want_of_memory(fault)),
    }
}

// The only fault that an instance of words can have.
fn want_of_memory(fault: InstanceFault) -> Memory
    requires { fault ≡ InstanceFault.Memory }
{
    match fault {
        InstanceFault::Memory => Memory,
        _ => unreachable!(),
    }
}

fn parts_of(alloc: Global, activities: u32, resources: u32, words: &[u32]) -> Result<Parts, Memory>
    requires activities { (2 ≤ activities) × (activities ≤ MAX_ACTIVITIES) }
    requires resources { resources ≤ MAX_RESOURCES }
    requires words { length words.now ≡ word_count activities resources }
    ensures { IfOk result (AreParts activities resources words.now) }
{
    Ok(Parts {
        capacities: capacities(alloc, &words[..resources as usize])?,
        durations: durations(alloc, activities, resources, words)?,
        demands: demands(alloc, activities, resources, words)?,
        successors: successors(alloc, activities, resources, words)?,
    })
}
