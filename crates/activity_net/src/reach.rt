ghost use Rattle.std.specs.Prelude.{◌≡◌, ℕ, ◌/◌, ◌<◌, ◌≤◌, ◌||◌, length, nat_eq, replicate, take, vec_len, All, IfOk, OnOk};
ghost use Rattle.std.specs.List.{list_any};
ghost use Rattle.rc_instance.specs.Project.{activity_count};
ghost use Rattle.rc_instance.specs.Lists.{IsRising};
ghost use Rattle.rc_instance.specs.Order.{IsFeasibleList};
ghost use Rattle.activity_net.specs.Tables.{lists_in};
ghost use Rattle.activity_net.specs.Follows.{IsGathered, HoldFollowers, set_of, has_bit};

use crate::bits::{insert, insert_all};
use rc_instance::{Instance, Memory};
use std::alloc::Global;

// For each activity the set of those that follow it, a bit for each.
pub(crate) fn follower_sets(
    alloc: Global,
    instance: &Instance,
    order: &[u32],
) -> Result<Vec<Vec<u64>>, Memory>
    requires { IsFeasibleList instance.now order.now }
    ensures { IfOk result (λ sets. HoldFollowers instance.now (lists_in sets.items)) }
{
    let mut sets = empty_sets(alloc, instance.count())?;
    fill(alloc, instance, order, &mut sets)?;
    Ok(sets)
}

// So many sets, for which no memory is taken yet.
fn empty_sets(alloc: Global, count: u32) -> Result<Vec<Vec<u64>>, Memory>
    ensures { IfOk result (λ sets. length sets.items ≡ count) }
{
    let mut sets = Vec::with_capacity(alloc, count as usize)?;
    for _ in 0..count {
        sets.push(Vec::new(alloc))?;
    }
    Ok(sets)
}

// Makes the set of each activity, the last of the order first, from those of its successors.
fn fill(
    alloc: Global,
    instance: &Instance,
    order: &[u32],
    sets: &mut [Vec<u64>],
) -> Result<(), Memory>
    requires feasible { IsFeasibleList instance.now order.now }
    requires count { length sets.old ≡ activity_count instance.now }
    ensures { OnOk result (HoldFollowers instance.now (lists_in sets.new)) }
{
    let width = instance.count() as usize / 64 + 1;
    for after in 0..order.len() {
        let activity = order[order.len() - 1 - after];
        let set = gathered(alloc, width, instance.successors(activity), sets)?;
        sets[activity as usize - 1] = set;
    }
    Ok(())
}

// The set of these activities, and of what their sets hold.
fn gathered(
    alloc: Global,
    width: usize,
    given: &[u32],
    sets: &[Vec<u64>],
) -> Result<Vec<u64>, Memory>
    requires within { IsRising (length sets.now) given.now }
    requires width { length sets.now / 64 < width }
    requires widths { All (λ s. length (set_of (lists_in sets.now) s) ≡ width) given.now }
    ensures { IfOk result (λ set. IsGathered width (lists_in sets.now) given.now set.items) }
{
    let mut set = vec![in alloc; 0; width]?;
    gather(given, sets, &mut set);
    Ok(set)
}

// Puts these activities and what their sets hold into a set.
fn gather(given: &[u32], sets: &[Vec<u64>], set: &mut [u64])
    requires within { IsRising (length sets.now) given.now }
    requires width { length sets.now / 64 < length set.old }
    requires widths { All (λ s. length (set_of (lists_in sets.now) s) ≡ length set.old) given.now }
    ensures { (b : ℕ) → has_bit set.new b ≡ (has_bit set.old b
        || list_any (λ s. nat_eq s b || has_bit (set_of (lists_in sets.now) s) b) given.now) }
{
    for s in given {
        insert(set, *s);
        insert_all(set, &sets[*s as usize - 1]);
    }
}
