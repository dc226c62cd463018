ghost use Rattle.std.specs.Prelude.{◌≡◌, ℕ, ◌+◌, ◌-◌, ◌<◌, ◌≤◌, length, slice_index, All, IfOk, IfSome, IfNone};
ghost use Rattle.rc_instance.specs.Lists.{IsRising};
ghost use Rattle.activity_net.specs.Network.{predecessor_table};
ghost use Rattle.activity_net.specs.Tables.{lengths_in, lists_in, IsFree, IsReleased};
ghost use Rattle.activity_net.specs.Removal.{IsRemoval};

use rc_instance::{Instance, Memory};
use std::alloc::Global;

// The activities that can be taken away one after another, each after all its predecessors.
#[derive(Drop)]
pub(crate) struct Removal {
    pub(crate) order: Vec<u32>,
    pub(crate) removed: Vec<bool>,
}

// Takes away the least activity that has no predecessor left, again and again.
pub(crate) fn take_away(
    alloc: Global,
    instance: &Instance,
    predecessors: &[Vec<u32>],
) -> Result<Removal, Memory>
    requires { lists_in predecessors.now ≡ predecessor_table instance.now }
    ensures { IfOk result (λ removal. IsRemoval instance.now
        removal.order.items removal.removed.items) }
{
    let mut order = Vec::new(alloc);
    let mut removed = vec![in alloc; false; instance.count() as usize]?;
    let mut waiting = lengths(alloc, predecessors)?;
    let mut from = 0;
    while let Some(activity) = first_free(&waiting, &removed, from) {
        let successors = instance.successors(activity);
        order.push(activity)?;
        removed[activity as usize - 1] = true;
        release(successors, &mut waiting);
        from = next_place(activity, successors);
    }
    Ok(Removal { order, removed })
}

// How many predecessors each activity waits for.
fn lengths(alloc: Global, predecessors: &[Vec<u32>]) -> Result<Vec<usize>, Memory>
    ensures { IfOk result (λ waiting. waiting.items
        ≡ lengths_in predecessors.now) }
{
    Ok(predecessors.iter().map(|list| list.len()).collect(alloc)?)
}

// The least activity that is not removed and waits for none. The search begins at a place, counted
// from 0, before which there is none.
fn first_free(waiting: &[usize], removed: &[bool], from: usize) -> Option<u32>
    requires count { length waiting.now ≡ length removed.now }
    requires few { length removed.now ≤ 1000 }
    requires inside { from ≤ length removed.now }
    requires none_before { (a : ℕ) → a ≤ from → IsFree waiting.now removed.now a → ⊥ }
    ensures some { IfSome result (IsFree waiting.now removed.now) }
    ensures least { IfSome result (λ found. (a : ℕ) → a < found
        → IsFree waiting.now removed.now a → ⊥) }
    ensures none { IfNone result ((a : ℕ) → IsFree waiting.now removed.now a → ⊥) }
{
    for i in from..removed.len() {
        if !removed[i] && waiting[i] == 0 {
            return Some(i as u32 + 1);
        }
    }
    None
}

// The place from which on an activity can be free, once the least free one was taken away: those
// before it wait as they did.
fn next_place(activity: u32, successors: &[u32]) -> usize
    requires { All (λ b. 1 ≤ b) successors.now }
    ensures within { result ≤ activity }
    ensures before { All (λ b. result < b) successors.now }
{
    let mut place = activity as usize;
    for b in successors {
        place = place.min(*b as usize - 1);
    }
    place
}

// The successors of an activity that is taken away wait for one activity less.
fn release(successors: &[u32], waiting: &mut [usize])
    requires within { IsRising (length waiting.old) successors.now }
    requires some { All (λ b. 0 < slice_index waiting.old (b - 1)) successors.now }
    ensures { IsReleased successors.now waiting.old waiting.new }
{
    for b in successors {
        waiting[*b as usize - 1] -= 1;
    }
}
