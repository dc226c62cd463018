ghost use Rattle.std.specs.Prelude.{◌≡◌, ℕ, List, [], length, replicate, IfOk, OnOk};
ghost use Rattle.rc_instance.specs.Project.{activity_count};
ghost use Rattle.rc_instance.specs.Lists.{IsRising};
ghost use Rattle.activity_net.specs.Network.{predecessor_table};
ghost use Rattle.activity_net.specs.Tables.{lists_in, IsListedUnder};

use rc_instance::{Instance, Memory};
use std::alloc::Global;

// The direct predecessors of each activity, in rising order.
pub(crate) fn predecessor_lists(alloc: Global, instance: &Instance) -> Result<Vec<Vec<u32>>, Memory>
    ensures { IfOk result (λ lists. lists_in lists.items
        ≡ predecessor_table instance.now) }
{
    let mut lists = empty_lists(alloc, instance.count())?;
    fill(instance, &mut lists)?;
    Ok(lists)
}

// So many empty lists.
fn empty_lists(alloc: Global, count: u32) -> Result<Vec<Vec<u32>>, Memory>
    ensures { IfOk result (λ lists. lists_in lists.items ≡ replicate count []) }
{
    let mut lists = Vec::with_capacity(alloc, count as usize)?;
    for _ in 0..count {
        lists.push(Vec::new(alloc))?;
    }
    Ok(lists)
}

// Lists each activity under each of its successors.
fn fill(instance: &Instance, lists: &mut [Vec<u32>]) -> Result<(), Memory>
    requires { lists_in lists.old ≡ replicate (activity_count instance.now) [] }
    ensures { OnOk result (lists_in lists.new ≡ predecessor_table instance.now) }
{
    for activity in 1..instance.count() + 1 {
        list_under(activity, instance.successors(activity), lists)?;
    }
    Ok(())
}

// Puts the activity at the end of the list of each of its successors.
fn list_under(activity: u32, successors: &[u32], lists: &mut [Vec<u32>]) -> Result<(), Memory>
    requires { IsRising (length lists.old) successors.now }
    ensures { OnOk result (IsListedUnder activity successors.now
        (lists_in lists.old) (lists_in lists.new)) }
{
    for b in successors {
        lists[*b as usize - 1].push(activity)?;
    }
    Ok(())
}
