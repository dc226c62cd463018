ghost use Rattle.std.specs.Prelude.{◌≡◌, ℕ, ◌≤◌, length, IfOk};
ghost use Rattle.rc_instance.specs.declared.limits.TheConstants.{MAX_ACTIVITIES};
ghost use Rattle.rc_instance.specs.Lists.{numbers};
ghost use Rattle.rc_instance.specs.Project.{activity_count};
ghost use Rattle.activity_net.specs.Network.{Network, Listing};
ghost use Rattle.priority_rules.specs.KeyList.{key_list, key_in, number_list};

use crate::choosing::choose_order;
use activity_net::{FeasibleList, Net};
use rc_instance::Memory;
use std::alloc::Global;

/// The list that takes, position by position, the activity of least key among those that are not
/// listed and whose direct predecessors all are, and of equal keys that of least number.
///
/// There is a key for each activity, in order of number.
pub fn list_by_keys<'n>(
    alloc: Global,
    net: &'n Net,
    keys: &[u32],
) -> Result<FeasibleList<'n>, Memory>
    requires { length keys.now ≡ activity_count net.now.project }
    ensures { IfOk result (λ list. list ≡ record {
      network = net.now;
      order = key_list net.now.project (key_in keys.now);
    }) }
{
    let mut waiting = vec![in alloc; 0; keys.len()]?;
    let mut pile = vec![in alloc; 0; keys.len()]?;
    let mut order = vec![in alloc; 0; keys.len()]?;
    choose_order(net, keys, &mut waiting, &mut pile, &mut order);
    Ok(FeasibleList::from_feasible(net, order))
}

/// The list that takes, position by position, the activity of least number among those that are not
/// listed and whose direct predecessors all are.
pub fn list_by_number(alloc: Global, net: &Net) -> Result<FeasibleList<'_>, Memory>
    ensures { IfOk result (λ list. list ≡ record {
      network = net.now;
      order = number_list net.now.project;
    }) }
{
    let numbers = numbers_up_to(alloc, net.instance().count())?;
    list_by_keys(alloc, net, &numbers)
}

// The numbers from 1 on.
fn numbers_up_to(alloc: Global, count: u32) -> Result<Vec<u32>, Memory>
    requires { count ≤ MAX_ACTIVITIES }
    ensures { IfOk result (λ list. list.items ≡ numbers count) }
{
    let mut list = Vec::with_capacity(alloc, count as usize)?;
    for number in 1..count + 1 {
        list.push(number)?;
    }
    Ok(list)
}
