ghost use Rattle.std.specs.Prelude.{◌≡◌, ℕ, ◌+◌, ◌<◌, ◌≤◌, length, map, IfOk};
ghost use Rattle.rc_instance.specs.Lists.{numbers};
ghost use Rattle.rc_instance.specs.Project.{activity_count, IsActivity};
ghost use Rattle.rc_instance.specs.Calendar.{IsWithinLimits};
ghost use Rattle.rc_instance.specs.Order.{IsFeasibleList};
ghost use Rattle.activity_net.specs.Network.{Network, Listing};
ghost use Rattle.priority_rules.specs.Rules.{rule_list, rule_key, positional_weight};

use crate::key_list::list_by_keys;
use crate::rule::Rule;
use activity_net::{FeasibleList, Net};
use rc_instance::{Instance, Memory};
use std::alloc::Global;
use time_windows::Windows;

/// The list that takes, position by position, the activity that the rule prefers among those that
/// are not listed and whose direct predecessors all are, and of equal ones that of least number.
///
/// The windows are those of the net.
pub fn list_of<'n>(
    alloc: Global,
    net: &'n Net,
    windows: &Windows,
    rule: Rule,
) -> Result<FeasibleList<'n>, Memory>
    requires { windows.now ≡ net.now }
    ensures { IfOk result (λ list. list ≡ record {
      network = net.now;
      order = rule_list net.now.project rule;
    }) }
{
    let keys = keys_of(alloc, windows, rule)?;
    list_by_keys(alloc, net, &keys)
}

// The key of each activity, in order of number.
fn keys_of(alloc: Global, windows: &Windows, rule: Rule) -> Result<Vec<u32>, Memory>
    ensures keys { IfOk result (λ keys. keys.items ≡
        map (rule_key windows.now.project rule) (numbers (activity_count windows.now.project))) }
    ensures limits { IsWithinLimits windows.now.project }
{
    let count = windows.net().order().len();
    let mut keys = Vec::with_capacity(alloc, count)?;
    for activity in 1..count as u32 + 1 {
        keys.push(key_of(windows, rule, activity))?;
    }
    Ok(keys)
}

// The key by which an activity goes before others: the least goes first.
fn key_of(windows: &Windows, rule: Rule, activity: u32) -> u32
    requires activity { IsActivity windows.now.project activity }
    requires order { IsFeasibleList windows.now.project windows.now.order }
    ensures { result ≡ rule_key windows.now.project rule activity }
{
    let net = windows.net();
    let instance = net.instance();
    match rule {
        Rule::Number => activity,
        Rule::Lft => windows.latest(activity) + instance.duration(activity),
        Rule::Lst => windows.latest(activity),
        Rule::Mts => u32::MAX - net.all_successors(activity),
        Rule::Grpw => u32::MAX - weight_of(instance, activity),
    }
}

// The duration of an activity and those of its direct successors.
fn weight_of(instance: &Instance, activity: u32) -> u32
    requires { IsActivity instance.now activity }
    ensures { result ≡ positional_weight instance.now activity }
{
    let mut weight = instance.duration(activity);
    for successor in instance.successors(activity) {
        weight += instance.duration(*successor);
    }
    weight
}
