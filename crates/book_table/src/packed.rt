// The demands and the capacities of a list, packed in words, which a book looks up.
ghost use Rattle.std.specs.Prelude.{◌≡◌, ℕ, ◌+◌, ◌<◌, nat_lt, if◌then◌else◌, IfOk};
ghost use Rattle.rc_instance.specs.Project.{IsActivity, duration, demand, capacity_at, resource_count};
ghost use Rattle.rc_instance.specs.Misfit.{HasNoMisfit};
ghost use Rattle.capacity_profile.specs.Lanes.{lane_of};
ghost use Rattle.book_rule.specs.Listed.{count, room};
ghost use Rattle.book_table.specs.BookView.{IsNeed, AreNeeds, AreRooms};

use activity_net::FeasibleList;
use capacity_profile::pack;
use rc_instance::{Instance, Memory};
use std::alloc::Global;

// What each position needs, word after word.
pub(crate) fn needs_of(alloc: Global, list: &FeasibleList<'_>) -> Result<Vec<u64>, Memory>
    requires { HasNoMisfit list.now.network.project }
    ensures { IfOk result (λ needs. AreNeeds list.now needs.items) }
{
    let instance = list.net().instance();
    let words = (instance.resources() as usize + 3) / 4;
    let mut needs = vec![in alloc; 0; instance.count() as usize * words]?;
    for cell in 0..needs.len() {
        needs[cell] = need_word(list, (cell / words) as u32, (cell % words) as u32);
    }
    Ok(needs)
}

// How much there is in each word of every period, or nothing where some capacity changes.
pub(crate) fn rooms_of(alloc: Global, list: &FeasibleList<'_>) -> Result<Vec<u64>, Memory>
    ensures { IfOk result (λ rooms. AreRooms list.now rooms.items) }
{
    let instance = list.net().instance();
    if instance.change_count() != 0 {
        return Ok(Vec::new(alloc));
    }
    let words = (instance.resources() as usize + 3) / 4;
    let mut rooms = vec![in alloc; 0; words]?;
    for index in 0..rooms.len() {
        rooms[index] = room_word(list, index as u32, 0);
    }
    Ok(rooms)
}

// What the activity at a position needs of the resources in a word, or 0 where it takes no time.
fn need_word(list: &FeasibleList<'_>, position: u32, index: u32) -> u64
    requires fits { HasNoMisfit list.now.network.project }
    requires position { position < count list.now }
    requires index { index < 4 }
    ensures { IsNeed list.now position index result }
{
    let instance = list.net().instance();
    let activity = list.order()[position as usize];
    if instance.duration(activity) == 0 {
        return 0;
    }
    let first = 4 * index;
    pack([
        demand_of(instance, activity, first),
        demand_of(instance, activity, first + 1),
        demand_of(instance, activity, first + 2),
        demand_of(instance, activity, first + 3),
    ])
}

// How much there is in a period of the resources in a word.
pub(crate) fn room_word(list: &FeasibleList<'_>, index: u32, period: u32) -> u64
    requires { index < 4 }
    ensures { (l : ℕ) → l < 4 → lane_of result l ≡ room list.now index l period }
{
    let instance = list.net().instance();
    let first = 4 * index;
    pack([
        capacity_of(instance, first, period),
        capacity_of(instance, first + 1, period),
        capacity_of(instance, first + 2, period),
        capacity_of(instance, first + 3, period),
    ])
}

// What an activity demands of a resource, counted from 0, or 0 where there is none.
fn demand_of(instance: &Instance, activity: u32, resource: u32) -> u16
    requires activity { IsActivity instance.now activity }
    requires runs { 0 < duration instance.now activity }
    requires fits { HasNoMisfit instance.now }
    requires resource { resource < 16 }
    ensures { result ≡ (if nat_lt resource (resource_count instance.now) then demand instance.now activity (resource + 1) else 0) }
{
    if resource < instance.resources() {
        instance.demand(activity, resource + 1) as u16
    } else {
        0
    }
}

// The capacity of a resource, counted from 0, in a period, or 0 where there is none.
fn capacity_of(instance: &Instance, resource: u32, period: u32) -> u16
    requires { resource < 16 }
    ensures { result ≡ (if nat_lt resource (resource_count instance.now) then capacity_at instance.now (resource + 1) period else 0) }
{
    if resource < instance.resources() {
        instance.capacity_at(resource + 1, period) as u16
    } else {
        0
    }
}
