ghost use Rattle.std.specs.Prelude.{◌≡◌, ℕ, ◌+◌, ◌<◌, ◌≤◌, ◌&&◌, ◌∷◌, [], length, slice_index, nat_eq, nat_le, if◌then◌else◌, IfOk};
ghost use Rattle.rc_instance.specs.Project.{resource_count, capacity, capacity_at};
ghost use Rattle.rc_instance.specs.Calendar.{IsWithinLimits};
ghost use Rattle.rc_instance.specs.declared.limits.TheConstants.{MAX_CAPACITY};
ghost use Rattle.event_line.specs.Rows.{left_at};
ghost use Rattle.event_line.specs.Shown.{ShowsCapacities, ShowsFirstCapacities, HasChanges};

use crate::axis::Axis;
use crate::chain::Chain;
use rc_instance::{Change, Instance, Memory};
use std::alloc::Global;

impl Axis {
    /// What an instance has without bookings: a node at each change, and all capacities.
    pub(crate) fn of(alloc: Global, instance: &Instance) -> Result<Axis, Memory>
        ensures width { IfOk result (λ axis. axis.free.width ≡ resource_count instance.now) }
        ensures room { IfOk result (λ axis. axis.chain.room ≡ 2 + length instance.now.changes) }
        ensures changes { IfOk result (λ axis. HasChanges instance.now axis.chain.periods
            (length axis.chain.periods)) }
        ensures capacities { IfOk result (λ axis.
            ShowsCapacities instance.now axis.chain.periods axis.free.rows) }
    {
        let width = instance.resources();
        let mut axis = Axis::new(alloc, 2 + instance.change_count(), width)?;
        mark_changes(&mut axis.chain, instance);
        axis.fill(instance);
        axis.apply_all(instance);
        Ok(axis)
    }

    // Writes the capacities before any change into the row of each node.
    fn fill(&mut self, instance: &Instance)
        requires { self.old.free.width ≡ resource_count instance.now }
        ensures capacities { ShowsFirstCapacities instance.now self.new.chain.periods
            self.new.free.rows }
        ensures chain { self.new.chain ≡ self.old.chain }
        ensures width { self.new.free.width ≡ self.old.free.width }
    {
        for node in 0..self.chain.len() {
            self.free.fill(node, instance);
        }
    }

    // Writes the capacity of each change, one after the other, into the rows from its node on.
    fn apply_all(&mut self, instance: &Instance)
        requires limits { IsWithinLimits instance.now }
        requires width { self.old.free.width ≡ resource_count instance.now }
        requires filled { ShowsFirstCapacities instance.now self.old.chain.periods
            self.old.free.rows }
        ensures capacities { ShowsCapacities instance.now self.new.chain.periods
            self.new.free.rows }
        ensures chain { self.new.chain ≡ self.old.chain }
        ensures width { self.new.free.width ≡ self.old.free.width }
    {
        for index in 0..instance.change_count() {
            self.apply(instance.change(index));
        }
    }

    // Writes the capacity of a change into the rows from its node on.
    fn apply(&mut self, change: Change)
        requires resource { (1 ≤ change.resource) × (change.resource ≤ self.old.free.width) }
        requires capacity { change.capacity ≤ MAX_CAPACITY }
        ensures written { (i j : ℕ) → i < length self.new.chain.periods
            → j < self.new.free.width
            → left_at self.new.free.rows i j
            ≡ (if nat_eq change.resource (j + 1)
            && nat_le change.period (slice_index self.new.chain.periods i) then change.capacity
            else left_at self.old.free.rows i j) }
        ensures chain { self.new.chain ≡ self.old.chain }
        ensures width { self.new.free.width ≡ self.old.free.width }
    {
        for node in 0..self.chain.len() {
            if change.period <= self.chain.period(node) {
                self.free
                    .write(node, change.resource - 1, change.capacity as u16);
            }
        }
    }
}

// Makes a node at each change of a capacity.
fn mark_changes(chain: &mut Chain, instance: &Instance)
    requires limits { IsWithinLimits instance.now }
    requires room { length chain.old.periods + length instance.now.changes ≤ chain.old.room }
    ensures room { chain.new.room ≡ chain.old.room }
    ensures few { length chain.new.periods
        ≤ length chain.old.periods + length instance.now.changes }
    ensures changes { HasChanges instance.now chain.new.periods (length chain.new.periods) }
{
    let mut node = chain.len() - 1;
    for index in 0..instance.change_count() {
        node = chain.node_made(node, instance.change(index).period);
    }
}
