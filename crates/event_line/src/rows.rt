ghost use Rattle.std.specs.Prelude.{◌≡◌, ◌≢◌, ℕ, ◌+◌, ◌^◌, ◌<◌, ◌≤◌, ◌↔◌, length, slice_index, IsTrue, IfOk};
ghost use Rattle.event_line.specs.declared.lanes.TheConstants.{LANES};
ghost use Rattle.rc_instance.specs.Project.{resource_count, capacity};
ghost use Rattle.event_line.specs.Rows.{HasRoom, IsTakenAt, row_at, left_at};

use crate::demands::Demands;
use crate::lanes::{LANES, covers, less, more, with_lane};
use rc_instance::{Instance, Memory};
use std::alloc::Global;
use std::marker::Model;
use std::simd::prelude::*;

/// What is left of each resource at each node: a row for each node. Contracts see the rows, each with
/// as many numbers as there are resources.
///
/// A row is one vector, so that a test of room and a booking cost the same for one resource and for
/// all that an instance may have.
#[derive(Drop)]
pub(crate) struct Rows {
    vectors: Vec<u16x16>,
    width: usize,
}

impl Model for Rows {
    ghost use Rattle.rc_instance.specs.Project.{resource_count, capacity};
    ghost use Rattle.event_line.specs.Rows.{Table};

    ghost Value = { Table };

    ghost use Rattle.event_line.specs.RowsView.{table_of, KeepsRows};

    ghost view = { table_of };

    ghost invariant = { KeepsRows };
}

impl Rows {
    /// So many rows, each for so many resources.
    pub(crate) fn new(alloc: Global, count: u32, width: u32) -> Result<Rows, Memory>
        requires { width ≤ LANES }
        ensures width { IfOk result (λ rows. rows.width ≡ width) }
        ensures count { IfOk result (λ rows. length rows.rows ≡ count) }
    {
        Ok(Rows {
            vectors: vec![in alloc; u16x16::splat(0); count as usize]?,
            width: width as usize,
        })
    }

    /// Whether the row of a node has room for the demands.
    pub(crate) fn has_room(&self, node: u32, demands: &Demands) -> bool
        requires node { node < length self.now.rows }
        requires width { length demands.now ≡ self.now.width }
        ensures { IsTrue result ↔ HasRoom self.now.rows demands.now node }
    {
        covers(self.vectors[node as usize], demands.vector)
    }

    /// Takes the demands from the row of a node that has room for them.
    pub(crate) fn take(&mut self, node: u32, demands: &Demands)
        requires node { node < length self.old.rows }
        requires width { length demands.now ≡ self.old.width }
        requires room { HasRoom self.old.rows demands.now node }
        ensures taken { IsTakenAt self.old.rows self.new.rows demands.now node }
        ensures width { self.new.width ≡ self.old.width }
        ensures count { length self.new.rows ≡ length self.old.rows }
    {
        let left = less(self.vectors[node as usize], demands.vector);
        self.vectors[node as usize] = left;
    }

    /// Gives the demands back to the row of a node.
    pub(crate) fn give(&mut self, node: u32, demands: &Demands)
        requires node { node < length self.old.rows }
        requires width { length demands.now ≡ self.old.width }
        requires fits { (j : ℕ) → j < length demands.now
            → left_at self.old.rows node j + slice_index demands.now j < 2 ^ 16 }
        ensures given { IsTakenAt self.new.rows self.old.rows demands.now node }
        ensures width { self.new.width ≡ self.old.width }
        ensures count { length self.new.rows ≡ length self.old.rows }
    {
        let left = more(self.vectors[node as usize], demands.vector);
        self.vectors[node as usize] = left;
    }

    /// Copies the row of a node over that of another one.
    pub(crate) fn copy(&mut self, from: u32, to: u32)
        requires from { from < length self.old.rows }
        requires to { to < length self.old.rows }
        ensures row { row_at self.new.rows to ≡ row_at self.old.rows from }
        ensures others { (x : ℕ) → x ≢ to → row_at self.new.rows x ≡ row_at self.old.rows x }
        ensures width { self.new.width ≡ self.old.width }
        ensures count { length self.new.rows ≡ length self.old.rows }
    {
        let row = self.vectors[from as usize];
        self.vectors[to as usize] = row;
    }

    /// Writes what is left of a resource, counted from 0, into the row of a node.
    pub(crate) fn write(&mut self, node: u32, resource: u32, left: u16)
        requires node { node < length self.old.rows }
        requires resource { resource < self.old.width }
        ensures here { left_at self.new.rows node resource ≡ left }
        ensures beside { (j : ℕ) → j < self.new.width → j ≢ resource
            → left_at self.new.rows node j ≡ left_at self.old.rows node j }
        ensures others { (x : ℕ) → x ≢ node → row_at self.new.rows x ≡ row_at self.old.rows x }
        ensures width { self.new.width ≡ self.old.width }
        ensures count { length self.new.rows ≡ length self.old.rows }
    {
        let row = with_lane(self.vectors[node as usize], resource as usize, left);
        self.vectors[node as usize] = row;
    }

    /// Writes the capacities before any change into the row of a node.
    pub(crate) fn fill(&mut self, node: u32, instance: &Instance)
        requires node { node < length self.old.rows }
        requires width { self.old.width ≡ resource_count instance.now }
        ensures row { (j : ℕ) → j < resource_count instance.now
            → left_at self.new.rows node j ≡ capacity instance.now (j + 1) }
        ensures others { (x : ℕ) → x ≢ node → row_at self.new.rows x ≡ row_at self.old.rows x }
        ensures width { self.new.width ≡ self.old.width }
        ensures count { length self.new.rows ≡ length self.old.rows }
    {
        for resource in 0..instance.resources() {
            self.write(node, resource, instance.capacity(resource + 1) as u16);
        }
    }

    /// Makes so many of the first rows those of others.
    pub(crate) fn restore(&mut self, other: &Rows, count: usize)
        requires count { count ≤ length other.now.rows }
        requires room { length other.now.rows ≤ length self.old.rows }
        requires width { other.now.width ≡ self.old.width }
        ensures rows { (i : ℕ) → i < count
            → row_at self.new.rows i ≡ row_at other.now.rows i }
        ensures rest { (i : ℕ) → count ≤ i → row_at self.new.rows i ≡ row_at self.old.rows i }
        ensures width { self.new.width ≡ self.old.width }
        ensures count { length self.new.rows ≡ length self.old.rows }
    {
        copy_front(&mut self.vectors, &other.vectors, count);
    }
}

// Copies so many vectors over the front of others.
fn copy_front(to: &mut [u16x16], from: &[u16x16], count: usize)
    requires from { count ≤ length from.now }
    requires to { count ≤ length to.old }
    ensures front { (i : ℕ) → i < count → row_at to.new i ≡ row_at from.now i }
    ensures rest { (i : ℕ) → count ≤ i → row_at to.new i ≡ row_at to.old i }
{
    to[..count].copy_from_slice(&from[..count]);
}
