ghost use Rattle.std.specs.Prelude.{◌≡◌, ◌≤◌, length, IfOk};
ghost use Rattle.rc_instance.specs.declared.limits.TheConstants.{MAX_HORIZON};
ghost use Rattle.rc_instance.specs.Project.{activity_count};
ghost use Rattle.rc_instance.specs.Misfit.{HasNoMisfit};
ghost use Rattle.rc_instance.specs.Schedule.{IsFeasible, makespan};
ghost use Rattle.fwd_back.specs.Improved.{forward};
ghost use Rattle.fwd_back.specs.Passes.{IsReady};

use crate::backward::move_back;
use activity_net::{FeasibleList, Net};
use event_line::Line;
use priority_rules::Chooser;
use rc_instance::{Memory, Schedule};
use serial_plain::serial_on;
use std::alloc::Global;

/// Room for backward and forward passes over schedules of one net.
#[derive(Drop)]
pub(crate) struct Passes<'n> {
    line: Line<'n>,
    chooser: Chooser,
    list: FeasibleList<'n>,
    marks: Vec<bool>,
    starts: Vec<u32>,
}

impl<'n> Passes<'n> {
    /// Room for the passes over the schedules of this net. All memory that they need is taken here.
    pub(crate) fn new(alloc: Global, net: &'n Net) -> Result<Passes<'n>, Memory>
        ensures ready { IfOk result IsReady }
        ensures network { IfOk result (λ passes. passes.list.network ≡ net.now) }
    {
        let count = net.instance().count() as usize;
        let order = Vec::from_slice(alloc, net.order())?;
        Ok(Passes {
            line: Line::new(alloc, net.instance())?,
            chooser: Chooser::new(alloc, net)?,
            list: FeasibleList::from_feasible(net, order),
            marks: vec![in alloc; false; count]?,
            starts: vec![in alloc; 0; count]?,
        })
    }

    /// One backward and one forward pass: the next schedule is the serial schedule of the list by the
    /// backward starts of the present one. It takes no memory.
    pub(crate) fn run(&mut self, present: &Schedule, next: &mut Schedule)
        requires ready { IsReady self.old }
        requires fits { HasNoMisfit self.old.list.network.project }
        requires feasible { IsFeasible self.old.list.network.project present.now }
        requires within { makespan self.old.list.network.project present.now ≤ MAX_HORIZON }
        requires count { length next.old ≡ activity_count self.old.list.network.project }
        ensures ready { IsReady self.new }
        ensures network { self.new.list.network ≡ self.old.list.network }
        ensures forward { next.new ≡ forward self.old.list.network.project present.now }
        ensures feasible { IsFeasible self.old.list.network.project next.new }
    {
        move_back(
            &self.list,
            present,
            &mut self.line,
            &mut self.marks,
            &mut self.starts,
        );
        self.chooser.choose(&self.starts, &mut self.list);
        self.line.clear();
        serial_on(&self.list, &mut self.line, next);
    }
}
