ghost use Rattle.std.specs.Prelude.{◌≡◌, ℕ, ◌+◌, ◌-◌, ◌<◌, ◌≤◌, List, length, replicate, slice_set, IfOk};
ghost use Rattle.rc_instance.specs.Project.{activity_count};
ghost use Rattle.rc_instance.specs.Schedule.{start_at, makespan};

use crate::instance::Instance;
use crate::memory::Memory;
use std::alloc::Global;
use std::marker::Model;

/// A start for each activity of an instance, in order of number. Contracts see it as the list of starts.
#[derive(Debug, Drop)]
pub struct Schedule {
    starts: Vec<u32>,
}

impl Model for Schedule {
    ghost Value = { List ℕ };

    ghost view = { λ schedule. schedule.starts.items };
}

impl Schedule {
    /// A schedule in which each of so many activities starts at 0.
    pub fn zero(alloc: Global, count: u32) -> Result<Schedule, Memory>
        ensures { IfOk result (λ schedule. schedule ≡ replicate count 0) }
    {
        Ok(Schedule {
            starts: vec![in alloc; 0; count as usize]?,
        })
    }

    /// How many activities it has.
    pub fn count(&self) -> usize
        ensures { result ≡ length self.now }
    {
        self.starts.len()
    }

    /// The start of an activity, in periods.
    #[tactic(auto, unfolding(crate::specs::Schedule::start_at))]
    pub fn start(&self, activity: u32) -> u32
        requires { (1 ≤ activity) × (activity ≤ length self.now) }
        ensures { result ≡ start_at self.now activity }
    {
        self.starts[activity as usize - 1]
    }

    /// Gives an activity another start, and leaves all others.
    pub fn set(&mut self, activity: u32, start: u32)
        requires { (1 ≤ activity) × (activity ≤ length self.old) }
        ensures { self.new ≡ slice_set self.old (activity - 1) start }
    {
        self.starts[activity as usize - 1] = start;
    }

    /// The greatest finish, in periods. It takes no memory.
    pub fn makespan(&self, instance: &Instance) -> u64
        requires { length self.now ≡ activity_count instance.now }
        ensures { result ≡ makespan instance.now self.now }
    {
        let mut makespan: u64 = 0;
        for activity in 1..instance.count() + 1 {
            let finish = u64::from(self.start(activity)) + u64::from(instance.duration(activity));
            makespan = makespan.max(finish);
        }
        makespan
    }
}
