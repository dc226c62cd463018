ghost use Rattle.std.specs.Prelude.{◌≡◌, length, IfOk, IfNone, IfSome};
ghost use Rattle.rc_instance.specs.Project.{activity_count};
ghost use Rattle.priority_rules.specs.Picking.{HasRoom, HasPicked, IsPick};

use crate::choosing::{count_predecessors, take_next};
use activity_net::Net;
use rc_instance::Memory;
use std::alloc::Global;
use std::marker::Model;

/// Picks the activities of the list by keys one after another, without taking memory.
///
/// Contracts see its tables, and how many it has picked.
#[derive(Debug, Drop)]
pub struct Picker {
    waiting: Vec<u32>,
    // The activities that may be picked next are the front part, the next one at its end.
    pile: Vec<u32>,
    free: usize,
    picked: u32,
}

impl Model for Picker {
    ghost use Rattle.priority_rules.specs.Picking.{Picking};

    ghost Value = { Picking };

    ghost view = { λ picker. record {
      waiting = picker.waiting.items;
      pile = picker.pile.items;
      free = picker.free;
      picked = picker.picked;
    } };
}

impl Picker {
    /// Room for the lists of this net.
    pub fn new(alloc: Global, net: &Net) -> Result<Picker, Memory>
        ensures { IfOk result (HasRoom net.now.project) }
    {
        let count = net.instance().count() as usize;
        let waiting = vec![in alloc; 0; count]?;
        let pile = vec![in alloc; 0; count]?;
        Ok(Picker {
            waiting,
            pile,
            free: 0,
            picked: 0,
        })
    }

    /// Begins the list of these keys, whatever was picked: nothing is picked.
    pub fn begin(&mut self, net: &Net, keys: &[u32])
        requires keys { length keys.now ≡ activity_count net.now.project }
        requires room { HasRoom net.now.project self.old }
        ensures picked { HasPicked net.now.project keys.now self.new }
        ensures none { self.new.picked ≡ 0 }
    {
        self.free = count_predecessors(net, keys, &mut self.waiting, &mut self.pile);
        self.picked = 0;
    }

    /// The next activity of the list, or None exactly where all are picked.
    #[inline(always)]
    pub fn pick(&mut self, net: &Net, keys: &[u32]) -> Option<u32>
        requires keys { length keys.now ≡ activity_count net.now.project }
        requires picked { HasPicked net.now.project keys.now self.old }
        ensures picked { HasPicked net.now.project keys.now self.new }
        ensures some { IfSome result (IsPick net.now.project keys.now self.old self.new) }
        ensures none { IfNone result (self.old.picked ≡ activity_count net.now.project) }
        ensures still { IfNone result (self.new ≡ self.old) }
    {
        if self.free == 0 {
            return None;
        }
        let next = self.pile[self.free - 1];
        self.free = take_next(
            net,
            keys,
            &mut self.waiting,
            &mut self.pile,
            self.free,
            next,
        );
        self.picked += 1;
        Some(next)
    }
}
