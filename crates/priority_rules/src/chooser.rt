ghost use Rattle.std.specs.Prelude.{◌≡◌, ℕ, length, IfOk};
ghost use Rattle.rc_instance.specs.Project.{activity_count};
ghost use Rattle.activity_net.specs.Network.{Network, Listing};
ghost use Rattle.priority_rules.specs.KeyList.{key_list, key_in};

use crate::choosing::choose_order;
use activity_net::{FeasibleList, Net};
use rc_instance::Memory;
use std::alloc::Global;
use std::marker::Model;

/// Room to make lists by keys again and again. Contracts see it as the number of activities.
#[derive(Debug, Drop)]
pub struct Chooser {
    waiting: Vec<u32>,
    pile: Vec<u32>,
    order: Vec<u32>,
}

impl Model for Chooser {
    ghost Value = { ℕ };

    ghost view = { λ chooser. length chooser.waiting.items };

    ghost invariant = { λ chooser. (length chooser.pile.items ≡ length chooser.waiting.items)
        × (length chooser.order.items ≡ length chooser.waiting.items) };
}

impl Chooser {
    /// Room for the lists of this net.
    pub fn new(alloc: Global, net: &Net) -> Result<Chooser, Memory>
        ensures { IfOk result (λ chooser. chooser ≡ activity_count net.now.project) }
    {
        let count = net.instance().count() as usize;
        let waiting = vec![in alloc; 0; count]?;
        let pile = vec![in alloc; 0; count]?;
        let order = vec![in alloc; 0; count]?;
        Ok(Chooser {
            waiting,
            pile,
            order,
        })
    }

    /// Makes the list that of `list_by_keys`, whatever it was. It takes no memory.
    pub fn choose(&mut self, keys: &[u32], list: &mut FeasibleList)
        requires keys { length keys.now ≡ activity_count list.old.network.project }
        requires room { self.old ≡ activity_count list.old.network.project }
        ensures room { self.new ≡ self.old }
        ensures list { list.new ≡ record list.old {
          order = key_list list.old.network.project (key_in keys.now);
        } }
    {
        choose_order(
            list.net(),
            keys,
            &mut self.waiting,
            &mut self.pile,
            &mut self.order,
        );
        list.set_order(&self.order);
    }
}
