ghost use Rattle.std.specs.Prelude.{◌≡◌, ℕ, ◌+◌, ◌-◌, ◌<◌, ◌≤◌, ◌++◌, List, length, take, slice_index, All};
ghost use Rattle.rc_instance.specs.Project.{activity_count};
ghost use Rattle.rc_instance.specs.Calendar.{AreSuccessors};
ghost use Rattle.rc_instance.specs.Order.{IsFeasibleList};
ghost use Rattle.activity_net.specs.Tables.{IsReleased};
ghost use Rattle.priority_rules.specs.KeyList.{key_list, key_in};
ghost use Rattle.priority_rules.specs.Choosing.{AreFree, IsPile};
ghost use Rattle.priority_rules.specs.Picking.{HasPicked, IsPick, picking};

use crate::pile::add;
use activity_net::Net;

// Fills the order with the list of least keys. The activities that may be listed next are the front
// part of the pile, the next one at its end.
pub(crate) fn choose_order(
    net: &Net,
    keys: &[u32],
    waiting: &mut [u32],
    pile: &mut [u32],
    order: &mut [u32],
)
    requires keys { length keys.now ≡ activity_count net.now.project }
    requires waiting { length waiting.old ≡ activity_count net.now.project }
    requires pile { length pile.old ≡ activity_count net.now.project }
    requires order { length order.old ≡ activity_count net.now.project }
    ensures list { order.new ≡ key_list net.now.project (key_in keys.now) }
    ensures feasible { IsFeasibleList net.now.project order.new }
{
    let mut free = count_predecessors(net, keys, waiting, pile);
    for listed in 0..net.order().len() {
        let next = pile[free - 1];
        order[listed] = next;
        free = take_next(net, keys, waiting, pile, free, next);
    }
}

// Counts the direct predecessors of each activity, and piles up those without any: how many these
// are. Nothing is picked.
pub(crate) fn count_predecessors(
    net: &Net,
    keys: &[u32],
    waiting: &mut [u32],
    pile: &mut [u32],
) -> usize
    requires keys { length keys.now ≡ activity_count net.now.project }
    requires waiting { length waiting.old ≡ activity_count net.now.project }
    requires pile { length pile.old ≡ activity_count net.now.project }
    ensures { HasPicked net.now.project keys.now (picking waiting.new pile.new result 0) }
{
    let mut free = 0;
    for activity in 1..net.order().len() as u32 + 1 {
        let count = net.predecessor_count(activity);
        waiting[activity as usize - 1] = count;
        if count == 0 {
            add(keys, pile, free, activity);
            free += 1;
        }
    }
    free
}

// Takes the next activity off the pile, at whose end it is, and releases its successors: how much of
// the pile is free then. Always inlined: it is called for each activity of a list.
#[inline(always)]
pub(crate) fn take_next(
    net: &Net,
    keys: &[u32],
    waiting: &mut [u32],
    pile: &mut [u32],
    free: usize,
    next: u32,
) -> usize
    requires keys { length keys.now ≡ activity_count net.now.project }
    requires some { 0 < free }
    requires next { next ≡ slice_index pile.old (free - 1) }
    requires picked { (picked : ℕ)
        × HasPicked net.now.project keys.now (picking waiting.old pile.old free picked) }
    ensures picked { (picked : ℕ)
        → HasPicked net.now.project keys.now (picking waiting.old pile.old free picked)
        → HasPicked net.now.project keys.now (picking waiting.new pile.new result (picked + 1)) }
    ensures next { (picked : ℕ)
        → HasPicked net.now.project keys.now (picking waiting.old pile.old free picked)
        → IsPick net.now.project keys.now (picking waiting.old pile.old free picked)
        (picking waiting.new pile.new result (picked + 1)) next }
{
    let successors = net.instance().successors(next);
    release(successors, keys, waiting, pile, free - 1)
}

// Each successor waits for one activity less; those that wait for none now join the pile. With those
// that are listed, the pile stays all that wait for none. Always inlined, as the step that calls it.
#[inline(always)]
fn release(
    successors: &[u32],
    keys: &[u32],
    waiting: &mut [u32],
    pile: &mut [u32],
    mut free: usize,
) -> usize
    requires successors { AreSuccessors (length waiting.old) successors.now }
    requires wait { All (λ b. 0 < slice_index waiting.old (b - 1)) successors.now }
    requires keys { length keys.now ≡ length waiting.old }
    requires pile { length pile.old ≡ length waiting.old }
    requires within { free ≤ length pile.old }
    requires free { (listed : List ℕ)
        × AreFree (length waiting.old) waiting.old (listed ++ take free pile.old) }
    requires falling { IsPile keys.now pile.old free }
    ensures waiting { IsReleased successors.now waiting.old waiting.new }
    ensures within { result ≤ length pile.new }
    ensures free { (listed : List ℕ)
        → AreFree (length waiting.old) waiting.old (listed ++ take free pile.old)
        → AreFree (length waiting.new) waiting.new (listed ++ take result pile.new) }
    ensures falling { IsPile keys.now pile.new result }
{
    for b in successors {
        let place = *b as usize - 1;
        waiting[place] -= 1;
        if waiting[place] == 0 {
            add(keys, pile, free, *b);
            free += 1;
        }
    }
    free
}
