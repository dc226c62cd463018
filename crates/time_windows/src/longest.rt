ghost use Rattle.std.specs.Prelude.{◌≡◌, ℕ, ◌+◌, ◌-◌, ◌<◌, ◌≤◌, length, map, slice_index, All};
ghost use Rattle.rc_instance.specs.declared.limits.TheConstants.{MAX_DURATION_SUM};
ghost use Rattle.rc_instance.specs.Lists.{greatest, numbers};
ghost use Rattle.rc_instance.specs.Project.{activity_count, duration, successors_of, IsActivity};
ghost use Rattle.activity_net.specs.Network.{predecessors_of};
ghost use Rattle.time_windows.specs.Windows.{earliest_of, tail_of};

use activity_net::Net;

// The earliest start of each activity, by number: one pass over the order of the net.
pub(crate) fn fill_earliest(net: &Net, starts: &mut [u32])
    requires count { length starts.old ≡ activity_count net.now.project }
    requires small { All (λ t. t ≤ MAX_DURATION_SUM) starts.old }
    ensures { starts.new
        ≡ map (earliest_of net.now.project) (numbers (activity_count net.now.project)) }
{
    for activity in net.order() {
        starts[*activity as usize - 1] = latest_finish(net, starts, *activity);
    }
}

// The tail of each activity, by number: one pass over the order of the net, from its end.
pub(crate) fn fill_tails(net: &Net, tails: &mut [u32])
    requires count { length tails.old ≡ activity_count net.now.project }
    requires small { All (λ t. t ≤ MAX_DURATION_SUM) tails.old }
    ensures { tails.new
        ≡ map (tail_of net.now.project) (numbers (activity_count net.now.project)) }
{
    let order = net.order();
    for place in (0..order.len()).rev() {
        let activity = order[place];
        let duration = net.instance().duration(activity);
        tails[activity as usize - 1] = duration + longest_tail(net, tails, activity);
    }
}

// The latest finish of the direct predecessors of an activity, if they have these starts.
fn latest_finish(net: &Net, starts: &[u32], activity: u32) -> u32
    requires activity { IsActivity net.now.project activity }
    requires count { length starts.now ≡ activity_count net.now.project }
    requires small { All (λ t. t ≤ MAX_DURATION_SUM) starts.now }
    ensures { result
        ≡ greatest (map (λ p. slice_index starts.now (p - 1) + duration net.now.project p)
        (predecessors_of net.now.project activity)) }
{
    let mut latest: u32 = 0;
    for before in net.predecessors(activity) {
        let finish = starts[*before as usize - 1] + net.instance().duration(*before);
        latest = latest.max(finish);
    }
    latest
}

// The longest of the tails of the direct successors of an activity, if they have these tails.
fn longest_tail(net: &Net, tails: &[u32], activity: u32) -> u32
    requires activity { IsActivity net.now.project activity }
    requires count { length tails.now ≡ activity_count net.now.project }
    requires small { All (λ t. t ≤ MAX_DURATION_SUM) tails.now }
    ensures value { result ≡ greatest (map (λ b. slice_index tails.now (b - 1))
        (successors_of net.now.project activity)) }
    ensures within { result ≤ MAX_DURATION_SUM }
{
    let mut longest: u32 = 0;
    for after in net.instance().successors(activity) {
        longest = longest.max(tails[*after as usize - 1]);
    }
    longest
}
