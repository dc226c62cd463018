// Every call that takes no memory, on what was made once.
ghost use Rattle.std.specs.Prelude.{◌≡◌, [], length, vec_len};
ghost use Rattle.rc_instance.specs.Misfit.{HasNoMisfit};
ghost use Rattle.rc_instance.specs.Project.{activity_count};

use activity_net::{FeasibleList, Net};
use event_line::Line;
use priority_rules::{Chooser, list_by_number};
use rc_instance::Schedule;
use rc_instance::limits::MAX_HORIZON;
use serial_plain::serial_on;
use std::alloc::Global;

/// So many rounds of a choice, of an activity that is placed, taken away and placed last, and of a
/// schedule on the line, all in memory that was taken before the first.
pub(crate) fn every_call(alloc: Global, net: &Net, rounds: u32) -> Option<u64> {
    let instance = net.instance();
    if let Err(_) = instance.fits_all() {
        return None;
    }
    let Ok(mut list) = list_by_number(alloc, net) else {
        return None;
    };
    let Ok(mut chooser) = Chooser::new(alloc, net) else {
        return None;
    };
    let Ok(mut line) = Line::new(alloc, instance) else {
        return None;
    };
    let Ok(mut schedule) = Schedule::zero(alloc, instance.count()) else {
        return None;
    };
    let Ok(keys) = vec![in alloc; 0; instance.count() as usize] else {
        return None;
    };
    for _ in 0..rounds {
        choose_and_schedule(&mut chooser, &keys, &mut list, &mut line, &mut schedule);
    }
    Some(u64::from(rounds))
}

// One round.
fn choose_and_schedule(
    chooser: &mut Chooser,
    keys: &[u32],
    list: &mut FeasibleList<'_>,
    line: &mut Line<'_>,
    schedule: &mut Schedule,
)
    requires fits { HasNoMisfit list.old.network.project }
    requires room { chooser.old ≡ activity_count list.old.network.project }
    requires keys { length keys.now ≡ activity_count list.old.network.project }
    requires line { line.old.project ≡ list.old.network.project }
    requires schedule { length schedule.old ≡ activity_count list.old.network.project }
    ensures chooser { chooser.new ≡ chooser.old }
    ensures list { list.new.network ≡ list.old.network }
    ensures line { line.new.project ≡ line.old.project }
    ensures schedule { length schedule.new ≡ length schedule.old }
{
    chooser.choose(keys, list);
    place_and_undo(line);
    serial_on(list, line, schedule);
}

// Places the first activity alone, takes it away, and places it last by its finish.
fn place_and_undo(line: &mut Line<'_>)
    requires { HasNoMisfit line.old.project }
    ensures { line.new ≡ record line.old { bookings = [] } }
{
    line.clear();
    let instance = line.instance();
    if instance.count() == 0 {
        return;
    }
    let start = line.place(1, 0);
    line.undo();
    let end = start.saturating_add(instance.duration(1));
    if end <= MAX_HORIZON {
        line.place_last(1, end);
    }
    line.clear();
}
