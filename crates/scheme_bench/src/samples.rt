use activity_net::Net;
use event_line::Line;
use key_sampling::{MAX_SAMPLES, MAX_SEEKERS, best_sample, draw_keys, sample_values};
use priority_rules::{Chooser, list_by_number};
use rc_instance::Schedule;
use serial_plain::serial_on;
use std::alloc::Global;
use std::thread::Threads;
use time_windows::Windows;

// The seed of all samples.
const SEED: u64 = 1;

/// Makes the lists of so many samples, and books nothing.
pub(crate) fn choose_lists(alloc: Global, net: &Net, rounds: u32) -> Option<u64> {
    let count = net.instance().count();
    let Ok(mut keys) = vec![in alloc; 0; count as usize] else {
        return None;
    };
    let Ok(mut chooser) = Chooser::new(alloc, net) else {
        return None;
    };
    let Ok(mut list) = list_by_number(alloc, net) else {
        return None;
    };
    for sample in 0..rounds {
        draw_keys(SEED, sample, &mut keys);
        chooser.choose(&keys, &mut list);
    }
    Some(u64::from(rounds))
}

/// The sum of the makespans of so many samples, by one thread and with all memory taken once.
pub(crate) fn sum_of_samples(alloc: Global, net: &Net, rounds: u32) -> Option<u64> {
    let instance = net.instance();
    if let Err(_) = instance.fits_all() {
        return None;
    }
    let Ok(mut keys) = vec![in alloc; 0; instance.count() as usize] else {
        return None;
    };
    let Ok(mut chooser) = Chooser::new(alloc, net) else {
        return None;
    };
    let Ok(mut list) = list_by_number(alloc, net) else {
        return None;
    };
    let Ok(mut line) = Line::new(alloc, instance) else {
        return None;
    };
    let Ok(mut schedule) = Schedule::zero(alloc, instance.count()) else {
        return None;
    };
    let mut sum: u64 = 0;
    for sample in 0..rounds {
        draw_keys(SEED, sample, &mut keys);
        chooser.choose(&keys, &mut list);
        line.clear();
        serial_on(&list, &mut line, &mut schedule);
        sum = sum.wrapping_add(schedule.makespan(instance));
    }
    Some(sum)
}

/// The same sum, by as many threads as there are processors.
pub(crate) fn sum_of_values(
    rt: &(impl Threads + Sync),
    alloc: Global,
    net: &Net,
    rounds: u32,
) -> Option<u64> {
    if rounds == 0 || rounds > MAX_SAMPLES {
        return None;
    }
    if let Err(_) = net.instance().fits_all() {
        return None;
    }
    let values = sample_values(rt, alloc, net, SEED, 0, rounds).ok()?;
    let mut sum: u64 = 0;
    for value in values.iter() {
        sum = sum.wrapping_add(u64::from(*value));
    }
    Some(sum)
}

/// The makespan of the best of so many samples, which so many workers find.
pub(crate) fn best_of_samples(
    rt: &(impl Threads + Sync),
    alloc: Global,
    net: &Net,
    rounds: u32,
    workers: u32,
) -> Option<u64> {
    if rounds == 0 || rounds > MAX_SAMPLES || workers == 0 || workers > MAX_SEEKERS {
        return None;
    }
    if let Err(_) = net.instance().fits_all() {
        return None;
    }
    let Ok(windows) = Windows::of(alloc, net) else {
        return None;
    };
    let best = best_sample(rt, alloc, net, &windows, SEED, 0, rounds, workers).ok()?;
    Some(u64::from(best.makespan))
}
