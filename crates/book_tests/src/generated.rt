ghost use Rattle.std.specs.Prelude.{◌≡◌, length};

use crate::fixtures::{by_number, net_of};
use crate::outcome::outcome_of;
use rc_instance::Schedule;
use serial_plain::serial;
use std::alloc::{AllocError, Global};
use std::test::*;
use trial_instance::trial_instance;

// The starts of a schedule of so many activities, in order of number.
fn starts_in(alloc: Global, schedule: &Schedule, count: u32) -> Result<Vec<u32>, AllocError>
    requires { length schedule.now ≡ count }
{
    let mut starts = Vec::new(alloc);
    for index in 0..count {
        starts.push(schedule.start(index + 1))?;
    }
    Ok(starts)
}

#[test]
fn any_order_of_callers_books_the_serial_schedule(rt: HostRuntime) -> Result<(), Fail> {
    let alloc = rt.alloc();
    let net = net_of(alloc, trial_instance(alloc, 42, 120, 16)?)?;
    let list = by_number(alloc, &net)?;
    let schedule = serial(alloc, &list)?;
    assert_eq!(rt; schedule.count(), 120);
    let wanted = starts_in(alloc, &schedule, 120)?;
    for seed in [1, 2, 3] {
        let outcome = outcome_of(&rt, alloc, &list, 3, Some(seed))?;
        assert_eq!(rt; outcome.starts.as_slice(), wanted.as_slice(), "{seed}");
        assert!(rt; outcome.booked.iter().all(|count| *count > 0), "{seed}");
    }
    Ok(())
}
