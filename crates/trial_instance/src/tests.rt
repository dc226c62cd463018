use super::*;
use std::test::*;

#[test]
fn a_number_gives_its_instance(rt: HostRuntime) -> Result<(), Fail> {
    let instance = trial_instance(rt.alloc(), 42, 3, 1)?;
    assert_eq!(rt; instance.count(), 3);
    assert_eq!(rt; instance.resources(), 1);
    assert_eq!(rt; instance.capacity(1), 17);
    for (activity, duration, demand) in [(1, 0, 0), (2, 8, 6), (3, 0, 0)] {
        assert_eq!(rt; instance.duration(activity), duration);
        assert_eq!(rt; instance.demand(activity, 1), demand);
    }
    assert_eq!(rt; instance.successors(1), [2].as_slice());
    assert_eq!(rt; instance.successors(2), [3].as_slice());
    let none: [u32; 0] = [];
    assert_eq!(rt; instance.successors(3), none.as_slice());
    Ok(())
}

#[test]
fn two_activities_are_a_line(rt: HostRuntime) -> Result<(), Fail> {
    let instance = trial_instance(rt.alloc(), 1, 2, 0)?;
    assert_eq!(rt; instance.count(), 2);
    assert_eq!(rt; instance.horizon(), 0);
    assert_eq!(rt; instance.successors(1), [2].as_slice());
    Ok(())
}
