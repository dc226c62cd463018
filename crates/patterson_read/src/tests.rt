use super::{read_calendar, read_list, read_rcp, write_rcp};
use rc_edge::{TextFault, TextKind};
use rc_instance::limits::{MAX_FILE_BYTES, MAX_RESOURCES};
use rc_instance::{Change, Instance, InstanceFault};
use std::alloc::Global;
use std::test::*;

const SIX: &[u8] = b"6 1\n2\n0 0 3 2 3 4\n3 2 1 5\n2 1 1 6\n2 1 1 6\n1 1 1 6\n0 0 0\n";

fn read(alloc: Global, text: &[u8]) -> Option<Result<Instance, TextFault>> {
    if text.len() > MAX_FILE_BYTES as usize {
        return None;
    }
    Some(read_rcp(alloc, text))
}

fn instance_of(alloc: Global, text: &[u8]) -> Option<Instance> {
    read(alloc, text)?.ok()
}

fn fault_of(alloc: Global, text: &[u8]) -> Option<TextFault> {
    read(alloc, text)?.err()
}

#[test]
fn six_activities_are_read(rt: HostRuntime) -> Result<(), Fail> {
    let instance = instance_of(rt.alloc(), SIX).ok_or("the text is an instance")?;
    assert_eq!(rt; instance.count(), 6);
    assert_eq!(rt; instance.resources(), 1);
    assert_eq!(rt; instance.horizon(), 8);
    assert_eq!(rt; instance.capacity(1), 2);
    for (activity, duration, demand, successors) in [
        (1, 0, 0, &[2, 3, 4][..]),
        (2, 3, 2, &[5]),
        (3, 2, 1, &[6]),
        (4, 2, 1, &[6]),
        (5, 1, 1, &[6]),
        (6, 0, 0, &[]),
    ] {
        assert_eq!(rt; instance.duration(activity), duration);
        assert_eq!(rt; instance.demand(activity, 1), demand);
        assert_eq!(rt; instance.successors(activity), successors);
    }
    Ok(())
}

#[test]
fn texts_are_accepted(rt: HostRuntime) {
    for text in [
        &b"1 0 5 0"[..],
        b"1 0\n65535 0",
        b"\t1\r\n0\x0c0\x1a0",
        b"2 1 65535 0 4294967295 2 2 2 0 0 0",
    ] {
        assert!(rt; instance_of(rt.alloc(), text).is_some());
    }
}

#[test]
fn the_first_fault_is_shown(rt: HostRuntime) {
    let at = |kind, at| Some(TextFault { kind, at });
    let limit = |fault, offset| at(TextKind::Instance(fault), offset);
    let wild = |activity, successor| InstanceFault::SuccessorOutOfRange {
        activity,
        successor,
    };
    for (text, fault) in [
        (&b""[..], at(TextKind::Ended, 0)),
        (b"1 x", at(TextKind::NotANumber, 2)),
        (b"4294967296", at(TextKind::NumberTooLarge, 0)),
        (b"0 0", limit(InstanceFault::NoActivity, 0)),
        (
            b"1001",
            limit(InstanceFault::TooManyActivities { count: 1001 }, 0),
        ),
        (
            b"1 17",
            limit(InstanceFault::TooManyResources { count: 17 }, 2),
        ),
        (
            b"1 2 0 65536",
            limit(
                InstanceFault::CapacityTooLarge {
                    resource: 2,
                    capacity: 65_536,
                },
                6,
            ),
        ),
        (
            b"1 0\n65536 0",
            limit(InstanceFault::TooLong { sum: 65_536 }, 4),
        ),
        (
            b"2 0 1 1 2 65535",
            limit(InstanceFault::TooLong { sum: 65_536 }, 10),
        ),
        (b"2 0 1 1 3 0 0", limit(wild(1, 3), 8)),
        (b"2 0 1 1 0 0 0", limit(wild(1, 0), 8)),
        (b"1 0 5 0 7", at(TextKind::Trailing, 8)),
        (b"1 0 5 4294967295 ", at(TextKind::Ended, 17)),
    ] {
        assert_eq!(rt; fault_of(rt.alloc(), text), fault);
    }
}

#[test]
fn white_space_alone_ends(rt: HostRuntime) -> Result<(), Fail> {
    let text = vec![in rt.alloc(); b' '; MAX_FILE_BYTES as usize]?;
    let ended = TextFault {
        kind: TextKind::Ended,
        at: MAX_FILE_BYTES,
    };
    assert_eq!(rt; fault_of(rt.alloc(), &text), Some(ended));
    Ok(())
}

#[test]
fn a_number_more_is_trailing(rt: HostRuntime) -> Result<(), Fail> {
    let mut text = Vec::from_slice(rt.alloc(), SIX)?;
    text.push(b'7')?;
    let trailing = TextFault {
        kind: TextKind::Trailing,
        at: 56,
    };
    assert_eq!(rt; fault_of(rt.alloc(), &text), Some(trailing));
    Ok(())
}

fn list_of(alloc: Global, text: &[u8]) -> Option<Result<Vec<u32>, TextFault>> {
    if text.len() > MAX_FILE_BYTES as usize {
        return None;
    }
    Some(read_list(alloc, text))
}

#[test]
fn lists_are_read(rt: HostRuntime) -> Result<(), Fail> {
    for (text, numbers) in [
        (&b"1 3 2 4 5 6\n"[..], &[1, 3, 2, 4, 5, 6][..]),
        (b"", &[]),
        (b"\r\n", &[]),
    ] {
        let list = list_of(rt.alloc(), text).ok_or("the text is short")?;
        let list = list.ok().ok_or("the text is a list")?;
        assert_eq!(rt; &list[..], numbers);
    }
    Ok(())
}

#[test]
fn the_first_fault_of_a_list_is_shown(rt: HostRuntime) -> Result<(), Fail> {
    for (text, kind, at) in [
        (&b"1 x 2"[..], TextKind::NotANumber, 2),
        (b"4294967296", TextKind::NumberTooLarge, 0),
    ] {
        let list = list_of(rt.alloc(), text).ok_or("the text is short")?;
        assert_eq!(rt; list.err(), Some(TextFault { kind, at }));
    }
    Ok(())
}

fn calendar_of(
    alloc: Global,
    text: &[u8],
    resources: u32,
) -> Option<Result<Vec<Change>, TextFault>> {
    if text.len() > MAX_FILE_BYTES as usize || resources > MAX_RESOURCES {
        return None;
    }
    Some(read_calendar(alloc, text, resources))
}

#[test]
fn calendars_are_read(rt: HostRuntime) -> Result<(), Fail> {
    let change = |resource, period, capacity| Change {
        resource,
        period,
        capacity,
    };
    for (text, resources, changes) in [
        (&b"0"[..], 0, &[][..]),
        (b"2 1 1 0 1 3 2", 1, &[change(1, 1, 0), change(1, 3, 2)]),
        (b"2\n1 5 0\n2 1 0\n", 2, &[change(1, 5, 0), change(2, 1, 0)]),
        (b"1 16 65535 65535", 16, &[change(16, 65_535, 65_535)]),
    ] {
        let read = calendar_of(rt.alloc(), text, resources).ok_or("the text is short")?;
        let read = read.ok().ok_or("the text is a calendar")?;
        assert_eq!(rt; &read[..], changes);
    }
    Ok(())
}

#[test]
fn the_first_fault_of_a_calendar_is_shown(rt: HostRuntime) -> Result<(), Fail> {
    let large = TextKind::Instance(InstanceFault::CapacityTooLarge {
        resource: 1,
        capacity: 65_536,
    });
    for (text, kind, at) in [
        (&b""[..], TextKind::Ended, 0),
        (b"1 1 4", TextKind::Ended, 5),
        (b"x", TextKind::NotANumber, 0),
        (b"1 1 4 4294967296", TextKind::NumberTooLarge, 6),
        (b"1001", TextKind::TooManyChanges, 0),
        (b"0 7", TextKind::Trailing, 2),
        (b"1 2 1 0", TextKind::ResourceOutOfRange, 2),
        (b"1 0 1 0", TextKind::ResourceOutOfRange, 2),
        (b"1 1 0 5", TextKind::PeriodOutOfRange, 4),
        (b"1 1 65536 5", TextKind::PeriodOutOfRange, 4),
        (b"2 1 3 0 1 3 2", TextKind::NotRising, 10),
        (b"2 1 3 0 1 0 2", TextKind::PeriodOutOfRange, 10),
        (b"1 1 1 65536", large, 6),
    ] {
        let read = calendar_of(rt.alloc(), text, 1).ok_or("the text is short")?;
        assert_eq!(rt; read.err(), Some(TextFault { kind, at }));
    }
    let falling = calendar_of(rt.alloc(), b"2 2 1 0 1 5 0", 2).ok_or("the text is short")?;
    let at = TextFault {
        kind: TextKind::NotRising,
        at: 10,
    };
    assert_eq!(rt; falling.err(), Some(at));
    Ok(())
}

#[test]
fn instances_are_written(rt: HostRuntime) -> Result<(), Fail> {
    for (text, written) in [
        (SIX, SIX),
        (b"1 0 5 0", b"1 0\n\n5 0\n"),
        (
            b"2 2 1 0 007 4294967295 1 4 2 1 2 1 0 0 0 0",
            b"2 2\n1 0\n7 4294967295 1 2 1 2\n0 0 0 0\n",
        ),
    ] {
        let instance = instance_of(rt.alloc(), text).ok_or("the text is an instance")?;
        let again = write_rcp(rt.alloc(), &instance)
            .ok()
            .ok_or("there is memory")?;
        assert_eq!(rt; &again[..], written);
    }
    Ok(())
}
