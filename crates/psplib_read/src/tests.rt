use super::{read_sm, write_sm};
use rc_edge::{Item, TextFault, TextKind};
use rc_instance::limits::MAX_FILE_BYTES;
use rc_instance::{Instance, InstanceFault};
use std::alloc::{AllocError, Global};
use std::test::*;

/// Six jobs and one resource, in the layout of the usual generator.
const SIX: &[u8] = b"************************************************************************
file with basedata            : e1.bas
initial value random generator: 1
************************************************************************
projects                      :  1
jobs (incl. supersource/sink ):  6
horizon                       :  8
RESOURCES
  - renewable                 :  1   R
  - nonrenewable              :  0   N
  - doubly constrained        :  0   D
************************************************************************
PROJECT INFORMATION:
pronr.  #jobs rel.date duedate tardcost  MPM-Time
    1      4      0        4        0        4
************************************************************************
PRECEDENCE RELATIONS:
jobnr.    #modes  #successors   successors
   1        1          3           2   3   4
   2        1          1           5
   3        1          1           6
   4        1          1           6
   5        1          1           6
   6        1          0
************************************************************************
REQUESTS/DURATIONS:
jobnr. mode duration  R 1
------------------------------------------------------------------------
  1      1     0       0
  2      1     3       2
  3      1     2       1
  4      1     2       1
  5      1     1       1
  6      1     0       0
************************************************************************
RESOURCEAVAILABILITIES:
  R 1
    2
************************************************************************
";

/// One job of duration 0, and no resource.
const ONE: &[u8] =
    b"jobs:1\n- renewable:0\nPRECEDENCE RELATIONS\n1 1 0\nREQUESTS/DURATIONS\n1 1 0\nRESOURCEAVAILABILITIES\n";

fn read(alloc: Global, text: &[u8]) -> Option<Result<Instance, TextFault>> {
    if text.len() > MAX_FILE_BYTES as usize {
        return None;
    }
    Some(read_sm(alloc, text))
}

fn fault_of(alloc: Global, text: &[u8]) -> Option<TextFault> {
    read(alloc, text)?.err()
}

fn is_six(alloc: Global, text: &[u8]) -> bool {
    let Some(Ok(instance)) = read(alloc, text) else {
        return false;
    };
    let rows = [
        (1, 0, 0, &[2, 3, 4][..]),
        (2, 3, 2, &[5]),
        (3, 2, 1, &[6]),
        (4, 2, 1, &[6]),
        (5, 1, 1, &[6]),
        (6, 0, 0, &[]),
    ];
    instance.count() == 6
        && instance.resources() == 1
        && instance.horizon() == 8
        && instance.capacity(1) == 2
        && rows.iter().all(|(job, duration, demand, successors)| {
            instance.duration(*job) == *duration
                && instance.demand(*job, 1) == *demand
                && instance.successors(*job) == *successors
        })
}

/// The text with each line end replaced by these bytes.
fn with_ends(alloc: Global, text: &[u8], end: &[u8]) -> Result<Vec<u8>, AllocError> {
    let mut out = Vec::new(alloc);
    for byte in text {
        if *byte == b'\n' {
            out.extend_from_slice(end)?;
        } else {
            out.push(*byte)?;
        }
    }
    Ok(out)
}

#[test]
fn six_jobs_are_read(rt: HostRuntime) -> Result<(), Fail> {
    assert!(rt; is_six(rt.alloc(), SIX));
    for end in [
        &b"\r\n"[..],
        b" \t\r\n",
        b"\n\n",
        b"\r\n \x0c\r\n",
        b"\n***\n",
        b"\n - --\t\n* *\r\n",
        b"\n\x1a",
    ] {
        let text = with_ends(rt.alloc(), SIX, end)?;
        assert!(rt; is_six(rt.alloc(), &text));
    }
    Ok(())
}

#[test]
fn other_lines_of_the_preamble_are_passed_over(rt: HostRuntime) -> Result<(), Fail> {
    for line in [
        &b"horizon : many\n"[..],
        b"jobs\n",
        b"jobsnr\n",
        b": 12\n",
        b"project : x\n",
        b"REQUESTS/DURATIONS:\n",
        b"1 2 3\n",
    ] {
        let mut text = Vec::from_slice(rt.alloc(), line)?;
        text.extend_from_slice(SIX)?;
        assert!(rt; is_six(rt.alloc(), &text));
    }
    Ok(())
}

#[test]
fn texts_are_accepted(rt: HostRuntime) {
    for text in [
        ONE,
        b"JOBS X: 1 x\n - Re New Able:0\nPrecedence\tRelations of all\n1 1 0\nrequests/durations\n1 1 0\nresource availabilities",
        b"jobs:1\njobs:2\n-renewable:0\n- renewable:99\nPRECEDENCE RELATIONS\nREQUESTS/DURATIONS\n1\n1\n0\nREQUESTS/DURATIONS\n1 1 0\nRESOURCEAVAILABILITIES",
        b"jobs:1\n-renewable:1\n-nonrenewable:0\n-doubly constrained:0\nprojects:1\nprecedencerelations\n1 1 1 1\nrequests/durations\n1 1 65535 4294967295\nresourceavailabilities\n65535\r",
    ] {
        assert!(rt; fault_of(rt.alloc(), text).is_none());
    }
}

#[test]
fn a_cut_text_is_refused(rt: HostRuntime) {
    let at = |kind, at| Some(TextFault { kind, at });
    for (size, fault) in [
        (0, at(TextKind::Ended, 0)),
        (5, at(TextKind::NotANumber, 5)),
        (6, at(TextKind::Ended, 6)),
        (19, at(TextKind::NotANumber, 19)),
        (40, at(TextKind::Ended, 40)),
        (41, at(TextKind::Ended, 41)),
        (45, at(TextKind::Ended, 45)),
        (65, at(TextKind::Expected(Item::Requests), 48)),
        (66, at(TextKind::Ended, 66)),
        (73, at(TextKind::Ended, 73)),
        (94, at(TextKind::Expected(Item::Availabilities), 73)),
        (95, None),
    ] {
        assert!(rt; size <= ONE.len());
        assert_eq!(rt; fault_of(rt.alloc(), &ONE[..size]), fault);
    }
}

#[test]
fn the_first_fault_of_the_preamble_is_shown(rt: HostRuntime) {
    let at = |kind, at| Some(TextFault { kind, at });
    let limit = |fault, offset| at(TextKind::Instance(fault), offset);
    let jobs = |count| InstanceFault::TooManyActivities { count };
    let resources = |count| InstanceFault::TooManyResources { count };
    for (text, fault) in [
        (&b"jobs:\r"[..], at(TextKind::NotANumber, 6)),
        (b"jobs:\r\n", at(TextKind::NotANumber, 5)),
        (b"jobs: \n 6", at(TextKind::NotANumber, 6)),
        (b"jobs:6x", at(TextKind::NotANumber, 5)),
        (b"jobs:4294967296", at(TextKind::NumberTooLarge, 5)),
        (b"jobs:0", limit(InstanceFault::NoActivity, 5)),
        (b"jobs: 1001", limit(jobs(1001), 6)),
        (b"-renewable:17", limit(resources(17), 11)),
        (b"projects: 2", at(TextKind::ManyProjects, 10)),
        (b"projects: 0", at(TextKind::ManyProjects, 10)),
        (
            b"jobs:1\n- renewable:0\n- nonrenewable:1",
            at(TextKind::NotRenewable, 36),
        ),
        (b"- Doubly Constrained : 1", at(TextKind::NotRenewable, 23)),
        (
            b"\n  PRECEDENCE RELATIONS",
            at(TextKind::Expected(Item::Jobs), 3),
        ),
        (
            b"jobs:1\nprecedencerelations",
            at(TextKind::Expected(Item::Renewable), 7),
        ),
        (b"jobs:1\n-renewable:1", at(TextKind::Ended, 19)),
    ] {
        assert_eq!(rt; fault_of(rt.alloc(), text), fault);
    }
}

#[test]
fn the_first_fault_of_the_sections_is_shown(rt: HostRuntime) -> Result<(), Fail> {
    let at = |kind, at| Some(TextFault { kind, at });
    let limit = |fault, offset| at(TextKind::Instance(fault), offset);
    let wild = |successor| InstanceFault::SuccessorOutOfRange {
        activity: 1,
        successor,
    };
    let long = InstanceFault::TooLong { sum: 65_536 };
    let large = InstanceFault::CapacityTooLarge {
        resource: 1,
        capacity: 65_536,
    };
    let head = b"jobs:2\n-renewable:1\nprecedencerelations\n";
    for (sections, fault) in [
        (&b"2 1 0"[..], at(TextKind::WrongJobNumber, 40)),
        (b"1 2 0", at(TextKind::MultiMode, 42)),
        (b"1 1 1 3", limit(wild(3), 46)),
        (b"1 1 2 1 0", limit(wild(0), 48)),
        (b"1 1 0 *", at(TextKind::NotANumber, 46)),
        (b"1 1 0\n*** ---", at(TextKind::NotANumber, 46)),
        (b"1 1 0 2 1 0 3", at(TextKind::Expected(Item::Requests), 52)),
        (
            b"1 1 0 2 1 0 requests/durations",
            at(TextKind::Expected(Item::Requests), 52),
        ),
        (b"x 1\n1 1 4294967295 1 1 1 1", at(TextKind::Ended, 66)),
        (
            b"1 1 0 2 1 0\nrequests/durations\n\n1 1 1 7 2 1 65535",
            limit(long, 84),
        ),
        (
            b"1 1 0 2 1 0\nrequests/durations\n\n1 1 1 7 2 1 5 8\nresourceavailabilities\n---\n65536",
            limit(large, 115),
        ),
        (
            b"1 1 0 2 1 0\nrequests/durations\n\n1 1 1 7 2 1 5 8\nresourceavailabilities\n5 - -",
            at(TextKind::Trailing, 113),
        ),
        (
            b"1 1 0 2 1 0\nrequests/durations\n\n1 1 1 7 2 1 5 8\nresourceavailabilities\n5\n- -\nx",
            at(TextKind::Trailing, 117),
        ),
    ] {
        let mut text = Vec::from_slice(rt.alloc(), head)?;
        text.extend_from_slice(sections)?;
        assert_eq!(rt; fault_of(rt.alloc(), &text), fault);
    }
    Ok(())
}

/// The text that is written of the six jobs.
const SIX_WRITTEN: &[u8] =
    b"************************************************************************
projects                      :  1
jobs (incl. supersource/sink ):  6
horizon                       :  8
RESOURCES
  - renewable                 :  1   R
  - nonrenewable              :  0   N
  - doubly constrained        :  0   D
************************************************************************
PRECEDENCE RELATIONS:
jobnr.    #modes  #successors   successors
   1        1          3    2    3    4
   2        1          1    5
   3        1          1    6
   4        1          1    6
   5        1          1    6
   6        1          0
************************************************************************
REQUESTS/DURATIONS:
jobnr. mode duration  R 1
   1     1        0       0
   2     1        3       2
   3     1        2       1
   4     1        2       1
   5     1        1       1
   6     1        0       0
************************************************************************
RESOURCEAVAILABILITIES:
  R 1
       2
************************************************************************
";

/// The text that is written of one job without resources.
const ONE_WRITTEN: &[u8] =
    b"************************************************************************
projects                      :  1
jobs (incl. supersource/sink ):  1
horizon                       :  0
RESOURCES
  - renewable                 :  0   R
  - nonrenewable              :  0   N
  - doubly constrained        :  0   D
************************************************************************
PRECEDENCE RELATIONS:
jobnr.    #modes  #successors   successors
   1        1          0
************************************************************************
REQUESTS/DURATIONS:
jobnr. mode duration
   1     1        0
************************************************************************
RESOURCEAVAILABILITIES:


************************************************************************
";

#[test]
fn instances_are_written(rt: HostRuntime) -> Result<(), Fail> {
    for (text, written) in [(SIX, SIX_WRITTEN), (ONE, ONE_WRITTEN)] {
        let instance = read(rt.alloc(), text).ok_or("the text is short")?;
        let instance = instance.ok().ok_or("the text is an instance")?;
        let again = write_sm(rt.alloc(), &instance)
            .ok()
            .ok_or("there is memory")?;
        assert_eq!(rt; &again[..], written);
    }
    assert!(rt; is_six(rt.alloc(), SIX_WRITTEN));
    Ok(())
}
