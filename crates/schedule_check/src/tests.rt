use crate::{CheckFault, Placement, Plan, PlanFault, PlanKind, Violation, check, read_plan};
use gantt_table::csv_table;
use rc_instance::limits::MAX_HORIZON;
use rc_instance::{Change, Instance, Parts, Schedule};
use std::alloc::Global;
use std::process::Abort;
use std::test::Fail;

/// What a check of a plan's text answers with ample memory.
#[derive(Clone, Copy, Debug, PartialEq, Eq)]
enum Answer {
    /// The plan has no violation, and this makespan.
    Makespan(u64),

    /// The first violation of the plan.
    Violated(Violation),

    /// The text is no plan: the first fault, and the number of its record.
    Refused(PlanKind, u32),

    /// There was no memory for the check.
    NoMemory,
}

/// A text, and what it answers for the six activities.
#[derive(Clone, Copy)]
struct Case {
    text: &'static str,
    answer: Answer,
}

/// Plans, with their makespan or their first violation.
const PLANS: [Case; 11] = [
    Case {
        text: "activity,start\n1,0\n2,0\n3,3\n4,3\n5,5\n6,6\n",
        answer: Answer::Makespan(6),
    },
    Case {
        text: "activity,start\n6,6\n5,5\n4,3\n3,3\n2,0\n1,0\n",
        answer: Answer::Makespan(6),
    },
    Case {
        text: "activity,start\n1,0\n2,1\n3,4\n4,4294967290\n5,6\n6,4294967295\n",
        answer: Answer::Makespan(4294967295),
    },
    Case {
        text: "activity,start\n1,0\n2,0\n3,3\n4,3\n5,4294967295\n6,4294967295\n",
        answer: Answer::Violated(Violation::BeforePredecessor {
            activity: 6,
            predecessor: 5,
        }),
    },
    Case {
        text: "activity,start\n1,0\n2,0\n3,2\n4,3\n5,5\n6,6\n",
        answer: Answer::Violated(Violation::OverCapacity {
            resource: 1,
            period: 2,
            used: 3,
            capacity: 2,
        }),
    },
    Case {
        text: "activity,start\n1,0\n2,0\n3,3\n5,5\n6,6\n",
        answer: Answer::Violated(Violation::Missing { activity: 4 }),
    },
    Case {
        text: "activity,start\n",
        answer: Answer::Violated(Violation::Missing { activity: 1 }),
    },
    Case {
        text: "activity,start\n2,0\n9,0\n2,0\n",
        answer: Answer::Violated(Violation::Unknown { activity: 9 }),
    },
    Case {
        text: "activity,start\n0,0\n",
        answer: Answer::Violated(Violation::Unknown { activity: 0 }),
    },
    Case {
        text: "activity,start\n2,0\n2,0\n9,0\n",
        answer: Answer::Violated(Violation::Twice { activity: 2 }),
    },
    Case {
        text: "activity,start\n1,0\n2,0\n3,0\n4,0\n5,2\n6,1\n",
        answer: Answer::Violated(Violation::BeforePredecessor {
            activity: 5,
            predecessor: 2,
        }),
    },
];

/// Texts in and out of form.
const TEXTS: [Case; 12] = [
    Case {
        text: "",
        answer: Answer::Refused(PlanKind::NotHeader, 1),
    },
    Case {
        text: "activity\n",
        answer: Answer::Refused(PlanKind::NotHeader, 1),
    },
    Case {
        text: "1,0\n",
        answer: Answer::Refused(PlanKind::NotHeader, 1),
    },
    Case {
        text: "Activity,start\n",
        answer: Answer::Refused(PlanKind::NotHeader, 1),
    },
    Case {
        text: "activity,start \n",
        answer: Answer::Refused(PlanKind::NotHeader, 1),
    },
    Case {
        text: "activity,start\n1\n",
        answer: Answer::Refused(PlanKind::TooFewFields, 2),
    },
    Case {
        text: "activity,start\nx\n",
        answer: Answer::Refused(PlanKind::NotANumber, 2),
    },
    Case {
        text: "activity,start\n4294967296\n",
        answer: Answer::Refused(PlanKind::NumberTooLarge, 2),
    },
    Case {
        text: "activity,start\n1,0\n2,+1\n3\n",
        answer: Answer::Refused(PlanKind::NotANumber, 3),
    },
    Case {
        text: "activity,start\n1,\n",
        answer: Answer::Refused(PlanKind::NotANumber, 2),
    },
    Case {
        text: "activity,start\n1,99999999999999999999\n",
        answer: Answer::Refused(PlanKind::NumberTooLarge, 2),
    },
    Case {
        text: "\u{feff}\"activity\",start,finish\r\n\r\n1,\"0\",0\r\n2,000,3,x\n\n3,3\n4,3\n5,5\n6,6",
        answer: Answer::Makespan(6),
    },
];

/// Six activities and a resource of capacity 2.
fn six(rt: &impl Abort, alloc: Global) -> Result<Instance, Fail> {
    let lists: [&[u32]; 6] = [&[2, 3, 4], &[5], &[6], &[6], &[6], &[]];
    let mut successors = Vec::new(alloc);
    for list in lists {
        successors.push(Vec::from_slice(alloc, list)?)?;
    }
    let parts = Parts {
        capacities: Vec::from_slice(alloc, &[2])?,
        durations: Vec::from_slice(alloc, &[0, 3, 2, 2, 1, 0])?,
        demands: Vec::from_slice(alloc, &[0, 2, 1, 1, 1, 0])?,
        successors,
    };
    assert_eq!(rt; parts.successors.len(), parts.durations.len());
    let cells = parts.durations.len().checked_mul(parts.capacities.len());
    assert_eq!(rt; cells, Some(parts.demands.len()));
    Ok(Instance::build(alloc, parts)?)
}

/// What the text of a plan answers.
fn answer_to(rt: &impl Abort, alloc: Global, instance: &Instance, text: &str) -> Answer {
    assert!(rt; text.len() < 1000);
    let plan = match read_plan(alloc, text.as_bytes()) {
        Ok(plan) => plan,
        Err(fault) => return Answer::Refused(fault.kind, fault.row),
    };
    match check(alloc, instance, &plan) {
        Ok(makespan) => Answer::Makespan(makespan),
        Err(CheckFault::Violated(violation)) => Answer::Violated(violation),
        Err(CheckFault::Memory) => Answer::NoMemory,
    }
}

#[test]
fn first_violations_of_plans(rt: HostRuntime) -> Result<(), Fail> {
    let instance = six(&rt, rt.alloc())?;
    for case in &PLANS {
        assert_eq!(rt;
            answer_to(&rt, rt.alloc(), &instance, case.text),
            case.answer
        );
    }
    Ok(())
}

#[test]
fn first_faults_of_texts(rt: HostRuntime) -> Result<(), Fail> {
    let instance = six(&rt, rt.alloc())?;
    for case in &TEXTS {
        assert_eq!(rt;
            answer_to(&rt, rt.alloc(), &instance, case.text),
            case.answer
        );
    }
    Ok(())
}

/// The six activities with a resource that falls to capacity 1 in period 1.
fn six_with_a_fall(rt: &impl Abort, alloc: Global) -> Result<Instance, Fail> {
    let instance = six(rt, alloc)?;
    assert_eq!(rt; instance.resources(), 1);
    let fall = Change {
        resource: 1,
        period: 1,
        capacity: 1,
    };
    Ok(instance.with_calendar(vec![in alloc; fall]?))
}

#[test]
fn period_of_a_fall_is_tested(rt: HostRuntime) -> Result<(), Fail> {
    let instance = six_with_a_fall(&rt, rt.alloc())?;
    let over = Violation::OverCapacity {
        resource: 1,
        period: 1,
        used: 2,
        capacity: 1,
    };
    let answer = answer_to(&rt, rt.alloc(), &instance, PLANS[0].text);
    assert_eq!(rt; answer, Answer::Violated(over));
    Ok(())
}

#[test]
fn csv_of_a_schedule_is_accepted(rt: HostRuntime) -> Result<(), Fail> {
    let alloc = rt.alloc();
    let instance = six(&rt, alloc)?;
    let mut schedule = Schedule::zero(alloc, instance.count())?;
    for (activity, start) in [(3, 3), (4, 3), (5, 5), (6, 6)] {
        assert!(rt; activity as usize <= schedule.count());
        schedule.set(activity, start);
    }
    assert_eq!(rt; schedule.count(), instance.count() as usize);
    assert!(rt; schedule.makespan(&instance) <= u64::from(MAX_HORIZON));
    let text = csv_table(alloc, &instance, &schedule)?;
    assert!(rt; text.len() < 1000);
    let Ok(plan) = read_plan(alloc, &text) else {
        return Err(Fail::from("the CSV is a plan"));
    };
    assert_eq!(rt; check(alloc, &instance, &plan), Ok(6));
    Ok(())
}

#[test]
fn placements_of_a_plan(rt: HostRuntime) -> Result<(), Fail> {
    let first = Placement {
        activity: 2,
        start: 5,
    };
    let second = Placement {
        activity: 1,
        start: 0,
    };
    let mut plan = Plan::new(rt.alloc());
    plan.push(first)?;
    plan.push(second)?;
    assert_eq!(rt; plan.placements(), [first, second].as_slice());
    let same = Plan::from(plan.into_placements());
    assert_eq!(rt; same.placements(), [first, second].as_slice());
    Ok(())
}

#[test]
fn words_of_violations_and_faults(rt: HostRuntime) -> Result<(), Fail> {
    let alloc = rt.alloc();
    let over = Violation::OverCapacity {
        resource: 1,
        period: 4294967295,
        used: 4294967298,
        capacity: 2,
    };
    let early = Violation::BeforePredecessor {
        activity: 5,
        predecessor: 2,
    };
    for (violation, words) in [
        (
            Violation::Unknown { activity: 9 },
            "violation: activity 9 is unknown",
        ),
        (
            Violation::Twice { activity: 2 },
            "violation: activity 2 comes twice",
        ),
        (
            Violation::Missing { activity: 4 },
            "violation: activity 4 is missing",
        ),
        (
            early,
            "violation: activity 5 starts before predecessor 2 ends",
        ),
        (
            over,
            "violation: resource 1 is used 4294967298 of 2 in period 4294967295",
        ),
    ] {
        let fault = CheckFault::Violated(violation);
        assert_eq!(rt; format!(in alloc; "{fault}")?.as_str(), words);
    }
    for (kind, words) in [
        (PlanKind::NotHeader, "not a header in record 3"),
        (PlanKind::TooFewFields, "too few fields in record 3"),
        (PlanKind::NotANumber, "not a number in record 3"),
        (PlanKind::NumberTooLarge, "number too large in record 3"),
        (PlanKind::Memory, "out of memory in record 3"),
    ] {
        let fault = PlanFault { kind, row: 3 };
        assert_eq!(rt; format!(in alloc; "{fault}")?.as_str(), words);
    }
    Ok(())
}
