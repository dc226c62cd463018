use crate::{chart, csv_table, table, window_table};
use activity_net::Net;
use rc_instance::limits::MAX_HORIZON;
use rc_instance::{Instance, Parts, Schedule};
use std::alloc::Global;
use std::process::Abort;
use std::test::Fail;
use time_windows::Windows;

/// A schedule of an instance without precedence, and its texts.
#[derive(Clone, Copy)]
struct Case {
    capacities: &'static [u32],
    durations: &'static [u32],
    demands: &'static [u32],
    starts: &'static [u32],
    table: &'static str,
    chart: &'static str,
    csv: &'static str,
}

const SIX: Case = Case {
    capacities: &[2],
    durations: &[0, 3, 2, 2, 1, 0],
    demands: &[0, 2, 1, 1, 1, 0],
    starts: &[0, 0, 3, 3, 5, 6],
    table: "activity   start  finish
       1       0       0
       2       0       3
       3       3       5
       4       3       5
       5       5       6
       6       6       6
makespan 6
",
    chart: "column 1
   1 ......
   2 ###...
   3 ...##.
   4 ...##.
   5 .....#
   6 ......
makespan 6
",
    csv: "activity,start,finish
1,0,0
2,0,3
3,3,5
4,3,5
5,5,6
6,6,6
",
};

/// No resources, and a makespan of 101: 51 columns of 2 periods, of which the last has but one.
const LONG: Case = Case {
    capacities: &[],
    durations: &[1, 100, 3, 0],
    demands: &[],
    starts: &[100, 1, 3, 7],
    table: "activity   start  finish
       1     100     101
       2       1     101
       3       3       6
       4       7       7
makespan 101
",
    chart: "column 2
   1 ..................................................#
   2 ###################################################
   3 .##................................................
   4 ...................................................
makespan 101
",
    csv: "activity,start,finish
1,100,101
2,1,101
3,3,6
4,7,7
",
};

/// One activity that takes no time: a makespan of 0, and no column.
const STILL: Case = Case {
    capacities: &[1],
    durations: &[0],
    demands: &[5],
    starts: &[0],
    table: "activity   start  finish
       1       0       0
makespan 0
",
    chart: "column 1
   1 \nmakespan 0\n",
    csv: "activity,start,finish
1,0,0
",
};

fn instance_of(rt: &impl Abort, alloc: Global, case: &Case) -> Result<Instance, Fail> {
    let mut successors = Vec::new(alloc);
    for _ in case.durations {
        successors.push(Vec::new(alloc))?;
    }
    let parts = Parts {
        capacities: Vec::from_slice(alloc, case.capacities)?,
        durations: Vec::from_slice(alloc, case.durations)?,
        demands: Vec::from_slice(alloc, case.demands)?,
        successors,
    };
    assert_eq!(rt; parts.successors.len(), parts.durations.len());
    let cells = parts.durations.len().checked_mul(parts.capacities.len());
    assert_eq!(rt; cells, Some(parts.demands.len()));
    Ok(Instance::build(alloc, parts)?)
}

fn has_texts(rt: &impl Abort, alloc: Global, case: &Case) -> Result<(), Fail> {
    let instance = instance_of(rt, alloc, case)?;
    let mut schedule = Schedule::zero(alloc, instance.count())?;
    for activity in 1..instance.count() + 1 {
        let place = activity as usize - 1;
        if place < case.starts.len() && place < schedule.count() {
            schedule.set(activity, case.starts[place]);
        }
    }
    assert_eq!(rt; schedule.count(), instance.count() as usize);
    assert!(rt; schedule.makespan(&instance) <= u64::from(MAX_HORIZON));
    let text = table(alloc, &instance, &schedule)?;
    assert_eq!(rt; text.as_slice(), case.table.as_bytes());
    let text = chart(alloc, &instance, &schedule)?;
    assert_eq!(rt; text.as_slice(), case.chart.as_bytes());
    let text = csv_table(alloc, &instance, &schedule)?;
    assert_eq!(rt; text.as_slice(), case.csv.as_bytes());
    Ok(())
}

#[test]
fn texts_of_worked_schedules(rt: HostRuntime) -> Result<(), Fail> {
    for case in &[SIX, LONG, STILL] {
        has_texts(&rt, rt.alloc(), case)?;
    }
    Ok(())
}

#[test]
fn windows_of_six_activities(rt: HostRuntime) -> Result<(), Fail> {
    let alloc = rt.alloc();
    let lists: [&[u32]; 6] = [&[2, 3, 4], &[5], &[6], &[6], &[6], &[]];
    let mut successors = Vec::new(alloc);
    for list in lists {
        successors.push(Vec::from_slice(alloc, list)?)?;
    }
    let parts = Parts {
        capacities: Vec::from_slice(alloc, SIX.capacities)?,
        durations: Vec::from_slice(alloc, SIX.durations)?,
        demands: Vec::from_slice(alloc, SIX.demands)?,
        successors,
    };
    assert_eq!(rt; parts.successors.len(), parts.durations.len());
    let cells = parts.durations.len().checked_mul(parts.capacities.len());
    assert_eq!(rt; cells, Some(parts.demands.len()));
    let net = Net::of(alloc, Instance::build(alloc, parts)?)?;
    let text = window_table(alloc, &net, &Windows::of(alloc, &net)?)?;
    let expected = "activity  earliest    latest
       1         0         0
       2         0         0
       3         0         2
       4         0         2
       5         3         3
       6         4         4
critical 4
capacity 6
";
    assert_eq!(rt; text.as_slice(), expected.as_bytes());
    Ok(())
}
