use crate::case::{Case, each_comes_true};
use crate::fixtures::{
    EMPTY, MISFIT, NOT_UNDERSTOOD, OTHER_SIX, OTHER_SIX_TABLE, SIX, SIX_TABLE, SLOW_LIST,
};
use crate::text::Text::Lines;
use std::test::Fail;

// Schedules with the flag, and without it.
static CASES: &[Case] = &[
    Case {
        words: "schedule e2.rcp --list l.txt",
        files: &[("e2.rcp", OTHER_SIX), ("l.txt", SLOW_LIST)],
        status: 0,
        out: Lines(&[
            "activity   start  finish",
            "       1       0       0",
            "       2       2       3",
            "       3       3       6",
            "       4       0       2",
            "       5       0       2",
            "       6       6       6",
            "makespan 6",
        ]),
        note: EMPTY,
    },
    Case {
        words: "schedule e2.rcp --list l.txt --improve",
        files: &[("e2.rcp", OTHER_SIX), ("l.txt", SLOW_LIST)],
        status: 0,
        out: OTHER_SIX_TABLE,
        note: EMPTY,
    },
    Case {
        words: "schedule --improve e2.rcp --list l.txt --as csv",
        files: &[("e2.rcp", OTHER_SIX), ("l.txt", SLOW_LIST)],
        status: 0,
        out: Lines(&[
            "activity,start,finish",
            "1,0,0",
            "2,0,1",
            "3,1,4",
            "4,0,2",
            "5,2,4",
            "6,4,4",
        ]),
        note: EMPTY,
    },
    Case {
        words: "schedule e1.rcp --improve",
        files: &[("e1.rcp", SIX)],
        status: 0,
        out: SIX_TABLE,
        note: EMPTY,
    },
    Case {
        words: "schedule e1.rcp --improve=1",
        files: &[("e1.rcp", SIX)],
        status: 2,
        out: EMPTY,
        note: NOT_UNDERSTOOD,
    },
    Case {
        words: "schedule e1.rcp --improve --improve",
        files: &[("e1.rcp", SIX)],
        status: 2,
        out: EMPTY,
        note: NOT_UNDERSTOOD,
    },
    Case {
        words: "schedule one.rcp --improve",
        files: &[("one.rcp", MISFIT)],
        status: 3,
        out: EMPTY,
        note: Lines(&["rcpsp: activity 1 needs 5 of resource 1, capacity 2"]),
    },
];

#[test]
fn schedules_are_improved_where_that_is_asked_for(rt: HostRuntime) -> Result<(), Fail> {
    each_comes_true(&rt, rt.alloc(), CASES)
}
