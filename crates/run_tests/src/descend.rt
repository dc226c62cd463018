use crate::case::{Case, each_comes_true};
use crate::fixtures::{
    EMPTY, MISFIT, NOT_UNDERSTOOD, OTHER_SIX, OTHER_SIX_TABLE, SIX, SIX_TABLE, SLOW_LIST,
};
use crate::text::Text::Lines;
use std::test::Fail;

// Lists that descend, and words that are none.
static CASES: &[Case] = &[
    Case {
        words: "schedule e2.rcp --list l.txt --descend 1",
        files: &[("e2.rcp", OTHER_SIX), ("l.txt", SLOW_LIST)],
        status: 0,
        out: Lines(&[
            "activity   start  finish",
            "       1       0       0",
            "       2       0       1",
            "       3       2       5",
            "       4       0       2",
            "       5       1       3",
            "       6       5       5",
            "makespan 5",
        ]),
        note: EMPTY,
    },
    Case {
        words: "schedule e2.rcp --list l.txt --descend 9",
        files: &[("e2.rcp", OTHER_SIX), ("l.txt", SLOW_LIST)],
        status: 0,
        out: OTHER_SIX_TABLE,
        note: EMPTY,
    },
    Case {
        words: "schedule --descend=1000 e2.rcp --list l.txt",
        files: &[("e2.rcp", OTHER_SIX), ("l.txt", SLOW_LIST)],
        status: 0,
        out: OTHER_SIX_TABLE,
        note: EMPTY,
    },
    Case {
        words: "schedule e2.rcp --improve --list l.txt --descend 1",
        files: &[("e2.rcp", OTHER_SIX), ("l.txt", SLOW_LIST)],
        status: 0,
        out: OTHER_SIX_TABLE,
        note: EMPTY,
    },
    Case {
        words: "schedule e2.rcp --list l.txt --descend 9 --calendar c.txt",
        files: &[
            ("e2.rcp", OTHER_SIX),
            ("l.txt", SLOW_LIST),
            ("c.txt", Lines(&["2", "1 2 0", "1 3 2"])),
        ],
        status: 0,
        out: Lines(&[
            "activity   start  finish",
            "       1       0       0",
            "       2       0       1",
            "       3       3       6",
            "       4       0       2",
            "       5       3       5",
            "       6       6       6",
            "makespan 6",
        ]),
        note: EMPTY,
    },
    Case {
        words: "schedule e1.rcp --descend 9",
        files: &[("e1.rcp", SIX)],
        status: 0,
        out: SIX_TABLE,
        note: EMPTY,
    },
    Case {
        words: "schedule e1.rcp --descend 0",
        files: &[("e1.rcp", SIX)],
        status: 2,
        out: EMPTY,
        note: NOT_UNDERSTOOD,
    },
    Case {
        words: "schedule e1.rcp --descend 1001",
        files: &[("e1.rcp", SIX)],
        status: 2,
        out: EMPTY,
        note: NOT_UNDERSTOOD,
    },
    Case {
        words: "schedule e1.rcp --descend",
        files: &[("e1.rcp", SIX)],
        status: 2,
        out: EMPTY,
        note: NOT_UNDERSTOOD,
    },
    Case {
        words: "schedule one.rcp --descend 1",
        files: &[("one.rcp", MISFIT)],
        status: 3,
        out: EMPTY,
        note: Lines(&["rcpsp: activity 1 needs 5 of resource 1, capacity 2"]),
    },
];

#[test]
fn lists_descend_where_that_is_asked_for(rt: HostRuntime) -> Result<(), Fail> {
    each_comes_true(&rt, rt.alloc(), CASES)
}
