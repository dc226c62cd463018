use crate::case::{Case, each_comes_true};
use crate::fixtures::{
    EMPTY, FOUR, FOUR_BY_LFT, FOUR_BY_LST, HOLIDAYS, LOOP, MISFIT, NOT_UNDERSTOOD, SIX, SIX_CSV,
    SIX_ON_HOLIDAYS, SIX_SM, SIX_TABLE,
};
use crate::text::Text::{self, Cut, Lines};
use std::test::Fail;

// Three activities, one resource of capacity 2; the second follows the first, and needs all of it.
const LATE: Text = Cut(&["3 1 2 2 1 1 2 2 2 0 4 1 0"]);

// Schedules by the parallel scheme, and the serial one of the same list.
static CASES: &[Case] = &[
    Case {
        words: "parallel e1.rcp",
        files: &[("e1.rcp", SIX)],
        status: 0,
        out: SIX_TABLE,
        note: EMPTY,
    },
    Case {
        words: "parallel late.rcp",
        files: &[("late.rcp", LATE)],
        status: 0,
        out: Lines(&[
            "activity   start  finish",
            "       1       0       2",
            "       2       4       6",
            "       3       0       4",
            "makespan 6",
        ]),
        note: EMPTY,
    },
    Case {
        words: "schedule late.rcp",
        files: &[("late.rcp", LATE)],
        status: 0,
        out: Lines(&[
            "activity   start  finish",
            "       1       0       2",
            "       2       2       4",
            "       3       4       8",
            "makespan 8",
        ]),
        note: EMPTY,
    },
    Case {
        words: "parallel e1.rcp --list l.txt",
        files: &[("e1.rcp", SIX), ("l.txt", Cut(&["1 3 2 4 5 6"]))],
        status: 0,
        out: Lines(&[
            "activity   start  finish",
            "       1       0       0",
            "       2       2       5",
            "       3       0       2",
            "       4       0       2",
            "       5       5       6",
            "       6       6       6",
            "makespan 6",
        ]),
        note: EMPTY,
    },
    Case {
        words: "parallel e3.rcp --rule lft",
        files: &[("e3.rcp", FOUR)],
        status: 0,
        out: FOUR_BY_LFT,
        note: EMPTY,
    },
    Case {
        words: "parallel e3.rcp --rule=lst",
        files: &[("e3.rcp", FOUR)],
        status: 0,
        out: FOUR_BY_LST,
        note: EMPTY,
    },
    Case {
        words: "parallel e1.rcp --calendar c.txt",
        files: &[("e1.rcp", SIX), ("c.txt", HOLIDAYS)],
        status: 0,
        out: SIX_ON_HOLIDAYS,
        note: EMPTY,
    },
    Case {
        words: "parallel --as csv e1.sm",
        files: &[("e1.sm", SIX_SM)],
        status: 0,
        out: SIX_CSV,
        note: EMPTY,
    },
    Case {
        words: "parallel one.rcp",
        files: &[("one.rcp", MISFIT)],
        status: 3,
        out: EMPTY,
        note: Lines(&["rcpsp: activity 1 needs 5 of resource 1, capacity 2"]),
    },
    // the list is tested before the demands, and the network before both
    Case {
        words: "parallel one.rcp --list l.txt",
        files: &[("one.rcp", MISFIT), ("l.txt", Cut(&["2"]))],
        status: 1,
        out: EMPTY,
        note: Lines(&["rcpsp: list: position 0 is unknown"]),
    },
    Case {
        words: "parallel ring.rcp --list l.txt",
        files: &[("ring.rcp", LOOP), ("l.txt", Cut(&["2"]))],
        status: 1,
        out: EMPTY,
        note: Lines(&["rcpsp: cycle 1 1"]),
    },
    Case {
        words: "parallel e1.rcp --improve",
        files: &[("e1.rcp", SIX)],
        status: 2,
        out: EMPTY,
        note: NOT_UNDERSTOOD,
    },
];

#[test]
fn schedules_are_made_period_by_period(rt: HostRuntime) -> Result<(), Fail> {
    each_comes_true(&rt, rt.alloc(), CASES)
}
