use crate::case::{Case, each_comes_true};
use crate::fixtures::{
    EMPTY, FOUR, FOUR_BY_LFT, FOUR_BY_LST, INSTANT, LOOP, MISFIT, RING, SIX, SIX_CRLF, SIX_CSV,
    SIX_SM, SIX_TABLE, SIX_WRITTEN, WIDE_CHART,
};
use crate::text::Text::{Cut, Lines};
use std::test::Fail;

// Formats, forms and sizes, in the order of numbers.
static SHOWN: &[Case] = &[
    Case {
        words: "schedule e1.rcp",
        files: &[("e1.rcp", SIX)],
        status: 0,
        out: SIX_TABLE,
        note: EMPTY,
    },
    Case {
        words: "schedule E1.RCP",
        files: &[("E1.RCP", SIX)],
        status: 0,
        out: SIX_TABLE,
        note: EMPTY,
    },
    Case {
        words: "schedule two.rcp",
        files: &[("two.rcp", Cut(&["2 1 3 2 1 0 1 2 0"]))],
        status: 0,
        out: Lines(&[
            "activity   start  finish",
            "       1       0       2",
            "       2       0       1",
            "makespan 2",
        ]),
        note: EMPTY,
    },
    Case {
        words: "schedule two.rcp",
        files: &[("two.rcp", Cut(&["2 1 2 2 1 0 1 2 0"]))],
        status: 0,
        out: Lines(&[
            "activity   start  finish",
            "       1       0       2",
            "       2       2       3",
            "makespan 3",
        ]),
        note: EMPTY,
    },
    Case {
        words: "schedule empty.rcp",
        files: &[("empty.rcp", INSTANT)],
        status: 0,
        out: Lines(&[
            "activity   start  finish",
            "       1       0       0",
            "makespan 0",
        ]),
        note: EMPTY,
    },
    Case {
        words: "schedule one.rcp",
        files: &[("one.rcp", Cut(&["1 0 5 0"]))],
        status: 0,
        out: Lines(&[
            "activity   start  finish",
            "       1       0       5",
            "makespan 5",
        ]),
        note: EMPTY,
    },
    Case {
        words: "schedule long.rcp",
        files: &[("long.rcp", Cut(&["1 0", "65535 0"]))],
        status: 0,
        out: Lines(&[
            "activity   start  finish",
            "       1       0   65535",
            "makespan 65535",
        ]),
        note: EMPTY,
    },
    Case {
        words: "schedule e1.sm",
        files: &[("e1.sm", SIX_SM)],
        status: 0,
        out: SIX_TABLE,
        note: EMPTY,
    },
    Case {
        words: "schedule e1.txt --format sm",
        files: &[("e1.txt", SIX_SM)],
        status: 0,
        out: SIX_TABLE,
        note: EMPTY,
    },
    Case {
        words: "schedule e1.txt --format rcp",
        files: &[("e1.txt", SIX)],
        status: 0,
        out: SIX_TABLE,
        note: EMPTY,
    },
    Case {
        words: "schedule e1.rcp --format=sm",
        files: &[("e1.rcp", SIX_WRITTEN)],
        status: 0,
        out: SIX_TABLE,
        note: EMPTY,
    },
    Case {
        words: "schedule e1.rcp",
        files: &[("e1.rcp", SIX_CRLF)],
        status: 0,
        out: SIX_TABLE,
        note: EMPTY,
    },
    Case {
        words: "schedule e1.rcp --as table",
        files: &[("e1.rcp", SIX)],
        status: 0,
        out: SIX_TABLE,
        note: EMPTY,
    },
    Case {
        words: "schedule e1.rcp --as chart",
        files: &[("e1.rcp", SIX)],
        status: 0,
        out: Lines(&[
            "column 1",
            "   1 ......",
            "   2 ###...",
            "   3 ...##.",
            "   4 ...##.",
            "   5 .....#",
            "   6 ......",
            "makespan 6",
        ]),
        note: EMPTY,
    },
    Case {
        words: "schedule e1.rcp --as=csv",
        files: &[("e1.rcp", SIX)],
        status: 0,
        out: SIX_CSV,
        note: EMPTY,
    },
    Case {
        words: "schedule empty.rcp --as chart",
        files: &[("empty.rcp", INSTANT)],
        status: 0,
        out: Lines(&["column 1", "   1 ", "makespan 0"]),
        note: EMPTY,
    },
    Case {
        words: "schedule wide.rcp --as chart",
        files: &[("wide.rcp", Cut(&["2 1 1 150 1 0 100 1 0"]))],
        status: 0,
        out: WIDE_CHART,
        note: EMPTY,
    },
];

// Rules and lists.
static ORDERED: &[Case] = &[
    Case {
        words: "schedule i.rcp --list l.txt",
        files: &[("i.rcp", SIX), ("l.txt", Cut(&["1 3 2 4 5 6"]))],
        status: 0,
        out: Lines(&[
            "activity   start  finish",
            "       1       0       0",
            "       2       2       5",
            "       3       0       2",
            "       4       0       2",
            "       5       5       6",
            "       6       6       6",
            "makespan 6",
        ]),
        note: EMPTY,
    },
    Case {
        words: "schedule --rule=lft i.rcp",
        files: &[("i.rcp", FOUR)],
        status: 0,
        out: FOUR_BY_LFT,
        note: EMPTY,
    },
    Case {
        words: "schedule --rule=mts i.rcp",
        files: &[("i.rcp", FOUR)],
        status: 0,
        out: FOUR_BY_LFT,
        note: EMPTY,
    },
    Case {
        words: "schedule --rule=lst i.rcp",
        files: &[("i.rcp", FOUR)],
        status: 0,
        out: FOUR_BY_LST,
        note: EMPTY,
    },
    Case {
        words: "schedule --rule=grpw i.rcp",
        files: &[("i.rcp", FOUR)],
        status: 0,
        out: FOUR_BY_LST,
        note: EMPTY,
    },
    Case {
        words: "schedule --rule=number i.rcp",
        files: &[("i.rcp", FOUR)],
        status: 0,
        out: Lines(&[
            "activity   start  finish",
            "       1       0       1",
            "       2       1       3",
            "       3       3       7",
            "       4       7       8",
            "makespan 8",
        ]),
        note: EMPTY,
    },
    Case {
        words: "schedule i.rcp",
        files: &[("i.rcp", Cut(&["2 0 1 0 1 1 1"]))],
        status: 0,
        out: Lines(&[
            "activity   start  finish",
            "       1       1       2",
            "       2       0       1",
            "makespan 2",
        ]),
        note: EMPTY,
    },
];

// What is refused.
static REFUSED: &[Case] = &[
    Case {
        words: "schedule long.rcp",
        files: &[("long.rcp", Cut(&["1 0", "65536 0"]))],
        status: 1,
        out: EMPTY,
        note: Lines(&["rcpsp: long.rcp: too long at 4"]),
    },
    Case {
        words: "schedule more.rcp",
        files: &[(
            "more.rcp",
            Cut(&[
                "6 1",
                "2",
                "0 0 3 2 3 4",
                "3 2 1 5",
                "2 1 1 6",
                "2 1 1 6",
                "1 1 1 6",
                "0 0 0",
                "7",
            ]),
        )],
        status: 1,
        out: EMPTY,
        note: Lines(&["rcpsp: more.rcp: text after the end at 56"]),
    },
    Case {
        words: "schedule zero.rcp",
        files: &[("zero.rcp", Cut(&["0 0"]))],
        status: 1,
        out: EMPTY,
        note: Lines(&["rcpsp: zero.rcp: no activity at 0"]),
    },
    Case {
        words: "schedule one.rcp",
        files: &[("one.rcp", MISFIT)],
        status: 3,
        out: EMPTY,
        note: Lines(&["rcpsp: activity 1 needs 5 of resource 1, capacity 2"]),
    },
    Case {
        words: "schedule ring.rcp",
        files: &[("ring.rcp", RING)],
        status: 1,
        out: EMPTY,
        note: Lines(&["rcpsp: cycle 1 2 1"]),
    },
    Case {
        words: "schedule x.rcp",
        files: &[("y.rcp", EMPTY)],
        status: 5,
        out: EMPTY,
        note: Lines(&["rcpsp: cannot read x.rcp"]),
    },
    Case {
        words: "schedule none.rcp",
        files: &[("none.rcp", EMPTY)],
        status: 1,
        out: EMPTY,
        note: Lines(&["rcpsp: none.rcp: text ends at 0"]),
    },
    Case {
        words: "schedule i.rcp --list l.txt",
        files: &[("i.rcp", SIX), ("l.txt", Cut(&["1 2 3"]))],
        status: 1,
        out: EMPTY,
        note: Lines(&["rcpsp: list: 3 numbers for 6 activities"]),
    },
    Case {
        words: "schedule i.rcp --list l.txt",
        files: &[("i.rcp", SIX), ("l.txt", Cut(&["1 5 2 3 4 6"]))],
        status: 1,
        out: EMPTY,
        note: Lines(&["rcpsp: list: position 1 comes before predecessor 2"]),
    },
    Case {
        words: "schedule i.rcp --list l.txt",
        files: &[("i.rcp", SIX), ("l.txt", Cut(&["1 2 2 3 4 6"]))],
        status: 1,
        out: EMPTY,
        note: Lines(&["rcpsp: list: position 2 is repeated"]),
    },
    Case {
        words: "schedule i.rcp --list l.txt",
        files: &[("i.rcp", SIX), ("l.txt", Cut(&["1 2 9 3 4 6"]))],
        status: 1,
        out: EMPTY,
        note: Lines(&["rcpsp: list: position 2 is unknown"]),
    },
    Case {
        words: "schedule i.rcp --list l.txt",
        files: &[("i.rcp", Cut(&["1 0 65536 0"])), ("l.txt", Cut(&["x"]))],
        status: 1,
        out: EMPTY,
        note: Lines(&["rcpsp: i.rcp: too long at 4"]),
    },
    Case {
        words: "schedule i.rcp --list l.txt",
        files: &[("i.rcp", SIX), ("l.txt", Cut(&["1 x"]))],
        status: 1,
        out: EMPTY,
        note: Lines(&["rcpsp: l.txt: not a number at 2"]),
    },
    Case {
        words: "schedule i.rcp --list m.txt",
        files: &[("i.rcp", EMPTY)],
        status: 5,
        out: EMPTY,
        note: Lines(&["rcpsp: cannot read m.txt"]),
    },
    Case {
        words: "schedule h.rcp --list m.txt",
        files: &[("i.rcp", EMPTY)],
        status: 5,
        out: EMPTY,
        note: Lines(&["rcpsp: cannot read h.rcp"]),
    },
    Case {
        words: "schedule i.rcp --list l.txt",
        files: &[("i.rcp", LOOP), ("l.txt", Cut(&["7 7"]))],
        status: 1,
        out: EMPTY,
        note: Lines(&["rcpsp: cycle 1 1"]),
    },
    Case {
        words: "schedule i.rcp --list l.txt",
        files: &[("i.rcp", MISFIT), ("l.txt", Cut(&["2"]))],
        status: 1,
        out: EMPTY,
        note: Lines(&["rcpsp: list: position 0 is unknown"]),
    },
];

#[test]
fn schedules_are_shown(rt: HostRuntime) -> Result<(), Fail> {
    each_comes_true(&rt, rt.alloc(), SHOWN)
}

#[test]
fn schedules_follow_rules_and_lists(rt: HostRuntime) -> Result<(), Fail> {
    each_comes_true(&rt, rt.alloc(), ORDERED)
}

#[test]
fn what_is_no_schedule_is_refused(rt: HostRuntime) -> Result<(), Fail> {
    each_comes_true(&rt, rt.alloc(), REFUSED)
}
