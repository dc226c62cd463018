use crate::case::{Case, each_comes_true};
use crate::fixtures::{EMPTY, HOLIDAYS, LOOP, NOT_UNDERSTOOD, SIX, SIX_ON_HOLIDAYS, SIX_TABLE};
use crate::text::Text::{self, Cut, Lines};
use std::test::Fail;

// One activity, and no capacity before any change.
const NEEDS_ONE: Text = Cut(&["1 1 0 1 1 0"]);

// Schedules on a calendar.
static SHOWN: &[Case] = &[
    Case {
        words: "schedule e1.rcp --calendar c.txt",
        files: &[("e1.rcp", SIX), ("c.txt", Cut(&["0"]))],
        status: 0,
        out: SIX_TABLE,
        note: EMPTY,
    },
    Case {
        words: "schedule e1.rcp --calendar c.txt",
        files: &[("e1.rcp", SIX), ("c.txt", HOLIDAYS)],
        status: 0,
        out: SIX_ON_HOLIDAYS,
        note: EMPTY,
    },
    Case {
        words: "schedule e1.rcp --improve --calendar=c.txt",
        files: &[("e1.rcp", SIX), ("c.txt", HOLIDAYS)],
        status: 0,
        out: SIX_ON_HOLIDAYS,
        note: EMPTY,
    },
    Case {
        words: "schedule e1.rcp --calendar -",
        files: &[("e1.rcp", SIX), ("-", HOLIDAYS)],
        status: 0,
        out: SIX_ON_HOLIDAYS,
        note: EMPTY,
    },
    Case {
        words: "schedule e1.rcp --calendar c.txt --as chart",
        files: &[("e1.rcp", SIX), ("c.txt", HOLIDAYS)],
        status: 0,
        out: Lines(&[
            "column 1",
            "   1 .........",
            "   2 ...###...",
            "   3 ......##.",
            "   4 ......##.",
            "   5 ........#",
            "   6 .........",
            "makespan 9",
        ]),
        note: EMPTY,
    },
    Case {
        words: "schedule e1.rcp --list l.txt --calendar c.txt",
        files: &[
            ("e1.rcp", SIX),
            ("l.txt", Cut(&["1 3 2 4 5 6"])),
            ("c.txt", HOLIDAYS),
        ],
        status: 0,
        out: Lines(&[
            "activity   start  finish",
            "       1       0       0",
            "       2       5       8",
            "       3       3       5",
            "       4       3       5",
            "       5       8       9",
            "       6       9       9",
            "makespan 9",
        ]),
        note: EMPTY,
    },
    Case {
        words: "schedule one.rcp --calendar c.txt",
        files: &[("one.rcp", NEEDS_ONE), ("c.txt", Cut(&["1 1 5 1"]))],
        status: 0,
        out: Lines(&[
            "activity   start  finish",
            "       1       5       6",
            "makespan 6",
        ]),
        note: EMPTY,
    },
];

// Calendars that are not read, or leave no room.
static REFUSED: &[Case] = &[
    Case {
        words: "schedule one.rcp",
        files: &[("one.rcp", NEEDS_ONE)],
        status: 3,
        out: EMPTY,
        note: Lines(&["rcpsp: activity 1 needs 1 of resource 1, capacity 0"]),
    },
    Case {
        words: "schedule e1.rcp --calendar c.txt",
        files: &[("e1.rcp", SIX), ("c.txt", Cut(&["1 1 4 1"]))],
        status: 3,
        out: EMPTY,
        note: Lines(&["rcpsp: activity 2 needs 2 of resource 1, capacity 1"]),
    },
    Case {
        words: "schedule e1.rcp --calendar c.txt",
        files: &[("e1.rcp", SIX), ("c.txt", Cut(&["1 2 1 0"]))],
        status: 1,
        out: EMPTY,
        note: Lines(&["rcpsp: c.txt: resource out of range at 2"]),
    },
    Case {
        words: "schedule e1.rcp --calendar c.txt",
        files: &[("e1.rcp", SIX), ("c.txt", Cut(&["1 1 0 5"]))],
        status: 1,
        out: EMPTY,
        note: Lines(&["rcpsp: c.txt: period out of range at 4"]),
    },
    Case {
        words: "schedule e1.rcp --calendar c.txt",
        files: &[("e1.rcp", SIX), ("c.txt", Cut(&["2 1 3 0 1 3 2"]))],
        status: 1,
        out: EMPTY,
        note: Lines(&["rcpsp: c.txt: not rising at 10"]),
    },
    Case {
        words: "schedule e1.rcp --calendar c.txt",
        files: &[("e1.rcp", SIX), ("c.txt", Cut(&["1 1 1 65536"]))],
        status: 1,
        out: EMPTY,
        note: Lines(&["rcpsp: c.txt: capacity too large at 6"]),
    },
    Case {
        words: "schedule e1.rcp --calendar c.txt",
        files: &[("e1.rcp", SIX), ("c.txt", Cut(&["1001"]))],
        status: 1,
        out: EMPTY,
        note: Lines(&["rcpsp: c.txt: too many changes at 0"]),
    },
    Case {
        words: "schedule e1.rcp --calendar c.txt",
        files: &[("e1.rcp", SIX), ("c.txt", EMPTY)],
        status: 1,
        out: EMPTY,
        note: Lines(&["rcpsp: c.txt: text ends at 0"]),
    },
    Case {
        words: "schedule e1.rcp --calendar c.txt",
        files: &[("e1.rcp", SIX), ("c.txt", Cut(&["0 7"]))],
        status: 1,
        out: EMPTY,
        note: Lines(&["rcpsp: c.txt: text after the end at 2"]),
    },
    Case {
        words: "schedule e1.rcp --calendar c.txt --list l.txt",
        files: &[("e1.rcp", SIX)],
        status: 5,
        out: EMPTY,
        note: Lines(&["rcpsp: cannot read l.txt"]),
    },
    Case {
        words: "schedule e1.rcp --calendar c.txt --list l.txt",
        files: &[("e1.rcp", SIX), ("l.txt", Cut(&["x"]))],
        status: 5,
        out: EMPTY,
        note: Lines(&["rcpsp: cannot read c.txt"]),
    },
    Case {
        words: "schedule e1.rcp --calendar c.txt --list l.txt",
        files: &[
            ("e1.rcp", SIX),
            ("l.txt", Cut(&["1 x"])),
            ("c.txt", Cut(&["x"])),
        ],
        status: 1,
        out: EMPTY,
        note: Lines(&["rcpsp: l.txt: not a number at 2"]),
    },
    Case {
        words: "schedule e1.rcp --calendar c.txt --list l.txt",
        files: &[
            ("e1.rcp", SIX),
            ("l.txt", Cut(&["2"])),
            ("c.txt", Cut(&["x"])),
        ],
        status: 1,
        out: EMPTY,
        note: Lines(&["rcpsp: c.txt: not a number at 0"]),
    },
    Case {
        words: "schedule ring.rcp --calendar c.txt",
        files: &[("ring.rcp", LOOP), ("c.txt", Cut(&["1 1 1 1"]))],
        status: 1,
        out: EMPTY,
        note: Lines(&["rcpsp: c.txt: resource out of range at 2"]),
    },
    Case {
        words: "schedule ring.rcp --calendar c.txt",
        files: &[("ring.rcp", LOOP), ("c.txt", Cut(&["0"]))],
        status: 1,
        out: EMPTY,
        note: Lines(&["rcpsp: cycle 1 1"]),
    },
    Case {
        words: "schedule - --format rcp --calendar -",
        files: &[("-", SIX)],
        status: 2,
        out: EMPTY,
        note: NOT_UNDERSTOOD,
    },
];

#[test]
fn schedules_go_round_a_calendar(rt: HostRuntime) -> Result<(), Fail> {
    each_comes_true(&rt, rt.alloc(), SHOWN)
}

#[test]
fn calendars_are_refused_in_their_order(rt: HostRuntime) -> Result<(), Fail> {
    each_comes_true(&rt, rt.alloc(), REFUSED)
}
