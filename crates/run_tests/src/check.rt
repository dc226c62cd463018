use crate::case::{Case, each_comes_true};
use crate::fixtures::{EMPTY, SIX, SIX_CSV};
use crate::text::Text::{Crlf, Cut, Lines};
use std::test::Fail;

static CASES: &[Case] = &[
    Case {
        words: "check e1.rcp p.csv",
        files: &[
            ("e1.rcp", SIX),
            (
                "p.csv",
                Lines(&["activity,start", "1,0", "2,0", "3,3", "4,3", "5,5", "6,6"]),
            ),
        ],
        status: 0,
        out: Lines(&["ok makespan 6"]),
        note: EMPTY,
    },
    Case {
        words: "check e1.rcp p.csv",
        files: &[
            ("e1.rcp", SIX),
            (
                "p.csv",
                Lines(&["activity,start", "1,0", "2,0", "3,2", "4,3", "5,5", "6,6"]),
            ),
        ],
        status: 4,
        out: Lines(&["violation: resource 1 is used 3 of 2 in period 2"]),
        note: EMPTY,
    },
    Case {
        words: "check e1.rcp p.csv",
        files: &[
            ("e1.rcp", SIX),
            (
                "p.csv",
                Lines(&["activity,start", "1,0", "2,0", "3,3", "5,5", "6,6"]),
            ),
        ],
        status: 4,
        out: Lines(&["violation: activity 4 is missing"]),
        note: EMPTY,
    },
    Case {
        words: "check e1.rcp p.csv",
        files: &[("e1.rcp", SIX), ("p.csv", Lines(&["activity,start"]))],
        status: 4,
        out: Lines(&["violation: activity 1 is missing"]),
        note: EMPTY,
    },
    Case {
        words: "check e1.rcp p.csv",
        files: &[("e1.rcp", SIX), ("p.csv", EMPTY)],
        status: 1,
        out: EMPTY,
        note: Lines(&["rcpsp: p.csv: not a header in record 1"]),
    },
    Case {
        words: "check e1.rcp p.csv",
        files: &[
            ("e1.rcp", SIX),
            (
                "p.csv",
                Lines(&["activity,start", "1,0", "2,0", "9,0", "2,0"]),
            ),
        ],
        status: 4,
        out: Lines(&["violation: activity 9 is unknown"]),
        note: EMPTY,
    },
    Case {
        words: "check e1.rcp p.csv",
        files: &[
            ("e1.rcp", SIX),
            (
                "p.csv",
                Lines(&["activity,start", "1,0", "2,0", "2,0", "9,0"]),
            ),
        ],
        status: 4,
        out: Lines(&["violation: activity 2 comes twice"]),
        note: EMPTY,
    },
    Case {
        words: "check e1.rcp p.csv",
        files: &[("e1.rcp", SIX), ("p.csv", Lines(&["activity,start", "1"]))],
        status: 1,
        out: EMPTY,
        note: Lines(&["rcpsp: p.csv: too few fields in record 2"]),
    },
    Case {
        words: "check e1.rcp p.csv",
        files: &[("e1.rcp", SIX), ("p.csv", Lines(&["activity,start", "x"]))],
        status: 1,
        out: EMPTY,
        note: Lines(&["rcpsp: p.csv: not a number in record 2"]),
    },
    Case {
        words: "check e1.rcp p.csv",
        files: &[
            ("e1.rcp", SIX),
            ("p.csv", Lines(&["activity,start", "1,4294967296"])),
        ],
        status: 1,
        out: EMPTY,
        note: Lines(&["rcpsp: p.csv: number too large in record 2"]),
    },
    Case {
        words: "check e1.rcp p.csv",
        files: &[
            ("e1.rcp", SIX),
            (
                "p.csv",
                Lines(&["activity,start", "1,0", "2,0", "3,3", "4,3", "5,2", "6,6"]),
            ),
        ],
        status: 4,
        out: Lines(&["violation: activity 5 starts before predecessor 2 ends"]),
        note: EMPTY,
    },
    Case {
        words: "check e1.rcp p.csv",
        files: &[
            ("e1.rcp", SIX),
            (
                "p.csv",
                Crlf(&[
                    "\"activity\",\"start\",note",
                    "",
                    "1,\"0\"",
                    "2,0,first",
                    "3,3",
                    "4,3",
                    "5,5",
                    "6,6",
                ]),
            ),
        ],
        status: 0,
        out: Lines(&["ok makespan 6"]),
        note: EMPTY,
    },
    Case {
        words: "check e1.rcp p.csv",
        files: &[
            ("e1.rcp", SIX),
            (
                "p.csv",
                Lines(&[
                    "activity,start",
                    "1,0",
                    "2,0",
                    "3,3",
                    "4,3",
                    "5,5",
                    "6,4294967295",
                ]),
            ),
        ],
        status: 0,
        out: Lines(&["ok makespan 4294967295"]),
        note: EMPTY,
    },
    Case {
        words: "check e1.rcp p.csv",
        files: &[("e1.rcp", SIX), ("p.csv", SIX_CSV)],
        status: 0,
        out: Lines(&["ok makespan 6"]),
        note: EMPTY,
    },
    Case {
        words: "check ring.rcp p.csv",
        files: &[
            ("ring.rcp", Cut(&["2 0 0 1 2 0 1 1"])),
            ("p.csv", Lines(&["activity,start", "1,3", "2,3"])),
        ],
        status: 0,
        out: Lines(&["ok makespan 3"]),
        note: EMPTY,
    },
    Case {
        words: "check e1.rcp q.csv",
        files: &[("e1.rcp", SIX), ("p.csv", EMPTY)],
        status: 5,
        out: EMPTY,
        note: Lines(&["rcpsp: cannot read q.csv"]),
    },
    Case {
        words: "check - p.csv --format rcp",
        files: &[("-", SIX), ("p.csv", SIX_CSV)],
        status: 0,
        out: Lines(&["ok makespan 6"]),
        note: EMPTY,
    },
];

#[test]
fn plans_are_checked(rt: HostRuntime) -> Result<(), Fail> {
    each_comes_true(&rt, rt.alloc(), CASES)
}
