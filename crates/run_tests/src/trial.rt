use crate::case::{Case, each_comes_true};
use crate::fixtures::{EMPTY, NOT_UNDERSTOOD};
use crate::text::Text::{self, Lines};
use std::test::Fail;

// The summary of a large instance, whatever the number of workers.
const LARGE: Text = Lines(&[
    "trial 7",
    "activities 1000",
    "resources 16",
    "critical 143",
    "capacity 2825",
    "makespan 3875",
    "starts 1810751",
]);

static CASES: &[Case] = &[
    Case {
        words: "trial --number 42 --activities 3 --resources 1",
        files: &[],
        status: 0,
        out: Lines(&[
            "trial 42",
            "activities 3",
            "resources 1",
            "critical 8",
            "capacity 3",
            "makespan 8",
            "starts 8",
        ]),
        note: EMPTY,
    },
    Case {
        words: "trial --number 1 --activities 2 --resources 0",
        files: &[],
        status: 0,
        out: Lines(&[
            "trial 1",
            "activities 2",
            "resources 0",
            "critical 0",
            "capacity 0",
            "makespan 0",
            "starts 0",
        ]),
        note: EMPTY,
    },
    Case {
        words: "trial --number 7 --activities 1000 --resources 16 --workers 1",
        files: &[],
        status: 0,
        out: LARGE,
        note: EMPTY,
    },
    Case {
        words: "trial --workers=4 --resources=16 --activities=1000 --number=007",
        files: &[],
        status: 0,
        out: LARGE,
        note: EMPTY,
    },
    Case {
        words: "trial --number 7 --activities 1000 --resources 16 --workers 64 --rule number",
        files: &[],
        status: 0,
        out: LARGE,
        note: EMPTY,
    },
    Case {
        words: "trial --activities 1",
        files: &[],
        status: 2,
        out: EMPTY,
        note: NOT_UNDERSTOOD,
    },
    Case {
        words: "trial e1.rcp",
        files: &[],
        status: 2,
        out: EMPTY,
        note: NOT_UNDERSTOOD,
    },
];

#[test]
fn instances_are_made_and_scheduled(rt: HostRuntime) -> Result<(), Fail> {
    each_comes_true(&rt, rt.alloc(), CASES)
}
