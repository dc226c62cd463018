use crate::case::{Case, each_comes_true};
use crate::fixtures::{EMPTY, LOOP, MISFIT, SIX, SIX_SM, SIX_WINDOWS};
use crate::text::Text::Lines;
use std::test::Fail;

static CASES: &[Case] = &[
    Case {
        words: "windows e1.rcp",
        files: &[("e1.rcp", SIX)],
        status: 0,
        out: SIX_WINDOWS,
        note: EMPTY,
    },
    Case {
        words: "windows e1.sm",
        files: &[("e1.sm", SIX_SM)],
        status: 0,
        out: SIX_WINDOWS,
        note: EMPTY,
    },
    Case {
        words: "windows ring.rcp",
        files: &[("ring.rcp", LOOP)],
        status: 1,
        out: EMPTY,
        note: Lines(&["rcpsp: cycle 1 1"]),
    },
    Case {
        words: "windows one.rcp",
        files: &[("one.rcp", MISFIT)],
        status: 0,
        out: Lines(&[
            "activity  earliest    latest",
            "       1         0         0",
            "critical 1",
            "capacity 0",
        ]),
        note: EMPTY,
    },
];

#[test]
fn windows_are_printed_or_refused(rt: HostRuntime) -> Result<(), Fail> {
    each_comes_true(&rt, rt.alloc(), CASES)
}
