use crate::case::{Case, each_comes_true};
use crate::fixtures::{EMPTY, LOOP, MISFIT, NOT_UNDERSTOOD, SIX, SIX_BY_SAMPLE, SIX_CSV, SIX_SM};
use crate::text::Text::Lines;
use std::test::Fail;

static CASES: &[Case] = &[
    Case {
        words: "sample e1.rcp --seed 42 --from 54 --count 1",
        files: &[("e1.rcp", SIX)],
        status: 0,
        out: SIX_BY_SAMPLE,
        note: EMPTY,
    },
    Case {
        words: "sample e1.sm --seed 42 --from 54 --count 10 --workers 4",
        files: &[("e1.sm", SIX_SM)],
        status: 0,
        out: SIX_BY_SAMPLE,
        note: EMPTY,
    },
    Case {
        words: "sample e1.rcp --seed 42 --from 54 --count 10 --workers=64 --as chart",
        files: &[("e1.rcp", SIX)],
        status: 0,
        out: Lines(&[
            "column 1",
            "   1 ......",
            "   2 ###...",
            "   3 ...##.",
            "   4 ...##.",
            "   5 .....#",
            "   6 ......",
            "makespan 6",
            "sample 54",
        ]),
        note: EMPTY,
    },
    Case {
        words: "sample e1.rcp --seed 42 --from 54 --count 10 --improve",
        files: &[("e1.rcp", SIX)],
        status: 0,
        out: SIX_BY_SAMPLE,
        note: EMPTY,
    },
    Case {
        words: "sample e1.rcp --seed 42 --from 54 --as csv",
        files: &[("e1.rcp", SIX)],
        status: 0,
        out: SIX_CSV,
        note: EMPTY,
    },
    Case {
        words: "sample e1.rcp --seed 42 --from 54 --count 1 --all",
        files: &[("e1.rcp", SIX)],
        status: 0,
        out: Lines(&["sample,makespan", "54,6"]),
        note: EMPTY,
    },
    Case {
        words: "sample e1.rcp --all --from 4294967295 --count 1",
        files: &[("e1.rcp", SIX)],
        status: 0,
        out: Lines(&["sample,makespan", "4294967295,6"]),
        note: EMPTY,
    },
    Case {
        words: "sample e1.rcp --all --count 003",
        files: &[("e1.rcp", SIX)],
        status: 0,
        out: Lines(&["sample,makespan", "0,6", "1,6", "2,6"]),
        note: EMPTY,
    },
    Case {
        words: "sample e1.rcp --all --from 4294967295 --count 2",
        files: &[("e1.rcp", SIX)],
        status: 2,
        out: EMPTY,
        note: NOT_UNDERSTOOD,
    },
    Case {
        words: "sample e1.rcp --all --as table",
        files: &[("e1.rcp", SIX)],
        status: 2,
        out: EMPTY,
        note: NOT_UNDERSTOOD,
    },
    Case {
        words: "sample e1.rcp --all --improve",
        files: &[("e1.rcp", SIX)],
        status: 2,
        out: EMPTY,
        note: NOT_UNDERSTOOD,
    },
    Case {
        words: "sample e1.rcp --all --live 3",
        files: &[("e1.rcp", SIX)],
        status: 2,
        out: EMPTY,
        note: NOT_UNDERSTOOD,
    },
    Case {
        words: "sample e1.rcp --workers 65",
        files: &[("e1.rcp", SIX)],
        status: 2,
        out: EMPTY,
        note: NOT_UNDERSTOOD,
    },
    Case {
        words: "sample ring.rcp --all",
        files: &[("ring.rcp", LOOP)],
        status: 1,
        out: EMPTY,
        note: Lines(&["rcpsp: cycle 1 1"]),
    },
    Case {
        words: "sample one.rcp",
        files: &[("one.rcp", MISFIT)],
        status: 3,
        out: EMPTY,
        note: Lines(&["rcpsp: activity 1 needs 5 of resource 1, capacity 2"]),
    },
];

#[test]
fn samples_are_printed_or_refused(rt: HostRuntime) -> Result<(), Fail> {
    each_comes_true(&rt, rt.alloc(), CASES)
}
