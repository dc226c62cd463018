use crate::case::{Case, each_comes_true};
use crate::fixtures::{EMPTY, NOT_UNDERSTOOD, SIX};
use std::test::Fail;

static CASES: &[Case] = &[
    Case {
        words: "",
        files: &[("e1.rcp", SIX)],
        status: 2,
        out: EMPTY,
        note: NOT_UNDERSTOOD,
    },
    Case {
        words: "plan e1.rcp",
        files: &[("e1.rcp", SIX)],
        status: 2,
        out: EMPTY,
        note: NOT_UNDERSTOOD,
    },
    Case {
        words: "schedule",
        files: &[("e1.rcp", SIX)],
        status: 2,
        out: EMPTY,
        note: NOT_UNDERSTOOD,
    },
    Case {
        words: "schedule e1.txt",
        files: &[("e1.rcp", SIX)],
        status: 2,
        out: EMPTY,
        note: NOT_UNDERSTOOD,
    },
    Case {
        words: "convert e1.rcp",
        files: &[("e1.rcp", SIX)],
        status: 2,
        out: EMPTY,
        note: NOT_UNDERSTOOD,
    },
    Case {
        words: "check e1.rcp",
        files: &[("e1.rcp", SIX)],
        status: 2,
        out: EMPTY,
        note: NOT_UNDERSTOOD,
    },
    Case {
        words: "windows e1.rcp --as table",
        files: &[("e1.rcp", SIX)],
        status: 2,
        out: EMPTY,
        note: NOT_UNDERSTOOD,
    },
    Case {
        words: "schedule e1.rcp --as bars",
        files: &[("e1.rcp", SIX)],
        status: 2,
        out: EMPTY,
        note: NOT_UNDERSTOOD,
    },
    Case {
        words: "schedule e1.rcp --workers 0",
        files: &[("e1.rcp", SIX)],
        status: 2,
        out: EMPTY,
        note: NOT_UNDERSTOOD,
    },
    Case {
        words: "schedule e1.rcp --workers 65",
        files: &[("e1.rcp", SIX)],
        status: 2,
        out: EMPTY,
        note: NOT_UNDERSTOOD,
    },
    Case {
        words: "schedule e1.rcp --live 0",
        files: &[("e1.rcp", SIX)],
        status: 2,
        out: EMPTY,
        note: NOT_UNDERSTOOD,
    },
    Case {
        words: "schedule e1.rcp --live 1001",
        files: &[("e1.rcp", SIX)],
        status: 2,
        out: EMPTY,
        note: NOT_UNDERSTOOD,
    },
    Case {
        words: "check - - --format rcp",
        files: &[("-", SIX)],
        status: 2,
        out: EMPTY,
        note: NOT_UNDERSTOOD,
    },
];

#[test]
fn words_that_are_not_understood_are_refused(rt: HostRuntime) -> Result<(), Fail> {
    each_comes_true(&rt, rt.alloc(), CASES)
}
