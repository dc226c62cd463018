use crate::case::{file, run_line};
use crate::fixtures::{SIX, SIX_TABLE};
use rc_edge::MemSink;
use std::alloc::Global;
use std::test::Fail;

// How many activities and resources there are, each capacity, and the note, which is empty where
// the instance is within its limits.
static SIZES: [(u32, u32, u32, &str); 6] = [
    (1000, 16, 65_535, ""),
    (1, 0, 0, ""),
    (0, 16, 65_535, "rcpsp: i.rcp: no activity at 0\n"),
    (1001, 16, 65_535, "rcpsp: i.rcp: too many activities at 0\n"),
    (1000, 17, 65_535, "rcpsp: i.rcp: too many resources at 5\n"),
    (1000, 16, 65_536, "rcpsp: i.rcp: capacity too large at 8\n"),
];

#[test]
fn an_instance_may_be_as_large_as_its_limits_and_no_larger(rt: HostRuntime) -> Result<(), Fail> {
    let alloc = rt.alloc();
    for (activities, resources, capacity, note) in &SIZES {
        let text = idle(alloc, *activities, *resources, *capacity)?;
        let files = vec![in alloc; file(alloc, "i.rcp", text.as_bytes())?]?;
        let mut out = MemSink::new(alloc, 100_000, 100_000, Vec::new(alloc))?;
        let ran = run_line(&rt, alloc, "convert i.rcp --to rcp", files, &mut out)?;
        assert_eq!(rt; ran.note.as_str(), *note);
        if note.is_empty() {
            assert_eq!(rt; ran.status, 0, "{activities} activities");
            assert_eq!(rt; ran.out, text, "{activities} activities");
        } else {
            assert_eq!(rt; ran.status, 1, "{note}");
            assert_eq!(rt; ran.out.len(), 0, "{note}");
        }
    }
    Ok(())
}

// An instance whose activities take no time and demand nothing, as it is written.
fn idle(alloc: Global, activities: u32, resources: u32, capacity: u32) -> Result<String, Fail> {
    let mut text = format!(in alloc; "{activities} {resources}\n")?;
    for resource in 0..resources {
        let before = if resource == 0 { "" } else { " " };
        write!(text, "{before}{capacity}")?;
    }
    text.push_str("\n")?;
    for _ in 0..activities {
        text.push_str("0 ")?;
        for _ in 0..resources {
            text.push_str("0 ")?;
        }
        text.push_str("0\n")?;
    }
    Ok(text)
}

// A calendar of so many changes, each to the capacity that there is.
fn unchanging(alloc: Global, changes: u32) -> Result<String, Fail> {
    let mut text = format!(in alloc; "{changes}\n")?;
    for period in 0..changes {
        write!(text, "1 {} 2\n", period + 1)?;
    }
    Ok(text)
}

#[test]
fn a_calendar_may_have_so_many_changes_and_no_more(rt: HostRuntime) -> Result<(), Fail> {
    let alloc = rt.alloc();
    let six = SIX.whole(alloc)?;
    let table = SIX_TABLE.whole(alloc)?;
    for (changes, status, out, note) in [
        (1000, 0, table.as_str(), ""),
        (1001, 1, "", "rcpsp: c.txt: too many changes at 0\n"),
    ] {
        let calendar = unchanging(alloc, changes)?;
        let six = file(alloc, "e1.rcp", six.as_bytes())?;
        let calendar = file(alloc, "c.txt", calendar.as_bytes())?;
        let files = vec![in alloc; six, calendar]?;
        let mut sink = MemSink::new(alloc, 10_000, 10_000, Vec::new(alloc))?;
        let ran = run_line(
            &rt,
            alloc,
            "schedule e1.rcp --calendar c.txt",
            files,
            &mut sink,
        )?;
        assert_eq!(rt; ran.status, status, "{changes} changes");
        assert_eq!(rt; ran.out.as_str(), out, "{changes} changes");
        assert_eq!(rt; ran.note.as_str(), note, "{changes} changes");
    }
    Ok(())
}
