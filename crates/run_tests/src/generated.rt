use crate::case::{file, run_line};
use rc_edge::MemSink;
use std::alloc::Global;
use std::test::Fail;
use std::thread::Threads;

// An instance of so many activities and 4 resources, in the Patterson format.
fn generated(alloc: Global, count: u32) -> Result<String, Fail> {
    let mut text = format!(in alloc; "{count} 4\n12 9 15 20\n")?;
    for index in 0..count {
        let duration = index % 11;
        let first = index % 7;
        let second = index % 5;
        write!(text, "{duration} {first} {second} 8 0")?;
        if index + 1 < count {
            let next = (index.saturating_add(2 + index % 3)).min(count);
            write!(text, " 1 {next}\n")?;
        } else {
            text.push_str(" 0\n")?;
        }
    }
    Ok(text)
}

// The output of a run that is done.
fn output(
    rt: &(impl Threads + Sync),
    alloc: Global,
    line: &str,
    files: Vec<(String, Vec<u8>)>,
) -> Result<String, Fail> {
    let mut out = MemSink::new(alloc, 100_000, 100_000, Vec::new(alloc))?;
    let ran = run_line(rt, alloc, line, files, &mut out)?;
    if ran.status == 0 {
        Ok(ran.out)
    } else {
        Err(Fail::from("the run is not done"))
    }
}

#[test]
fn generated_instances_go_through_both_formats_and_the_check(rt: HostRuntime) -> Result<(), Fail> {
    let alloc = rt.alloc();
    for count in [2, 30, 122] {
        let text = generated(alloc, count)?;
        let rcp = file(alloc, "g.rcp", text.as_bytes())?;
        let sm = output(&rt, alloc, "convert g.rcp --to sm", vec![in alloc; rcp]?)?;
        let written = file(alloc, "g.sm", sm.as_bytes())?;
        let again = output(
            &rt,
            alloc,
            "convert g.sm --to rcp",
            vec![in alloc; written]?,
        )?;
        assert_eq!(rt; again, text);
        let rcp = file(alloc, "g.rcp", text.as_bytes())?;
        let csv = output(
            &rt,
            alloc,
            "schedule g.rcp --rule lft --as csv",
            vec![in alloc; rcp]?,
        )?;
        let plan = file(alloc, "plan.csv", csv.as_bytes())?;
        let written = file(alloc, "g.sm", sm.as_bytes())?;
        let line = output(
            &rt,
            alloc,
            "check g.sm plan.csv",
            vec![in alloc; written, plan]?,
        )?;
        assert!(rt; line.starts_with("ok makespan "));
    }
    Ok(())
}
