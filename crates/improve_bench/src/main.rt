//! A benchmark of forward-backward improvement: `improve_bench TIMES FILE` schedules the instance of a
//! Patterson file by the list by number, improves this schedule so many times, and prints the starts
//! of both, a line each. It ends with 0, or with 1 where it cannot.
//!
//! `benches/improve.py` counts its instructions, and compares its starts with those of another
//! implementation.
#![tactic(auto)]

mod times;

use activity_net::Net;
use patterson_read::read_rcp;
use priority_rules::list_by_number;
use rc_edge::{Files, RealFiles, fetch_one};
use rc_instance::Schedule;
use rc_instance::limits::{MAX_ACTIVITIES, MAX_FILE_BYTES};
use std::alloc::Global;
use std::process::ExitCode;
use std::{env, io, rt};
use times::{Improvement, both};

fn main(rt: HostRuntime) -> ExitCode {
    let mut files = RealFiles::new(&rt);
    let Some(words) = words_of(&rt) else {
        return ExitCode::from(1);
    };
    let Some(both) = bench(rt.alloc(), &words, &mut files) else {
        return ExitCode::from(1);
    };
    match show(&rt, &both) {
        Ok(()) => ExitCode::from(0),
        Err(_) => ExitCode::from(1),
    }
}

// The words without the program's name.
fn words_of<R: rt::Env + AllocGlobal>(rt: &R) -> Option<Vec<String>> {
    let mut words = Vec::new(rt.alloc());
    for word in env::args(rt).ok()?.skip(1) {
        words.push(word).ok()?;
    }
    Some(words)
}

// The schedule of the file that the words name, and the improved one.
fn bench<F: Files>(alloc: Global, words: &[String], files: &mut F) -> Option<Improvement> {
    let [times, file] = words else {
        return None;
    };
    let times = times.parse::<u32>().ok()?;
    let text = fetch_one(alloc, file.as_str(), MAX_FILE_BYTES as usize, files).ok()?;
    let net = Net::of(alloc, read_rcp(alloc, &text).ok()?).ok()?;
    let list = list_by_number(alloc, &net).ok()?;
    both(alloc, &list, times)
}

// Prints both.
fn show(rt: &impl Print, both: &Improvement) -> io::Result<()> {
    show_starts(rt, &both.first)?;
    show_starts(rt, &both.better)
}

// Prints the starts of a schedule in one line.
fn show_starts(rt: &impl Print, schedule: &Schedule) -> io::Result<()> {
    for place in 0..schedule.count().min(MAX_ACTIVITIES as usize) {
        print!(rt; "{} ", schedule.start(place as u32 + 1))?;
    }
    println!(rt; "")
}
