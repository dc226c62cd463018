//! A benchmark of schedules: `scheme_bench MODE ROUNDS FILE [WORKERS]` works on the instance of a
//! Patterson file so many times, prints a number and ends with 0, or ends with 1 where it cannot.
//!
//! The schedules of the list by number: `line`, all on one line, or `fresh`, each on a line of its own
//! with its memory, or `book`, each through a book of its own by the given number of workers. They
//! print the rounds; `late` prints how many of the searches ahead in such books end too late. `table`
//! prints the table of one on a line, and `descend` the makespan after so many rounds of descent from
//! that list. `every` makes every call that takes no memory.
//!
//! The samples from 0 on, by seed 1: `list` makes their lists and prints the rounds; `sample` books
//! them too and prints the sum of their makespans; `values` prints the same sum, which as many threads
//! as there are processors make; `best` prints the makespan of the best one, which the given number of
//! workers finds.
//!
//! The scripts of `benches/` count its instructions and take its time, and `.ci/memory.py` counts its
//! allocations.
#![tactic(auto)]

mod book;
mod every;
mod rounds;
mod samples;
mod whole;

use activity_net::Net;
use book::{in_books, late_searches};
use every::every_call;
use patterson_read::read_rcp;
use priority_rules::list_by_number;
use rc_edge::{Files, RealFiles, RealOut, fetch_one, put_all};
use rc_instance::limits::MAX_FILE_BYTES;
use rounds::{on_fresh_lines, on_line};
use samples::{best_of_samples, choose_lists, sum_of_samples, sum_of_values};
use std::alloc::Global;
use std::process::ExitCode;
use std::thread::Threads;
use std::{env, rt};
use whole::{descended, table_on_line};

fn main(rt: HostRuntime) -> ExitCode {
    let mut files = RealFiles::new(&rt);
    let mut out = RealOut::new(rt.stdout());
    let Some(words) = words_of(&rt) else {
        return ExitCode::from(1);
    };
    let Some(text) = bench(&rt, rt.alloc(), &words, &mut files) else {
        return ExitCode::from(1);
    };
    match put_all(&mut out, &text) {
        Ok(()) => ExitCode::from(0),
        Err(_) => ExitCode::from(1),
    }
}

// The words without the program's name.
fn words_of<R: rt::Env + AllocGlobal>(rt: &R) -> Option<Vec<String>> {
    let mut words = Vec::new(rt.alloc());
    for word in env::args(rt).ok()?.skip(1) {
        words.push(word).ok()?;
    }
    Some(words)
}

// What is printed of the rounds that the words say.
fn bench<F: Files>(
    rt: &(impl Threads + Sync),
    alloc: Global,
    words: &[String],
    files: &mut F,
) -> Option<Vec<u8>> {
    let [mode, rounds, file, rest @ ..] = words else {
        return None;
    };
    let rounds = rounds.parse::<u32>().ok()?;
    let text = fetch_one(alloc, file.as_str(), MAX_FILE_BYTES as usize, files).ok()?;
    let net = Net::of(alloc, read_rcp(alloc, &text).ok()?).ok()?;
    if mode.as_str() == "table" {
        return table_on_line(alloc, &net);
    }
    let number = number_of(rt, alloc, mode.as_str(), rounds, &net, rest)?;
    let line = format!(in alloc; "{number}\n").ok()?;
    Some(line.into_bytes())
}

// The number that a mode prints of so many rounds; the other words tell how many workers there are.
fn number_of(
    rt: &(impl Threads + Sync),
    alloc: Global,
    mode: &str,
    rounds: u32,
    net: &Net,
    rest: &[String],
) -> Option<u64> {
    match mode {
        "line" => on_line(alloc, &list_by_number(alloc, net).ok()?, rounds),
        "fresh" => on_fresh_lines(alloc, &list_by_number(alloc, net).ok()?, rounds),
        "book" => in_books(rt, alloc, net, rounds, workers_in(rest)?),
        "late" => late_searches(rt, alloc, net, rounds, workers_in(rest)?),
        "descend" => descended(alloc, net, rounds),
        "every" => every_call(alloc, net, rounds),
        "list" => choose_lists(alloc, net, rounds),
        "sample" => sum_of_samples(alloc, net, rounds),
        "values" => sum_of_values(rt, alloc, net, rounds),
        "best" => best_of_samples(rt, alloc, net, rounds, workers_in(rest)?),
        _ => None,
    }
}

// The number of workers that stands first in some words.
fn workers_in(words: &[String]) -> Option<u32> {
    words.first()?.parse::<u32>().ok()
}
