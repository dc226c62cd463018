//! `rcpsp_many` schedules many files, each alone, by several workers, and prints what they come to in order.
//!
//! It gives the words of the command line to [`batch_line::exit_code`], over the real files, standard
//! output and standard error, and ends with the code that it answers.
#![tactic(auto)]

use batch_line::exit_code;
use rc_edge::{NoGate, RealFiles, RealNote, RealOut};
use rcpsp_run::Given;
use std::process::ExitCode;
use std::rt::Env;
use std::{env, io};

fn main(rt: HostRuntime) -> ExitCode {
    let mut files = RealFiles::new(&rt);
    let mut out = RealOut::new(rt.stdout());
    let mut note = RealNote::new(rt.stderr());
    let given = Given::of(words_of(&rt));
    let code = exit_code(
        &rt,
        rt.alloc(),
        given,
        &mut files,
        &mut out,
        &mut note,
        &NoGate,
    );
    ExitCode::from(code)
}

// The words without the program's name. An error is a word that is no UTF-8, `InvalidData`, or want of memory.
fn words_of<R: Env + AllocGlobal>(rt: &R) -> io::Result<Vec<String>> {
    let mut words = Vec::new(rt.alloc());
    for word in env::args(rt)?.skip(1) {
        words.push(word)?;
    }
    Ok(words)
}
