//! What each command does: one file each, and the dispatch.
ghost use Rattle.std.specs.Prelude.{◌≡◌, ◌≢◌, false, Err, IfOk};
ghost use Rattle.rcpsp_run.specs.declared.refusal.Refusal.TheVariants.{Words};
ghost use Rattle.rcpsp_run.specs.Answer.{answer_view};
ghost use Rattle.rcpsp_run.specs.Commands.{command_names, IsPrintedBy};
ghost use Rattle.rcpsp_run.specs.Outcome.{command_outcome};
ghost use Rattle.rcpsp_run.specs.Causes.{Comes};
ghost use Rattle.rcpsp_run.specs.Live.{live_asked, NotesLive};

mod check;
mod convert;
mod parallel;
mod sample;
mod schedule;
mod trial;
mod windows;

use crate::answer::Answer;
use crate::fetch::fetch;
use crate::refusal::Refusal;
use check::check_answer;
use convert::convert_answer;
use parallel::{parallel_answer, parallel_names};
use rc_edge::{Files, Gate, Sink};
use rcpsp_words::Command;
use sample::sample_answer;
use schedule::{schedule_answer, schedule_names};
use std::alloc::Global;
use std::thread::Threads;
use trial::trial_answer;
use windows::windows_answer;

/// What a command comes to: its files are fetched, and then their texts are read.
pub(crate) fn carry_out<R: Threads + Sync, F: Files, N: Sink + Send, G: Gate + Sync>(
    rt: &R,
    alloc: Global,
    command: &Command,
    files: &mut F,
    note: &mut N,
    failed: &mut bool,
    gate: &G,
) -> Result<Answer, Refusal>
    requires { failed.old ≡ false }
    ensures comes { Comes answer_view (command_names command.now)
        (λ pairs. command_outcome pairs command.now)
        (record {
          told = F.told files.old;
          failing = F.failing files.old;
          faults = F.faults files.old;
          long = F.long files.old;
          fetches = F.fetches files.old;
        })
        (record {
          told = F.told files.new;
          failing = F.failing files.new;
          faults = F.faults files.new;
          long = F.long files.new;
          fetches = F.fetches files.new;
        }) result }
    ensures printed { IfOk result (λ answer. IsPrintedBy command.now (answer_view answer)) }
    ensures understood { result ≢ Err Words }
    ensures noted { NotesLive (λ answer. (answer_view answer).live) (live_asked command.now)
        (record {
          held = N.held note.old;
          faults = N.faults note.old;
          failing = N.failing note.old;
          room = N.room note.old;
        })
        (record {
          held = N.held note.new;
          faults = N.faults note.new;
          failing = N.failing note.new;
          room = N.room note.new;
        }) failed.new result }
    ensures failing { N.failing note.new ≡ N.failing note.old }
    ensures room { N.room note.new ≡ N.room note.old }
{
    match command {
        Command::Schedule(command) => {
            let names = schedule_names(alloc, command)?;
            let texts = fetch(alloc, &names, files)?;
            schedule_answer(rt, alloc, command, &texts, note, failed, gate)
        }
        Command::Parallel(command) => {
            let names = parallel_names(alloc, command)?;
            let texts = fetch(alloc, &names, files)?;
            parallel_answer(alloc, command, &texts)
        }
        Command::Sample(command) => {
            let texts = fetch(alloc, &[command.file.text()], files)?;
            sample_answer(rt, alloc, command, &texts, note, failed, gate)
        }
        Command::Check(command) => {
            let names = [command.file.text(), command.plan.text()];
            let texts = fetch(alloc, &names, files)?;
            check_answer(alloc, command, &texts)
        }
        Command::Convert(command) => {
            let texts = fetch(alloc, &[command.file.text()], files)?;
            convert_answer(alloc, command, &texts)
        }
        Command::Windows(command) => {
            let texts = fetch(alloc, &[command.file.text()], files)?;
            windows_answer(alloc, command, &texts)
        }
        Command::Trial(command) => trial_answer(rt, alloc, command, gate),
    }
}
