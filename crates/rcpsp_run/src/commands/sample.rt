ghost use Rattle.std.specs.Prelude.{◌≡◌, ◌≤◌, ◌++◌, false, length, map, All, Ok, IfErr, IfOk, OnOk};
ghost use Rattle.rc_instance.specs.declared.limits.TheConstants.{MAX_FILE_BYTES, MAX_HORIZON};
ghost use Rattle.rc_instance.specs.Misfit.{HasNoMisfit};
ghost use Rattle.rc_instance.specs.Schedule.{makespan, IsFeasible};
ghost use Rattle.key_sampling.specs.Best.{best_of};
ghost use Rattle.key_sampling.specs.Samples.{sample_values};
ghost use Rattle.rcpsp_run.specs.Answer.{answer_view};
ghost use Rattle.rcpsp_run.specs.Causes.{IsOfTexts, Gives};
ghost use Rattle.rcpsp_run.specs.Commands.Schedule.{text_in};
ghost use Rattle.rcpsp_run.specs.Commands.Sample.{sample_names, samples_told, sample_answer, PrintsSample};
ghost use Rattle.rcpsp_run.specs.Live.{live_shown, NotesLive};
ghost use Rattle.rcpsp_run.specs.Steps.Improvement.{improved_if};
ghost use Rattle.rcpsp_run.specs.Steps.Samples.{sample_line, values_text};

use crate::answer::Answer;
use crate::commands::schedule::text_in;
use crate::refusal::Refusal;
use crate::steps::improvement::improved_if;
use crate::steps::instance::instance_in;
use crate::steps::misfit::fitting;
use crate::steps::network::net_of;
use crate::steps::told::{lines_for, told_serial};
use activity_net::Net;
use key_sampling::{best_sample, list_of_sample, sample_values};
use rc_edge::{Gate, Sink};
use rc_instance::{Memory, Schedule};
use rcpsp_words::commands::SampleCommand;
use rcpsp_words::{Form, Shown};
use std::alloc::Global;
use std::thread::Threads;
use time_windows::Windows;

/// What `sample` makes of the text of its file.
#[tactic(auto, unfolding(crate::specs::Commands::Sample::sample_answer))]
pub(crate) fn sample_answer<R: Threads + Sync, N: Sink + Send, G: Gate + Sync>(
    rt: &R,
    alloc: Global,
    command: &SampleCommand,
    texts: &[Vec<u8>],
    note: &mut N,
    failed: &mut bool,
    gate: &G,
) -> Result<Answer, Refusal>
    requires each { length texts.now ≡ length (sample_names command.now) }
    requires short { All (λ text. length text.items ≤ MAX_FILE_BYTES) texts.now }
    requires well { failed.old ≡ false }
    ensures answer { Gives answer_view result
        (sample_answer command.now (map (λ text. text.items) texts.now)) }
    ensures printed { IfOk result (λ answer. PrintsSample command.now (answer_view answer)) }
    ensures texts { IfErr result IsOfTexts }
    ensures noted { NotesLive (λ answer. (answer_view answer).live) (live_shown command.now.shown)
        (record {
          held = N.held note.old;
          faults = N.faults note.old;
          failing = N.failing note.old;
          room = N.room note.old;
        })
        (record {
          held = N.held note.new;
          faults = N.faults note.new;
          failing = N.failing note.new;
          room = N.room note.new;
        }) failed.new result }
    ensures failing { N.failing note.new ≡ N.failing note.old }
    ensures room { N.room note.new ≡ N.room note.old }
{
    let instance = instance_in(alloc, &command.file, command.format, texts)?;
    let net = net_of(alloc, instance)?;
    fitting(net.instance())?;
    let answer = samples_told(rt, alloc, &net, command, note, failed, gate)?;
    Ok(answer)
}

// What is shown of the samples of an instance without a misfit. The note is told how far the booking of the best one
// has come, where that is asked for.
fn samples_told<R: Threads + Sync, N: Sink + Send, G: Gate + Sync>(
    rt: &R,
    alloc: Global,
    net: &Net,
    command: &SampleCommand,
    note: &mut N,
    failed: &mut bool,
    gate: &G,
) -> Result<Answer, Refusal>
    requires fits { HasNoMisfit net.now.project }
    requires well { failed.old ≡ false }
    ensures answer { Gives answer_view result (Ok (samples_told command.now net.now.project)) }
    ensures texts { IfErr result IsOfTexts }
    ensures noted { NotesLive (λ answer. (answer_view answer).live) (live_shown command.now.shown)
        (record {
          held = N.held note.old;
          faults = N.faults note.old;
          failing = N.failing note.old;
          room = N.room note.old;
        })
        (record {
          held = N.held note.new;
          faults = N.faults note.new;
          failing = N.failing note.new;
          room = N.room note.new;
        }) failed.new result }
    ensures failing { N.failing note.new ≡ N.failing note.old }
    ensures room { N.room note.new ≡ N.room note.old }
{
    match &command.shown {
        Shown::Best {
            live,
            improve,
            form,
        } => {
            let sample = best_number(rt, alloc, net, command)?;
            let list = list_of_sample(alloc, net, command.seed, sample)?;
            let workers = &command.workers;
            let schedule = told_serial(rt, alloc, &list, workers, live, note, failed, gate)?;
            let text = sample_text(alloc, net, schedule, sample, *improve, *form)?;
            let lines = lines_for(live, net.instance().count());
            Ok(Answer::told_live(lines, text))
        }
        Shown::All => {
            let text = all_text(rt, alloc, net, command)?;
            Ok(Answer::told(text))
        }
    }
}

// The number of the best sample.
fn best_number(
    rt: &(impl Threads + Sync),
    alloc: Global,
    net: &Net,
    command: &SampleCommand,
) -> Result<u32, Memory>
    requires { HasNoMisfit net.now.project }
    ensures { IfOk result (λ sample. sample ≡ (best_of net.now.project command.now.seed
        command.now.samples.from command.now.samples.count).sample) }
{
    let windows = Windows::of(alloc, net)?;
    let from = command.samples.from();
    let count = command.samples.count();
    let workers = command.workers.count();
    let best = best_sample(rt, alloc, net, &windows, command.seed, from, count, workers)?;
    Ok(best.sample)
}

// The schedule of a sample, improved or not, in a form, and the line of the sample.
fn sample_text(
    alloc: Global,
    net: &Net,
    schedule: Schedule,
    sample: u32,
    improve: bool,
    form: Form,
) -> Result<Vec<u8>, Memory>
    requires fits { HasNoMisfit net.now.project }
    requires feasible { IsFeasible net.now.project schedule }
    requires short { makespan net.now.project schedule ≤ MAX_HORIZON }
    ensures { IfOk result (λ text. text.items
        ≡ text_in form net.now.project (improved_if improve net.now.project schedule)
        ++ sample_line form sample) }
{
    let schedule = improved_if(alloc, improve, net, schedule)?;
    let mut text = text_in(alloc, form, net.instance(), &schedule)?;
    push_line(alloc, &mut text, form, sample)?;
    Ok(text)
}

// Appends the line of a sample, which CSV has not.
fn push_line(alloc: Global, text: &mut Vec<u8>, form: Form, sample: u32) -> Result<(), Memory>
    ensures { OnOk result (text.new.items ≡ text.old.items ++ sample_line form sample) }
{
    match form {
        Form::Table | Form::Chart => {
            let line = format!(in alloc; "sample {sample}\n")?;
            text.extend_from_slice(line.as_bytes())?;
            Ok(())
        }
        Form::Csv => Ok(()),
    }
}

// The makespan of each sample.
fn all_text(
    rt: &(impl Threads + Sync),
    alloc: Global,
    net: &Net,
    command: &SampleCommand,
) -> Result<Vec<u8>, Memory>
    requires { HasNoMisfit net.now.project }
    ensures { IfOk result (λ text. text.items ≡ values_text command.now.samples.from
        (sample_values net.now.project command.now.seed command.now.samples.from
        command.now.samples.count)) }
{
    let from = command.samples.from();
    let count = command.samples.count();
    let values = sample_values(rt, alloc, net, command.seed, from, count)?;
    values_text(alloc, from, &values)
}

// A header, and a record for each of these values of the samples from a number on.
fn values_text(alloc: Global, from: u32, values: &[u32]) -> Result<Vec<u8>, Memory>
    ensures { IfOk result (λ text. text.items ≡ values_text from values.now) }
{
    let mut text = String::new(alloc);
    text.push_str("sample,makespan\n")?;
    for (place, value) in values.iter().enumerate() {
        let sample = u64::from(from) + place as u64;
        write!(text, "{sample},{value}\n")?;
    }
    Ok(text.into_bytes())
}
