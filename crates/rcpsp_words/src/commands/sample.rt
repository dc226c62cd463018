ghost use Rattle.rcpsp_words.specs.Reading.{IsUnderstood};
ghost use Rattle.rcpsp_words.specs.Gathered.{given_by};
ghost use Rattle.rcpsp_words.specs.Commands.Sample.{sample_of, samples_given, shown_given};

use crate::gathered::Gathered;
use crate::values::format::Format;
use crate::values::name::{Name, are_names};
use crate::values::samples::Samples;
use crate::values::shown::{Shown, shown_of};
use crate::values::workers::Workers;
use crate::words::WordsFault;
use std::alloc::Global;

/// `sample FILE`: schedules an instance by random keys, and prints the best schedule or the makespan
/// of each.
#[derive(Debug, Drop)]
pub struct SampleCommand {
    /// The file of the instance.
    pub file: Name,

    /// The format of the instance.
    pub format: Format,

    /// The seed of the keys.
    pub seed: u64,

    /// The samples that are tried.
    pub samples: Samples,

    /// How many workers try them.
    pub workers: Workers,

    /// What is shown of them.
    pub shown: Shown,
}

/// The command `sample`, by what the words after it give.
#[tactic(auto, unfolding(crate::specs::Commands::Sample::sample_of))]
pub(crate) fn sample_of(alloc: Global, gathered: &Gathered<'_>) -> Result<SampleCommand, WordsFault>
    ensures { IsUnderstood (sample_of (given_by gathered.now)) result }
{
    let [file] = gathered.positional() else {
        return Err(WordsFault::Undefined);
    };
    let format = gathered.file_format(file)?;
    let seed = gathered.number("seed")?.unwrap_or(1);
    let samples = samples_given(gathered)?;
    let workers = gathered.workers()?;
    let shown = shown_given(gathered)?;
    if !are_names(&[Some(*file)]) {
        return Err(WordsFault::Undefined);
    }
    Ok(SampleCommand {
        file: Name::of(alloc, file)?,
        format,
        seed,
        samples,
        workers,
        shown,
    })
}

// The samples of `--from` and `--count`.
#[tactic(auto, unfolding(crate::specs::Commands::Sample::samples_given))]
fn samples_given(gathered: &Gathered<'_>) -> Result<Samples, WordsFault>
    ensures { IsUnderstood (samples_given (given_by gathered.now)) result }
{
    let from = gathered.number("from")?;
    let count = gathered.number("count")?;
    Samples::of(from, count).ok_or(WordsFault::Undefined)
}

// What `--all`, `--live`, `--improve` and `--as` show of them.
#[tactic(auto, unfolding(crate::specs::Commands::Sample::shown_given))]
fn shown_given(gathered: &Gathered<'_>) -> Result<Shown, WordsFault>
    ensures { IsUnderstood (shown_given (given_by gathered.now)) result }
{
    let all = gathered.flag("all")?;
    let live = gathered.live()?;
    let improve = gathered.flag("improve")?;
    let form = gathered.form("as")?;
    shown_of(all, live, improve, form)
}
