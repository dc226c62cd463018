//! The commands: one file each, with a struct of its own.
ghost use Rattle.rcpsp_words.specs.Reading.{IsUnderstood};
ghost use Rattle.rcpsp_words.specs.Gathered.{given_by};
ghost use Rattle.rcpsp_words.specs.Commands.{command_of};

mod check;
mod convert;
mod parallel;
mod sample;
mod schedule;
mod trial;
mod windows;

use crate::gathered::Gathered;
use crate::words::WordsFault;
pub use check::CheckCommand;
use check::check_of;
pub use convert::ConvertCommand;
use convert::convert_of;
pub use parallel::ParallelCommand;
use parallel::parallel_of;
pub use sample::SampleCommand;
use sample::sample_of;
pub use schedule::ScheduleCommand;
use schedule::schedule_of;
use std::alloc::Global;
pub use trial::TrialCommand;
use trial::trial_of;
pub use windows::WindowsCommand;
use windows::windows_of;

/// What a run is to do.
#[derive(Debug, Drop)]
pub enum Command {
    /// Schedules an instance by the serial scheme, and prints the schedule.
    Schedule(ScheduleCommand),

    /// Schedules an instance by the parallel scheme, and prints the schedule.
    Parallel(ParallelCommand),
    /// Schedules an instance by random keys, and prints the best schedule or the makespan of each.
    Sample(SampleCommand),

    /// Checks a plan for an instance, and prints the makespan or the first violation.
    Check(CheckCommand),

    /// Prints an instance in a format.
    Convert(ConvertCommand),

    /// Prints the earliest and latest starts of an instance's activities, and two lower bounds.
    Windows(WindowsCommand),

    /// Makes an instance from a number, schedules it, and prints a summary.
    Trial(TrialCommand),
}

/// The command of a word, by what the words after it give.
pub(crate) fn command_of(
    alloc: Global,
    word: &str,
    gathered: &Gathered<'_>,
) -> Result<Command, WordsFault>
    ensures { IsUnderstood (command_of word.now (given_by gathered.now)) result }
{
    match word {
        "schedule" => Ok(Command::Schedule(schedule_of(alloc, gathered)?)),
        "parallel" => Ok(Command::Parallel(parallel_of(alloc, gathered)?)),
        "sample" => Ok(Command::Sample(sample_of(alloc, gathered)?)),
        "check" => Ok(Command::Check(check_of(alloc, gathered)?)),
        "convert" => Ok(Command::Convert(convert_of(alloc, gathered)?)),
        "windows" => Ok(Command::Windows(windows_of(alloc, gathered)?)),
        "trial" => Ok(Command::Trial(trial_of(gathered)?)),
        _ => Err(WordsFault::Undefined),
    }
}
