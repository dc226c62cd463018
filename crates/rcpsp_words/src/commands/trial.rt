ghost use Rattle.rcpsp_words.specs.Reading.{IsUnderstood};
ghost use Rattle.rcpsp_words.specs.Gathered.{given_by};
ghost use Rattle.rcpsp_words.specs.Commands.Trial.{trial_of, size_given};

use crate::gathered::Gathered;
use crate::values::size::Size;
use crate::values::workers::Workers;
use crate::words::WordsFault;
use priority_rules::Rule;

/// `trial`: makes an instance from a number, schedules it, and prints a summary.
#[derive(Debug, Drop)]
pub struct TrialCommand {
    /// The number that the instance is made from.
    pub number: u64,

    /// How many activities and resources it has.
    pub size: Size,

    /// The rule whose list it is scheduled by.
    pub rule: Rule,

    /// How many workers schedule it.
    pub workers: Workers,
}

/// The command `trial`, by what the words after it give.
#[tactic(auto, unfolding(crate::specs::Commands::Trial::trial_of))]
pub(crate) fn trial_of(gathered: &Gathered<'_>) -> Result<TrialCommand, WordsFault>
    ensures { IsUnderstood (trial_of (given_by gathered.now)) result }
{
    let [] = gathered.positional() else {
        return Err(WordsFault::Undefined);
    };
    let number = gathered.number("number")?.unwrap_or(1);
    let size = size_given(gathered)?;
    let rule = gathered.rule("rule")?.unwrap_or(Rule::Number);
    let workers = gathered.workers()?;
    Ok(TrialCommand {
        number,
        size,
        rule,
        workers,
    })
}

// The size of `--activities` and `--resources`.
#[tactic(auto, unfolding(crate::specs::Commands::Trial::size_given))]
fn size_given(gathered: &Gathered<'_>) -> Result<Size, WordsFault>
    ensures { IsUnderstood (size_given (given_by gathered.now)) result }
{
    let activities = gathered.number("activities")?;
    let resources = gathered.number("resources")?;
    Size::of(activities, resources).ok_or(WordsFault::Undefined)
}
