//! The words of the batch program, which schedules many files, each alone.
ghost use Rattle.std.specs.Prelude.{◌≡◌, map, string_bytes, IfOk};
ghost use Rattle.std.specs.List.{list_all};
ghost use Rattle.rcpsp_words.specs.Reading.{Reads};
ghost use Rattle.rcpsp_words.specs.Gathered.{given_by};
ghost use Rattle.rcpsp_words.specs.Many.{plain_words, is_plain_name, many_given, many_of, many_view};

use crate::gathered::{Gathered, gather};
use crate::values::name::Name;
use crate::words::{WordsFault, read_words};
use rc_instance::Memory;
use std::alloc::Global;

/// How many workers schedule many files where the words do not say it.
pub const MANY_WORKERS: u64 = 4;

/// What the words of the batch program say.
#[derive(Debug, Drop)]
pub struct Many {
    /// The files, in the order of the words.
    pub names: Vec<Name>,

    /// How many workers schedule them, from 1 to 64.
    pub workers: u64,
}

/// The files of the batch program's words, the program's name left out, and the number of workers.
///
/// The words are read as [`read_words`](crate::read_words) reads those after a command. The positional
/// words are the files, from 1 to 100, each a name that `schedule` takes without another option. The
/// only option is `--workers`, from 1 to 64 and else 4.
#[tactic(auto, unfolding(crate::specs::Many::many_of))]
pub fn read_many(alloc: Global, words: &[String]) -> Result<Many, WordsFault>
    ensures { Reads many_view (many_of (map string_bytes words.now)) result }
{
    let gathered = gather(alloc, "", words)?;
    let many = many_given(alloc, &gathered)?;
    Ok(many)
}

// Many files, by what the words give.
#[tactic(auto, unfolding(crate::specs::Many::many_given))]
fn many_given(alloc: Global, gathered: &Gathered<'_>) -> Result<Many, WordsFault>
    ensures { Reads many_view (many_given (given_by gathered.now)) result }
{
    let workers = gathered.number("workers")?.unwrap_or(MANY_WORKERS);
    let names = gathered.positional();
    let is_count = 1 <= workers && workers <= 64;
    let is_many = 1 <= names.len() && names.len() <= 100;
    if !is_count || !is_many {
        return Err(WordsFault::Undefined);
    }
    if !are_plain_names(alloc, names)? {
        return Err(WordsFault::Undefined);
    }
    let names = names_of(alloc, names)?;
    Ok(Many { names, workers })
}

// Whether each of these names can be scheduled alone.
fn are_plain_names(alloc: Global, names: &[&str]) -> Result<bool, Memory>
    ensures { IfOk result (λ all. all ≡ list_all is_plain_name (map (λ name. name.now) names.now)) }
{
    for name in names {
        if !is_plain_name(alloc, name)? {
            return Ok(false);
        }
    }
    Ok(true)
}

// Whether the plain words of a name say something.
fn is_plain_name(alloc: Global, name: &str) -> Result<bool, Memory>
    ensures { IfOk result (λ yes. yes ≡ is_plain_name name.now) }
{
    let words = plain_words(alloc, name)?;
    match read_words(alloc, &words) {
        Ok(_) => Ok(true),
        Err(WordsFault::Undefined) => Ok(false),
        Err(WordsFault::Memory) => Err(Memory),
    }
}

/// The words by which a file is scheduled alone, by one worker: `schedule --workers 1 NAME`.
pub fn plain_words(alloc: Global, name: &str) -> Result<Vec<String>, Memory>
    ensures { IfOk result (λ words. map string_bytes words.items ≡ plain_words name.now) }
{
    let mut words = Vec::with_capacity(alloc, 4)?;
    words.push(String::from_str(alloc, "schedule")?)?;
    words.push(String::from_str(alloc, "--workers")?)?;
    words.push(String::from_str(alloc, "1")?)?;
    words.push(String::from_str(alloc, name)?)?;
    Ok(words)
}

// The names that these words are.
fn names_of(alloc: Global, words: &[&str]) -> Result<Vec<Name>, Memory>
    ensures { IfOk result (λ names. names.items ≡ map (λ word. word.now) words.now) }
{
    let mut names = Vec::with_capacity(alloc, words.len())?;
    for word in words {
        names.push(Name::of(alloc, word)?)?;
    }
    Ok(names)
}
