ghost use Rattle.std.specs.Prelude.{◌≡◌, map, string_bytes};
ghost use Rattle.rcpsp_words.specs.Reading.{IsUnderstood};
ghost use Rattle.rcpsp_words.specs.Words.{options_of};

use crate::commands::{Command, command_of};
use crate::gathered::{Repeated, gather};
use rc_instance::Memory;
use std::alloc::{AllocFailed, Global};
use std::error::Error;
use std::fmt;

/// What the words of the command line say.
#[derive(Debug, Drop)]
pub struct Options {
    /// What to do.
    pub command: Command,
}

/// Why words give no options.
#[derive(Clone, Copy, Debug, PartialEq, Eq)]
pub enum WordsFault {
    /// They are not the words of a command.
    Undefined,

    /// An allocation was refused.
    Memory,
}

impl fmt::Display for WordsFault {
    ghost use Rattle.std.specs.Prelude.{Some};
    ghost use Rattle.rcpsp_words.specs.WordsFault.{words_fault_words};

    ghost output = { λ fault. Some (words_fault_words fault) };

    fn fmt<W: fmt::Write>(&self, f: &mut fmt::Formatter<W>) -> fmt::Result {
        f.write_str(match self {
            WordsFault::Undefined => "words not understood",
            WordsFault::Memory => "out of memory",
        })
    }
}

impl Error for WordsFault {}

impl From<Memory> for WordsFault {
    ghost use Rattle.rcpsp_words.specs.declared.words.WordsFault.TheVariants.{Memory as OutOfMemory};

    ghost from_gives = { λ _ fault. fault ≡ OutOfMemory };

    fn from(_: Memory) -> Self {
        WordsFault::Memory
    }
}

impl<T: Drop> From<AllocFailed<T>> for WordsFault {
    ghost use Rattle.rcpsp_words.specs.declared.words.WordsFault.TheVariants.{Memory as OutOfMemory};

    ghost from_gives = { λ _ fault. fault ≡ OutOfMemory };

    fn from(_: AllocFailed<T>) -> Self {
        WordsFault::Memory
    }
}

impl From<Repeated> for WordsFault {
    ghost use Rattle.rcpsp_words.specs.declared.words.WordsFault.TheVariants.{Undefined as Unclear};

    ghost from_gives = { λ _ fault. fault ≡ Unclear };

    fn from(_: Repeated) -> Self {
        WordsFault::Undefined
    }
}

/// The options of the words, the program's name left out.
///
/// The first word is the command. Of the others, an option is written `--name value` or
/// `--name=value`, where the value is all that follows the first `=`, and a flag `--name`; each is
/// one that the command has, given at most once, with a value of its kind. Every other word is
/// positional, and there are as many as the command has. A positional word, and a value in a word
/// of its own, does not begin with `-`, unless it is `-` alone, which names standard input.
#[tactic(auto, unfolding(crate::specs::Words::options_of))]
pub fn read_words(alloc: Global, words: &[String]) -> Result<Options, WordsFault>
    ensures { IsUnderstood (options_of (map string_bytes words.now)) result }
{
    let [first, rest @ ..] = words else {
        return Err(WordsFault::Undefined);
    };
    let gathered = gather(alloc, first.as_str(), rest)?;
    let command = command_of(alloc, first.as_str(), &gathered)?;
    Ok(Options { command })
}
