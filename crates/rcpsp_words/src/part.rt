ghost use Rattle.std.specs.Prelude.{◌≡◌};
ghost use Rattle.std.specs.Option.{option_map};
ghost use Rattle.rcpsp_words.specs.Part.{is_plain, after_dashes, at_equals, awaited, part_of, free_part, dashed_part, value_part, part_view};

use crate::table::{Kind, kind_of};
use crate::values::value::Value;

/// What a word is.
#[derive(Clone, Copy, Debug)]
pub(crate) enum Part<'w> {
    /// The value of an option.
    Value { option: &'w str, value: Value<'w> },

    /// An option whose value is the next word.
    Awaiting,

    /// A flag, by its name.
    Flag { name: &'w str },

    /// A positional word.
    Positional { word: &'w str },

    /// None of these.
    Wrong,
}

impl<'w> Part<'w> {
    /// What a word of a command is, after the word before it.
    #[tactic(auto, unfolding(crate::specs::Part::part_of))]
    pub(crate) fn of(command: &str, before: &'w str, word: &'w str) -> Part<'w>
        ensures { part_view result ≡ part_of command.now before.entry.now word.entry.now }
    {
        match awaited(command, before) {
            Some((option, kind)) if is_plain(word) => Part::value(option, kind, word),
            Some(_) => Part::Wrong,
            None => Part::free(command, word),
        }
    }

    // What a word is that is not the value of the option before it.
    fn free(command: &str, word: &'w str) -> Part<'w>
        ensures { part_view result
            ≡ free_part command.now word.entry.now (after_dashes word.entry.now) }
    {
        match after_dashes(word) {
            Some(text) => Part::dashed(command, text),
            None if is_plain(word) => Part::Positional { word },
            None => Part::Wrong,
        }
    }

    // What a word is, by its text after `--`.
    fn dashed(command: &str, text: &'w str) -> Part<'w>
        ensures { part_view result
            ≡ dashed_part command.now text.entry.now (at_equals text.entry.now) }
    {
        match at_equals(text) {
            Some((option, value)) => match kind_of(command, option) {
                Some(kind) => Part::value(option, kind, value),
                None => Part::Wrong,
            },
            None => match kind_of(command, text) {
                Some(Kind::Flag) => Part::Flag { name: text },
                Some(_) => Part::Awaiting,
                None => Part::Wrong,
            },
        }
    }

    // The value of an option, where the text is one of its kind.
    fn value(option: &'w str, kind: Kind, text: &'w str) -> Part<'w>
        ensures { part_view result ≡ value_part option.entry.now kind text.entry.now }
    {
        match Value::of(kind, text) {
            Some(value) => Part::Value { option, value },
            None => Part::Wrong,
        }
    }
}

/// The option, and its kind, whose value is the word after this one.
#[tactic(auto, unfolding(crate::specs::Part::awaited))]
pub(crate) fn awaited<'w>(command: &str, word: &'w str) -> Option<(&'w str, Kind)>
    ensures { option_map (λ option. (option.0.now, option.1)) result
        ≡ awaited command.now word.entry.now }
{
    let name = after_dashes(word)?;
    match kind_of(command, name) {
        Some(Kind::Flag) | None => None,
        Some(kind) => Some((name, kind)),
    }
}

// Whether a word can be a value or a positional word: it does not begin with `-`, or is `-` alone.
fn is_plain(word: &str) -> bool
    ensures { result ≡ is_plain word.now }
{
    match word.as_bytes() {
        [b'-', rest @ ..] => rest.is_empty(),
        _ => true,
    }
}

// The text of a word after `--`.
fn after_dashes<'w>(word: &'w str) -> Option<&'w str>
    ensures { option_map (λ text. text.now) result ≡ after_dashes word.entry.now }
{
    word.strip_prefix("--")
}

// The name and the value of `name=value`, which is all that follows the first `=`.
fn at_equals<'w>(text: &'w str) -> Option<(&'w str, &'w str)>
    ensures { option_map (λ cut. (cut.0.now, cut.1.now)) result ≡ at_equals text.entry.now }
{
    text.split_once('=')
}
