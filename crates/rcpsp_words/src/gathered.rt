ghost use Rattle.std.specs.Prelude.{◌≡◌, true, map, string_bytes, OnOk, MatchResult, IsErrOf, Some, None};
ghost use Rattle.std.specs.Option.{option_map};
ghost use Rattle.rcpsp_words.specs.Reading.{IsUnderstood, Reads};
ghost use Rattle.rcpsp_words.specs.Part.{is_wrong, parts_after, part_view};
ghost use Rattle.rcpsp_words.specs.Values.Value.{value_view};
ghost use Rattle.rcpsp_words.specs.Gathered.{Adds, given_of, given_by, given_value, has_flag, number_given, rule_given, form_given, format_given, name_given, file_format, live_given, rounds_given, workers_given};

use crate::part::{Part, awaited};
use crate::values::form::Form;
use crate::values::format::Format;
use crate::values::live::Live;
use crate::values::rounds::Rounds;
use crate::values::value::Value;
use crate::values::workers::Workers;
use crate::words::WordsFault;
use priority_rules::Rule;
use std::alloc::Global;

/// What the words after a command give, each in the words' order.
#[derive(Debug, Drop)]
pub(crate) struct Gathered<'w> {
    /// The values, each with the name of its option.
    values: Vec<(&'w str, Value<'w>)>,

    /// The names of the flags.
    flags: Vec<&'w str>,

    /// The positional words.
    positional: Vec<&'w str>,
}

/// An option or a flag is given more than once.
#[derive(Clone, Copy, Debug)]
pub(crate) struct Repeated;

/// What the words after a command give, of which none is wrong.
pub(crate) fn gather<'w>(
    alloc: Global,
    command: &'w str,
    words: &'w [String],
) -> Result<Gathered<'w>, WordsFault>
    ensures { Reads given_by
        (given_of (parts_after command.entry.now command.entry.now (map string_bytes words.entry.now)))
        result }
{
    let mut gathered = Gathered {
        values: Vec::new(alloc),
        flags: Vec::new(alloc),
        positional: Vec::new(alloc),
    };
    let mut before = command;
    for word in words {
        let word = word.as_str();
        gathered.take(Part::of(command, before, word))?;
        before = word;
    }
    match awaited(command, before) {
        Some(_) => Err(WordsFault::Undefined),
        None => Ok(gathered),
    }
}

impl<'w> Gathered<'w> {
    // Adds what a word is.
    fn take(&mut self, part: Part<'w>) -> Result<(), WordsFault>
        ensures adds { OnOk result
            (Adds (given_by self.old) (given_by self.new) (part_view part.entry)) }
        ensures wrong { IsErrOf result WordsFault.Undefined
            → is_wrong (part_view part.entry) ≡ true }
    {
        match part {
            Part::Value { option, value } => self.values.push((option, value))?,
            Part::Awaiting => {}
            Part::Flag { name } => self.flags.push(name)?,
            Part::Positional { word } => self.positional.push(word)?,
            Part::Wrong => return Err(WordsFault::Undefined),
        }
        Ok(())
    }

    /// The positional words.
    pub(crate) fn positional(&self) -> &[&'w str]
        ensures { map (λ word. word.now) result.now ≡ (given_by self.now).positional }
    {
        self.positional.as_slice()
    }

    /// Whether a flag is given, at most once.
    #[tactic(auto, unfolding(crate::specs::Gathered::has_flag))]
    pub(crate) fn flag(&self, flag: &str) -> Result<bool, Repeated>
        ensures { MatchResult result
            (λ found. has_flag (given_by self.now) flag.now ≡ Some found)
            (λ _. has_flag (given_by self.now) flag.now ≡ None) }
    {
        let mut found = false;
        for name in &self.flags {
            if *name == flag {
                if found {
                    return Err(Repeated);
                }
                found = true;
            }
        }
        Ok(found)
    }

    // The value of an option, which is given at most once.
    #[tactic(auto, unfolding(crate::specs::Gathered::given_value))]
    fn value(&self, option: &str) -> Result<Option<Value<'w>>, Repeated>
        ensures { MatchResult result
            (λ found. given_value (given_by self.now) option.now ≡ Some (option_map value_view found))
            (λ _. given_value (given_by self.now) option.now ≡ None) }
    {
        let mut found = None;
        for (name, value) in &self.values {
            if *name == option {
                if found.is_some() {
                    return Err(Repeated);
                }
                found = Some(*value);
            }
        }
        Ok(found)
    }

    /// The number that an option gives, where it is given.
    #[tactic(auto, unfolding(crate::specs::Gathered::number_given))]
    pub(crate) fn number(&self, option: &str) -> Result<Option<u64>, WordsFault>
        ensures { IsUnderstood (number_given (given_by self.now) option.now) result }
    {
        match self.value(option)? {
            None => Ok(None),
            Some(Value::Number(number)) => Ok(Some(number)),
            Some(_) => Err(WordsFault::Undefined),
        }
    }

    /// The priority rule that an option gives, where it is given.
    #[tactic(auto, unfolding(crate::specs::Gathered::rule_given))]
    pub(crate) fn rule(&self, option: &str) -> Result<Option<Rule>, WordsFault>
        ensures { IsUnderstood (rule_given (given_by self.now) option.now) result }
    {
        match self.value(option)? {
            None => Ok(None),
            Some(Value::Rule(rule)) => Ok(Some(rule)),
            Some(_) => Err(WordsFault::Undefined),
        }
    }

    /// The form that an option gives, where it is given.
    #[tactic(auto, unfolding(crate::specs::Gathered::form_given))]
    pub(crate) fn form(&self, option: &str) -> Result<Option<Form>, WordsFault>
        ensures { IsUnderstood (form_given (given_by self.now) option.now) result }
    {
        match self.value(option)? {
            None => Ok(None),
            Some(Value::Form(form)) => Ok(Some(form)),
            Some(_) => Err(WordsFault::Undefined),
        }
    }

    /// The format that an option gives, where it is given.
    #[tactic(auto, unfolding(crate::specs::Gathered::format_given))]
    pub(crate) fn format(&self, option: &str) -> Result<Option<Format>, WordsFault>
        ensures { IsUnderstood (format_given (given_by self.now) option.now) result }
    {
        match self.value(option)? {
            None => Ok(None),
            Some(Value::Format(format)) => Ok(Some(format)),
            Some(_) => Err(WordsFault::Undefined),
        }
    }

    /// The name that an option gives, where it is given.
    #[tactic(auto, unfolding(crate::specs::Gathered::name_given))]
    pub(crate) fn name(&self, option: &str) -> Result<Option<&'w str>, WordsFault>
        ensures { Reads (λ name. option_map (λ text. text.now) name)
            (name_given (given_by self.now) option.now) result }
    {
        match self.value(option)? {
            None => Ok(None),
            Some(Value::Name(name)) => Ok(Some(name)),
            Some(_) => Err(WordsFault::Undefined),
        }
    }

    /// The format of an instance's file: that of `--format`, or else by the ending of its name.
    #[tactic(auto, unfolding(crate::specs::Gathered::file_format))]
    pub(crate) fn file_format(&self, file: &str) -> Result<Format, WordsFault>
        ensures { IsUnderstood (file_format (given_by self.now) file.now) result }
    {
        match self.format("format")? {
            Some(format) => Ok(format),
            None => Format::of_file(file).ok_or(WordsFault::Undefined),
        }
    }

    /// How often the run tells how far it has come: the number of `--live`, where it is given.
    #[tactic(auto, unfolding(crate::specs::Gathered::live_given))]
    pub(crate) fn live(&self) -> Result<Option<Live>, WordsFault>
        ensures { IsUnderstood (live_given (given_by self.now)) result }
    {
        let Some(number) = self.number("live")? else {
            return Ok(None);
        };
        let live = Live::of(number).ok_or(WordsFault::Undefined)?;
        Ok(Some(live))
    }

    /// How many workers share the work: the number of `--workers`, or else 4.
    #[tactic(auto, unfolding(crate::specs::Gathered::workers_given))]
    pub(crate) fn workers(&self) -> Result<Workers, WordsFault>
        ensures { IsUnderstood (workers_given (given_by self.now)) result }
    {
        let number = self.number("workers")?;
        Workers::of(number).ok_or(WordsFault::Undefined)
    }

    /// How many rounds the list descends through: the number of `--descend`, where it is given.
    #[tactic(auto, unfolding(crate::specs::Gathered::rounds_given))]
    pub(crate) fn rounds(&self) -> Result<Option<Rounds>, WordsFault>
        ensures { IsUnderstood (rounds_given (given_by self.now)) result }
    {
        let number = self.number("descend")?;
        Rounds::of(number).ok_or(WordsFault::Undefined)
    }
}
