ghost use Rattle.std.specs.Prelude.{◌≡◌, ℕ, List, string_bytes, map, IfOk};
ghost use Rattle.std.specs.Option.{option_map};
ghost use Rattle.rcpsp_words.specs.Values.Name.{are_names, is_given};

use rc_instance::Memory;
use std::alloc::Global;
use std::fmt;
use std::marker::Model;

/// The name of a file, as it stands in the words. Contracts see it as its bytes.
#[derive(Debug, Drop)]
pub struct Name {
    text: String,
}

impl Model for Name {
    ghost Value = { List ℕ };

    ghost view = { λ name. string_bytes name.text };
}

impl Name {
    /// The name that a word is.
    pub fn of(alloc: Global, word: &str) -> Result<Name, Memory>
        ensures { IfOk result (λ name. name ≡ word.now) }
    {
        Ok(Name {
            text: String::from_str(alloc, word)?,
        })
    }

    /// The name that a word is, where one is given.
    pub(crate) fn of_given(alloc: Global, word: Option<&str>) -> Result<Option<Name>, Memory>
        ensures { IfOk result (λ name. name ≡ option_map (λ text. text.now) word.entry) }
    {
        match word {
            Some(word) => {
                let name = Name::of(alloc, word)?;
                Ok(Some(name))
            }
            None => Ok(None),
        }
    }

    /// The same name once more.
    pub fn copy(&self, alloc: Global) -> Result<Name, Memory>
        ensures { IfOk result (λ name. name ≡ self.now) }
    {
        Name::of(alloc, self.text())
    }

    /// The name as text. It takes no memory.
    pub fn text(&self) -> &str
        ensures { result.now ≡ self.now }
    {
        self.text.as_str()
    }
}

impl fmt::Display for Name {
    ghost use Rattle.std.specs.Prelude.{Some};

    ghost output = { λ name. Some name };

    fn fmt<W: fmt::Write>(&self, f: &mut fmt::Formatter<W>) -> fmt::Result {
        f.write_str(self.text())
    }
}

/// Whether names can be given together: none is empty, and at most one is `-`, standard input.
pub(crate) fn are_names(names: &[Option<&str>]) -> bool
    ensures { result ≡ are_names (map (λ name. option_map (λ text. text.now) name) names.now) }
{
    let mut dashes = 0usize;
    for name in names {
        if is_given(*name, "") {
            return false;
        }
        if is_given(*name, "-") {
            dashes += 1;
        }
    }
    dashes <= 1
}

// Whether a name is given, and is this text.
fn is_given(name: Option<&str>, text: &str) -> bool
    ensures { result ≡ is_given (option_map (λ given. given.now) name.entry) text.now }
{
    match name {
        Some(name) => name == text,
        None => false,
    }
}
