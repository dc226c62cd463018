ghost use Rattle.std.specs.Prelude.{◌≡◌};

/// The format of an instance's text.
#[derive(Clone, Copy, Debug, PartialEq, Eq)]
pub enum Format {
    /// The single-mode format of PSPLIB, `.sm`.
    Sm,

    /// The Patterson format, `.rcp`.
    Rcp,
}

impl Format {
    ghost use Rattle.rcpsp_words.specs.Values.Format.{format_named, format_ending};

    /// The format of a word.
    pub(crate) fn named(word: &str) -> Option<Format>
        ensures { result ≡ format_named word.now }
    {
        match word {
            "sm" => Some(Format::Sm),
            "rcp" => Some(Format::Rcp),
            _ => None,
        }
    }

    /// The format of a file, by the ending of its name.
    pub(crate) fn of_file(name: &str) -> Option<Format>
        ensures { result ≡ format_ending name.now }
    {
        if ends_in(name, ".sm") {
            Some(Format::Sm)
        } else if ends_in(name, ".rcp") {
            Some(Format::Rcp)
        } else {
            None
        }
    }
}

ghost use Rattle.rcpsp_words.specs.Values.Format.{ends_in};

// Whether a name ends in these lower-case letters, whatever their case in the name.
fn ends_in(name: &str, ending: &str) -> bool
    ensures { result ≡ ends_in name.now ending.now }
{
    let name = name.as_bytes();
    let from = name.len().saturating_sub(ending.len());
    name[from..].eq_ignore_ascii_case(ending.as_bytes())
}
