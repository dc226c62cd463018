ghost use Rattle.std.specs.Prelude.{◌≡◌, map};
ghost use Rattle.std.specs.List.{list_any};
ghost use Rattle.std.specs.Str.{bytes_eq};
ghost use Rattle.rcpsp_words.specs.Table.{options, entry_view, is_option, kind_of};

/// How an option is written, and what its value is.
#[derive(Clone, Copy, Debug, PartialEq, Eq)]
pub(crate) enum Kind {
    /// A flag, which has no value: it is written alone, as `--name`.
    Flag,

    /// A number from `least` to `greatest`.
    Number { least: u64, greatest: u64 },

    /// The word of a priority rule.
    Rule,

    /// The word of a form in which a schedule is shown.
    Form,

    /// The word of an instance's format.
    Format,

    /// The name of a file.
    Name,
}

// An option, and the words of the commands that have it.
struct Entry {
    name: &'static str,
    kind: Kind,
    commands: &'static [&'static str],
}

static OPTIONS: [Entry; 17] = [
    Entry {
        name: "format",
        kind: Kind::Format,
        commands: &[
            "schedule", "parallel", "sample", "check", "convert", "windows",
        ],
    },
    Entry {
        name: "rule",
        kind: Kind::Rule,
        commands: &["schedule", "parallel", "trial"],
    },
    Entry {
        name: "list",
        kind: Kind::Name,
        commands: &["schedule", "parallel"],
    },
    Entry {
        name: "calendar",
        kind: Kind::Name,
        commands: &["schedule", "parallel"],
    },
    Entry {
        name: "improve",
        kind: Kind::Flag,
        commands: &["schedule", "sample"],
    },
    Entry {
        name: "descend",
        kind: Kind::Number {
            least: 1,
            greatest: 1000,
        },
        commands: &["schedule"],
    },
    Entry {
        name: "as",
        kind: Kind::Form,
        commands: &["schedule", "parallel", "sample"],
    },
    Entry {
        name: "to",
        kind: Kind::Format,
        commands: &["convert"],
    },
    // The batch program has no command: its options are those of the empty word.
    Entry {
        name: "workers",
        kind: Kind::Number {
            least: 1,
            greatest: 64,
        },
        commands: &["", "schedule", "sample", "trial"],
    },
    Entry {
        name: "live",
        kind: Kind::Number {
            least: 1,
            greatest: 1000,
        },
        commands: &["schedule", "sample"],
    },
    Entry {
        name: "seed",
        kind: Kind::Number {
            least: 0,
            greatest: 18_446_744_073_709_551_615,
        },
        commands: &["sample"],
    },
    Entry {
        name: "from",
        kind: Kind::Number {
            least: 0,
            greatest: 4_294_967_295,
        },
        commands: &["sample"],
    },
    Entry {
        name: "count",
        kind: Kind::Number {
            least: 1,
            greatest: 1_000_000,
        },
        commands: &["sample"],
    },
    Entry {
        name: "all",
        kind: Kind::Flag,
        commands: &["sample"],
    },
    Entry {
        name: "number",
        kind: Kind::Number {
            least: 0,
            greatest: 18_446_744_073_709_551_615,
        },
        commands: &["trial"],
    },
    Entry {
        name: "activities",
        kind: Kind::Number {
            least: 2,
            greatest: 1000,
        },
        commands: &["trial"],
    },
    Entry {
        name: "resources",
        kind: Kind::Number {
            least: 0,
            greatest: 16,
        },
        commands: &["trial"],
    },
];

impl Entry {
    // Whether it is the option of this name, and the command of this word has it.
    fn is_option(&self, command: &str, name: &str) -> bool
        ensures { result ≡ is_option (entry_view self.now) command.now name.now }
    {
        self.name == name && is_among(self.commands, command)
    }
}

/// The kind of the option of this name, where the command of this word has it.
#[tactic(auto, unfolding(crate::specs::Table::kind_of))]
pub(crate) fn kind_of(command: &str, name: &str) -> Option<Kind>
    ensures { result ≡ kind_of command.now name.now }
{
    for entry in entries() {
        if entry.is_option(command, name) {
            return Some(entry.kind);
        }
    }
    None
}

// Whether a word is one of these.
fn is_among(words: &[&str], word: &str) -> bool
    ensures { result ≡ list_any (λ other. bytes_eq other.now word.now) words.now }
{
    words.iter().any(|other| *other == word)
}

// The options.
fn entries() -> &'static [Entry]
    ensures { map entry_view result.now ≡ options }
{
    OPTIONS.as_slice()
}
