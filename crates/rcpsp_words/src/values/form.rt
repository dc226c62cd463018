ghost use Rattle.std.specs.Prelude.{◌≡◌};

/// How a schedule is shown.
#[derive(Clone, Copy, Debug, PartialEq, Eq)]
pub enum Form {
    /// A table of starts and finishes.
    Table,

    /// A chart of bars.
    Chart,

    /// Comma-separated values.
    Csv,
}

impl Form {
    ghost use Rattle.rcpsp_words.specs.Values.Form.{form_named};

    /// The form of a word.
    pub(crate) fn named(word: &str) -> Option<Form>
        ensures { result ≡ form_named word.now }
    {
        match word {
            "table" => Some(Form::Table),
            "chart" => Some(Form::Chart),
            "csv" => Some(Form::Csv),
            _ => None,
        }
    }
}
