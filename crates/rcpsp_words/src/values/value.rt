ghost use Rattle.std.specs.Prelude.{◌≡◌};
ghost use Rattle.std.specs.Option.{option_map};
ghost use Rattle.rcpsp_words.specs.Values.Value.{value_view, value_in};

use crate::table::Kind;
use crate::values::form::Form;
use crate::values::format::Format;
use crate::values::number::number_in;
use crate::values::rule::rule_named;
use priority_rules::Rule;

/// The value of an option, of whatever kind.
#[derive(Clone, Copy, Debug)]
pub(crate) enum Value<'w> {
    Number(u64),
    Rule(Rule),
    Form(Form),
    Format(Format),
    Name(&'w str),
}

impl<'w> Value<'w> {
    /// The value of this kind that a text is.
    pub(crate) fn of(kind: Kind, text: &'w str) -> Option<Value<'w>>
        ensures { option_map value_view result ≡ value_in kind text.entry.now }
    {
        match kind {
            Kind::Flag => None,
            Kind::Number { least, greatest } => {
                let number = number_in(text, least, greatest)?;
                Some(Value::Number(number))
            }
            Kind::Rule => {
                let rule = rule_named(text)?;
                Some(Value::Rule(rule))
            }
            Kind::Form => {
                let form = Form::named(text)?;
                Some(Value::Form(form))
            }
            Kind::Format => {
                let format = Format::named(text)?;
                Some(Value::Format(format))
            }
            Kind::Name => Some(Value::Name(text)),
        }
    }
}
