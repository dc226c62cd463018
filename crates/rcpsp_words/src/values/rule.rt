ghost use Rattle.std.specs.Prelude.{◌≡◌};
ghost use Rattle.rcpsp_words.specs.Values.Rule.{rule_named};

use priority_rules::Rule;

/// The priority rule of a word.
pub(crate) fn rule_named(word: &str) -> Option<Rule>
    ensures { result ≡ rule_named word.now }
{
    match word {
        "number" => Some(Rule::Number),
        "lft" => Some(Rule::Lft),
        "lst" => Some(Rule::Lst),
        "mts" => Some(Rule::Mts),
        "grpw" => Some(Rule::Grpw),
        _ => None,
    }
}
