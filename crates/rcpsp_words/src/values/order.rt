ghost use Rattle.std.specs.Option.{option_map};
ghost use Rattle.rcpsp_words.specs.Reading.{IsUnderstood};
ghost use Rattle.rcpsp_words.specs.Values.Order.{order_of};

use crate::values::name::Name;
use crate::words::WordsFault;
use priority_rules::Rule;
use std::alloc::Global;

/// Where the list comes from that a schedule follows.
#[derive(Debug, Drop)]
pub enum Order {
    /// From a priority rule.
    Rule(Rule),

    /// From the file of this name.
    List(Name),
}

/// Where the list comes from: a rule or a file, not both; by number, where neither is given.
pub(crate) fn order_of(
    alloc: Global,
    rule: Option<Rule>,
    list: Option<&str>,
) -> Result<Order, WordsFault>
    ensures { IsUnderstood (order_of rule (option_map (λ text. text.now) list.entry)) result }
{
    match (rule, list) {
        (Some(_), Some(_)) => Err(WordsFault::Undefined),
        (Some(rule), None) => Ok(Order::Rule(rule)),
        (None, Some(list)) => {
            let list = Name::of(alloc, list)?;
            Ok(Order::List(list))
        }
        (None, None) => Ok(Order::Rule(Rule::Number)),
    }
}
