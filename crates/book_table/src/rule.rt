use activity_net::FeasibleList;
use atomic_table::TableRule;
use book_rule::View;

// The rule of a book, of which no value is made. It is told the list.
pub struct BookRule;

impl<'n> TableRule<(), View, FeasibleList<'n>> for BookRule {
    ghost use Rattle.book_rule.specs.Rule.{Rule};
    ghost use Rattle.book_rule.specs.Views.{first_view};

    ghost holds = { λ list s. Rule list s };

    ghost first = { λ list. first_view list };
}
