ghost use Rattle.std.specs.Prelude.{◌≡◌};
ghost use Rattle.rc_edge.specs.Grammar.{Gives};
ghost use Rattle.psplib_read.specs.Sm.{past_title, section_due};

use crate::cursor::Cursor;
use rc_edge::{Item, TextFault, TextKind, refuse_if};

/// Passes over the line after the head of a section, where it does not begin with a digit.
#[tactic(auto, unfolding(crate::specs::Sm::past_title))]
pub fn skip_title(cursor: &mut Cursor)
    ensures { cursor.new ≡ past_title cursor.old }
{
    if let Some(line) = cursor.next_line() {
        if !line.begins_with_digit() {
            cursor.skip_line();
        }
    }
}

/// Passes over the head of a section, whose key begins with a word, and its title.
#[tactic(auto, unfolding(crate::specs::Sm::section_due))]
pub fn section_due(cursor: &mut Cursor, word: &[u8], item: Item) -> Result<(), TextFault>
    ensures { Gives (λ _. cursor.new) result (section_due word.now item cursor.old) }
{
    let kind = TextKind::Expected(item);
    if let Some(token) = cursor.next_in_line() {
        return Err(TextFault { kind, at: token.at });
    }
    let size = cursor.size();
    let Some(line) = cursor.next_line() else {
        return Err(TextFault {
            kind: TextKind::Ended,
            at: size,
        });
    };
    refuse_if(!line.says(word), kind, line.first_at())?;
    cursor.skip_line();
    skip_title(cursor);
    Ok(())
}
