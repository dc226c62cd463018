ghost use Rattle.std.specs.Prelude.{◌≡◌};
ghost use Rattle.rc_edge.specs.Grammar.{Gives};
ghost use Rattle.psplib_read.specs.Sm.{same_due, job_due, nothing};

use crate::cursor::Cursor;
use crate::token::token_number;
use rc_edge::{Number, NumberSource, TextFault, TextKind, refuse_if};

impl<'t> NumberSource for Cursor<'t> {
    ghost use Rattle.psplib_read.specs.Sm.{number_due};

    ghost due = { number_due };

    #[tactic(auto, unfolding(crate::specs::Sm::number_due))]
    fn number(&mut self) -> Result<Number, TextFault> {
        let size = self.size();
        match self.next_token() {
            Some(token) => token_number(&token),
            None => Err(TextFault {
                kind: TextKind::Ended,
                at: size,
            }),
        }
    }
}

/// Passes over a number that has to be this one; a fault of this kind where it is another.
#[tactic(auto, unfolding(crate::specs::Sm::same_due))]
fn same_due(cursor: &mut Cursor, value: u32, kind: TextKind) -> Result<(), TextFault>
    ensures { Gives (λ _. cursor.new) result (same_due value kind cursor.old) }
{
    let number = cursor.number()?;
    refuse_if(number.value != value, kind, number.at)
}

/// Passes over the number of a job, and its mode or how many it has, which is 1.
#[tactic(auto, unfolding(crate::specs::Sm::job_due))]
pub fn job_due(cursor: &mut Cursor, job: u32) -> Result<(), TextFault>
    ensures { Gives (λ _. cursor.new) result (job_due job cursor.old) }
{
    same_due(cursor, job, TextKind::WrongJobNumber)?;
    same_due(cursor, 1, TextKind::MultiMode)
}

/// Refuses a token that is left.
pub fn end_due(cursor: &mut Cursor) -> Result<(), TextFault>
    ensures { result ≡ nothing cursor.old }
{
    match cursor.next_token() {
        Some(token) => Err(TextFault {
            kind: TextKind::Trailing,
            at: token.at,
        }),
        None => Ok(()),
    }
}
