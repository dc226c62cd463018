ghost use Rattle.std.specs.Prelude.{◌≡◌, ◌≤◌, length, IfOk};
ghost use Rattle.rc_instance.specs.declared.limits.TheConstants.{MAX_FILE_BYTES};
ghost use Rattle.rc_edge.specs.Tokens.{tokens_after};
ghost use Rattle.rc_edge.specs.Grammar.{Gives, number_due, refuse_if};

use crate::number::{NumberFault, read_number};
use crate::text_fault::{TextFault, TextKind};
use crate::token::next_token;

/// A number of a text, and the offset of its token.
#[derive(Clone, Copy, Debug, PartialEq, Eq)]
pub struct Number {
    /// The number.
    pub value: u32,

    /// The offset of its first byte.
    pub at: u32,
}

/// The number that the first token at or after `from` is, and the offset past that token.
///
/// `Ended` where there is no token; `NotANumber` or `NumberTooLarge` where `read_number` refuses it.
#[tactic(auto, unfolding(crate::specs::Grammar::number_due))]
pub fn number_due(bytes: &[u8], from: usize) -> Result<(Number, usize), TextFault>
    requires size { length bytes.now ≤ MAX_FILE_BYTES }
    requires start { from ≤ length bytes.now }
    ensures reads { Gives (λ x. (x.0, tokens_after bytes.now x.1)) result
        (number_due (length bytes.now) (tokens_after bytes.now from)) }
    ensures within { IfOk result (λ x. x.1 ≤ length bytes.now) }
{
    let Some((start, end)) = next_token(bytes, from) else {
        return Err(TextFault {
            kind: TextKind::Ended,
            at: bytes.len() as u32,
        });
    };
    let at = start as u32;
    match read_number(&bytes[start..end]) {
        Ok(value) => Ok((Number { value, at }, end)),
        Err(NumberFault::NotANumber) => Err(TextFault {
            kind: TextKind::NotANumber,
            at,
        }),
        Err(NumberFault::NumberTooLarge) => Err(TextFault {
            kind: TextKind::NumberTooLarge,
            at,
        }),
    }
}

/// A fault of this kind at this offset, where the test holds.
pub fn refuse_if(refused: bool, kind: TextKind, at: u32) -> Result<(), TextFault>
    ensures { result ≡ refuse_if refused kind at }
{
    if refused {
        return Err(TextFault { kind, at });
    }
    Ok(())
}
