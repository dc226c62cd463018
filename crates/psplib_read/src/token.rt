ghost use Rattle.std.specs.Prelude.{◌≡◌};
ghost use Rattle.psplib_read.specs.Preamble.{token_number};

use rc_edge::{Number, NumberFault, TextFault, TextKind, read_number};
use std::marker::Model;

/// A token of a text.
#[derive(Debug, Drop)]
pub struct Token<'t> {
    /// Its bytes.
    pub text: &'t [u8],

    /// The offset of the first of them.
    pub at: u32,
}

impl<'t> Model for Token<'t> {
    ghost use Rattle.rc_edge.specs.Tokens.{Token as TextToken};

    ghost Value = { TextToken };

    ghost view = { λ token. record { text = token.text.now; at = token.at } };
}

/// The number that a token is.
#[tactic(auto, unfolding(crate::specs::Preamble::token_number))]
pub fn token_number(token: &Token) -> Result<Number, TextFault>
    ensures { result ≡ token_number token.now }
{
    let at = token.at;
    let kind = match read_number(token.text) {
        Ok(value) => return Ok(Number { value, at }),
        Err(NumberFault::NotANumber) => TextKind::NotANumber,
        Err(NumberFault::NumberTooLarge) => TextKind::NumberTooLarge,
    };
    Err(TextFault { kind, at })
}
