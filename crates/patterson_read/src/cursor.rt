ghost use Rattle.std.specs.Prelude.{◌≡◌, ◌≤◌, ◌↔◌, [], length, IsTrue};
ghost use Rattle.rc_instance.specs.declared.limits.TheConstants.{MAX_FILE_BYTES};
ghost use Rattle.patterson_read.specs.Left.{whole, nothing};

use rc_edge::{Number, NumberSource, TextFault, TextKind, next_token, number_due};
use std::marker::Model;

/// What is left of a text while it is read: its tokens from a place on.
#[derive(Debug, Drop)]
pub struct Cursor<'t> {
    /// The whole text.
    text: &'t [u8],

    /// How many bytes of it were passed.
    passed: usize,
}

impl<'t> Model for Cursor<'t> {
    ghost use Rattle.patterson_read.specs.Left.{Left};

    ghost Value = { Left };

    ghost use Rattle.std.specs.Prelude.{◌≤◌, length};
    ghost use Rattle.rc_instance.specs.declared.limits.TheConstants.{MAX_FILE_BYTES};
    ghost use Rattle.rc_edge.specs.Tokens.{tokens_after};

    ghost view = { λ cursor. record {
      size = length cursor.text.now;
      tokens = tokens_after cursor.text.now cursor.passed;
    } };

    ghost invariant = { λ cursor. (cursor.passed ≤ length cursor.text.now)
        × (length cursor.text.now ≤ MAX_FILE_BYTES) };
}

impl<'t> Cursor<'t> {
    /// Before the first token of a text.
    pub fn new(text: &'t [u8]) -> Cursor<'t>
        requires { length text.now ≤ MAX_FILE_BYTES }
        ensures { result ≡ whole text.now }
    {
        Cursor { text, passed: 0 }
    }

    /// Whether no token is left.
    pub fn is_at_end(&self) -> bool
        ensures { IsTrue result ↔ (self.now.tokens ≡ []) }
    {
        next_token(self.text, self.passed).is_none()
    }

    /// Refuses a token that is left.
    pub fn end(&self) -> Result<(), TextFault>
        ensures { result ≡ nothing self.now }
    {
        match next_token(self.text, self.passed) {
            Some((start, _)) => Err(TextFault {
                kind: TextKind::Trailing,
                at: start as u32,
            }),
            None => Ok(()),
        }
    }
}

impl<'t> NumberSource for Cursor<'t> {
    ghost use Rattle.patterson_read.specs.Left.{number_due};

    ghost due = { number_due };

    #[tactic(auto, unfolding(crate::specs::Left::number_due))]
    fn number(&mut self) -> Result<Number, TextFault> {
        let (number, passed) = number_due(self.text, self.passed)?;
        self.passed = passed;
        Ok(number)
    }
}
