ghost use Rattle.std.specs.Prelude.{◌≡◌, ◌≤◌, ◌<◌, length, not, IfSome};
ghost use Rattle.std.specs.List.{after_first, position};
ghost use Rattle.rc_edge.specs.Tokens.{is_white};
ghost use Rattle.psplib_read.specs.Lines.{has_only, is_silent, is_colon, key_in, begins_with, says, has_colon, indent, first_at, begins_with_digit, values_in, first_of, line_end};

use crate::token::Token;
use rc_edge::{is_white, next_token};
use std::marker::Model;

/// A line of a text, without its end.
#[derive(Debug, Drop)]
pub struct Line<'t> {
    /// Its bytes.
    pub text: &'t [u8],

    /// The offset of the first of them.
    pub at: usize,
}

impl<'t> Model for Line<'t> {
    ghost use Rattle.std.specs.Prelude.{◌+◌, ◌≤◌, length};
    ghost use Rattle.rc_instance.specs.declared.limits.TheConstants.{MAX_FILE_BYTES};
    ghost use Rattle.psplib_read.specs.Lines.{Line as TextLine};

    ghost Value = { TextLine };

    ghost view = { λ line. record { text = line.text.now; at = line.at } };

    ghost invariant = { λ line. line.at + length line.text.now ≤ MAX_FILE_BYTES };
}

impl<'t> Line<'t> {
    /// Whether it is blank or a ruler, which is passed over everywhere.
    #[tactic(auto, unfolding(crate::specs::Lines::is_silent))]
    pub fn is_silent(&self) -> bool
        ensures { result ≡ is_silent self.now }
    {
        has_only(self.text, b'*') || has_only(self.text, b'-')
    }

    /// Whether its key begins with a word.
    #[tactic(auto, unfolding(crate::specs::Lines::says))]
    pub fn says(&self, word: &[u8]) -> bool
        ensures { result ≡ says word.now self.now }
    {
        key_begins(self.text, word)
    }

    /// Whether it has a colon.
    pub fn has_colon(&self) -> bool
        ensures { result ≡ has_colon self.now }
    {
        self.text.iter().any(|byte| *byte == b':')
    }

    /// The offset of its first token, where it has one.
    #[tactic(auto, unfolding(crate::specs::Lines::first_at))]
    pub fn first_at(&self) -> u32
        ensures { result ≡ first_at self.now }
    {
        (self.at + indent(self.text)) as u32
    }

    /// The offset just past its last byte.
    pub fn end(&self) -> u32
        ensures { result ≡ line_end self.now }
    {
        (self.at + self.text.len()) as u32
    }

    /// The first token after its first colon, if there is one.
    #[tactic(auto, unfolding(crate::specs::Lines::values_in))]
    pub fn first_value(&self) -> Option<Token<'t>>
        ensures { result ≡ first_of (values_in self.now) }
    {
        let rest = after_colon(self.text);
        let (start, end) = next_token(rest, 0)?;
        let from = self.at + (self.text.len() - rest.len());
        Some(Token {
            text: &rest[start..end],
            at: (from + start) as u32,
        })
    }

    /// Whether its first token begins with a digit.
    #[tactic(auto, unfolding(crate::specs::Lines::begins_with_digit))]
    pub fn begins_with_digit(&self) -> bool
        ensures { result ≡ begins_with_digit self.now }
    {
        let indent = indent(self.text);
        indent < self.text.len() && self.text[indent].is_ascii_digit()
    }
}

/// No byte but white space and this one.
fn has_only(text: &[u8], mark: u8) -> bool
    ensures { result ≡ has_only mark text.now }
{
    text.iter().all(|byte| is_white(*byte) || *byte == mark)
}

/// What stands after the first colon.
fn after_colon(text: &[u8]) -> &[u8]
    ensures rest { result.now ≡ after_first is_colon text.now }
    ensures within { length result.now ≤ length text.now }
{
    match first_colon(text) {
        Some(colon) => &text[colon + 1..],
        None => &[],
    }
}

/// How many white bytes stand before the first token.
fn indent(text: &[u8]) -> usize
    ensures count { result ≡ indent text.now }
    ensures within { result ≤ length text.now }
{
    first_black(text).unwrap_or(text.len())
}

/// The place of the first byte that is not white.
fn first_black(text: &[u8]) -> Option<usize>
    ensures { result ≡ position (λ byte. not (is_white byte)) text.now }
{
    text.iter().position(|byte| !is_white(*byte))
}

/// The place of the first colon.
fn first_colon(text: &[u8]) -> Option<usize>
    ensures place { result ≡ position is_colon text.now }
    ensures within { IfSome result (λ place. place < length text.now) }
{
    text.iter().position(|byte| *byte == b':')
}

/// Whether the key of these bytes begins with a word.
fn key_begins(text: &[u8], word: &[u8]) -> bool
    ensures { result ≡ begins_with word.now (key_in text.now) }
{
    let mut matched = 0;
    for byte in text {
        if matched == word.len() {
            return true;
        }
        if *byte == b':' {
            return false;
        }
        if is_white(*byte) {
            continue;
        }
        if byte.to_ascii_lowercase() != word[matched] {
            return false;
        }
        matched += 1;
    }
    matched == word.len()
}
