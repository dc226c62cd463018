ghost use Rattle.std.specs.Prelude.{◌≡◌, ◌+◌, ◌≤◌, length, IfNone};
ghost use Rattle.rc_instance.specs.declared.limits.TheConstants.{MAX_FILE_BYTES};
ghost use Rattle.psplib_read.specs.Left.{Finds, whole, next_line, next_in_line, next_token, past_line};

use crate::line::Line;
use crate::split::next_spoken;
use crate::token::Token;
use rc_edge::next_token;
use std::marker::Model;

/// What is left of a text while it is read: a place in a line, and the bytes after that line.
#[derive(Debug, Drop)]
pub struct Cursor<'t> {
    /// The present line.
    line: &'t [u8],

    /// The offset of the line in the text.
    line_at: usize,

    /// How many bytes of the line were passed.
    passed: usize,

    /// The bytes after the line's end.
    rest: &'t [u8],

    /// Their offset in the text.
    rest_at: usize,

    /// The length of the text.
    size: usize,
}

impl<'t> Model for Cursor<'t> {
    ghost use Rattle.psplib_read.specs.Left.{Left};

    ghost Value = { Left };

    ghost use Rattle.std.specs.Prelude.{◌+◌, ◌≤◌, length, map, false};
    ghost use Rattle.rc_instance.specs.declared.limits.TheConstants.{MAX_FILE_BYTES};
    ghost use Rattle.rc_edge.specs.Tokens.{tokens_after};
    ghost use Rattle.psplib_read.specs.Lines.{moved, spoken, lines_from};

    ghost view = { λ cursor. record {
      size = cursor.size;
      tokens = map (moved cursor.line_at) (tokens_after cursor.line.now cursor.passed);
      lines = spoken (lines_from false cursor.rest_at cursor.rest.now);
    } };

    ghost invariant = { λ cursor. (cursor.passed ≤ length cursor.line.now)
        × (cursor.line_at + length cursor.line.now ≤ cursor.size)
        × (cursor.rest_at + length cursor.rest.now ≤ cursor.size)
        × (cursor.size ≤ MAX_FILE_BYTES) };
}

impl<'t> Cursor<'t> {
    /// Before the first line of a text.
    pub fn new(bytes: &'t [u8]) -> Cursor<'t>
        requires { length bytes.now ≤ MAX_FILE_BYTES }
        ensures { result ≡ whole bytes.now }
    {
        Cursor {
            line: &[],
            line_at: 0,
            passed: 0,
            rest: bytes,
            rest_at: 0,
            size: bytes.len(),
        }
    }

    /// The length of the whole text.
    pub fn size(&self) -> u32
        ensures { result ≡ self.now.size }
    {
        self.size as u32
    }

    /// The next line that is neither blank nor a ruler, if there is one; its tokens are next.
    #[tactic(auto, unfolding(crate::specs::Left::next_line))]
    pub fn next_line(&mut self) -> Option<Line<'t>>
        ensures found { Finds (λ line. (line, self.new)) result (next_line self.old) }
        ensures stays { IfNone result (self.new ≡ self.old) }
    {
        let (line, rest, rest_at) = next_spoken(self.rest, self.rest_at)?;
        self.line = line.text;
        self.line_at = line.at;
        self.passed = 0;
        self.rest = rest;
        self.rest_at = rest_at;
        Some(line)
    }

    /// The next token of the present line, if one is left.
    #[tactic(auto, unfolding(crate::specs::Left::next_in_line))]
    pub fn next_in_line(&mut self) -> Option<Token<'t>>
        ensures found { Finds (λ token. (token, self.new)) result (next_in_line self.old) }
        ensures stays { IfNone result (self.new ≡ self.old) }
    {
        let (start, end) = next_token(self.line, self.passed)?;
        self.passed = end;
        Some(Token {
            text: &self.line[start..end],
            at: (self.line_at + start) as u32,
        })
    }

    /// The next token of the text, if one is left: of the present line, or else of the next.
    #[tactic(auto, unfolding(crate::specs::Left::next_token))]
    pub fn next_token(&mut self) -> Option<Token<'t>>
        ensures { Finds (λ token. (token, self.new)) result (next_token self.old) }
    {
        if let Some(token) = self.next_in_line() {
            return Some(token);
        }
        self.next_line()?;
        self.next_in_line()
    }

    /// Passes over what is left of the present line.
    #[tactic(auto, unfolding(crate::specs::Left::past_line))]
    pub fn skip_line(&mut self)
        ensures { self.new ≡ past_line self.old }
    {
        self.passed = self.line.len();
    }
}
