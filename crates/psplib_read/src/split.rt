ghost use Rattle.std.specs.Prelude.{◌≡◌, ◌+◌, ◌≤◌, ◌<◌, [], ◌∷◌, length, drop, false, IfNone, IfSome};
ghost use Rattle.std.specs.List.{position};
ghost use Rattle.std.specs.Io.BufRead.{strip_last};
ghost use Rattle.rc_instance.specs.declared.limits.TheConstants.{MAX_FILE_BYTES};
ghost use Rattle.psplib_read.specs.Lines.{line_text, line_len, lines_from, spoken, is_newline, line_end};

use crate::line::Line;

/// The first line that is neither blank nor a ruler, the bytes after its end, and their offset; the
/// bytes have the offset `from`.
pub fn next_spoken<'t>(bytes: &'t [u8], from: usize) -> Option<(Line<'t>, &'t [u8], usize)>
    requires { from + length bytes.now ≤ MAX_FILE_BYTES }
    ensures none { IfNone result (spoken (lines_from false from bytes.now) ≡ []) }
    ensures first { IfSome result
        (λ x. spoken (lines_from false from bytes.now) ≡ x.0 ∷ spoken (lines_from false x.2 x.1.now)) }
    ensures line_within { IfSome result (λ x. line_end x.0 ≤ from + length bytes.now) }
    ensures rest_within { IfSome result (λ x. x.2 + length x.1.now ≤ from + length bytes.now) }
{
    let mut rest = bytes;
    let mut at = from;
    while !rest.is_empty() {
        let (text, after) = split_line(rest);
        let line = Line { text, at };
        at += rest.len() - after.len();
        rest = after;
        if !line.is_silent() {
            return Some((line, rest, at));
        }
    }
    None
}

/// The first line, and the bytes after its end.
fn split_line(bytes: &[u8]) -> (&[u8], &[u8])
    ensures text { result.0.now ≡ line_text bytes.now }
    ensures rest { result.1.now ≡ drop (line_len bytes.now + 1) bytes.now }
    ensures text_within { length result.0.now ≤ length bytes.now }
{
    match first_newline(bytes) {
        Some(end) => (without_return(&bytes[..end]), &bytes[end + 1..]),
        None => (bytes, &[]),
    }
}

/// The bytes without a CR at their end.
fn without_return(text: &[u8]) -> &[u8]
    ensures text { result.now ≡ strip_last 13 text.now }
    ensures within { length result.now ≤ length text.now }
{
    match text.split_last() {
        Some((b'\r', front)) => front,
        _ => text,
    }
}

/// The place of the first LF.
fn first_newline(bytes: &[u8]) -> Option<usize>
    ensures place { result ≡ position is_newline bytes.now }
    ensures within { IfSome result (λ place. place < length bytes.now) }
{
    bytes.iter().position(|byte| *byte == b'\n')
}
