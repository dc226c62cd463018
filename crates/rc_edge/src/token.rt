ghost use Rattle.std.specs.Prelude.{◌≡◌, ◌+◌, ◌-◌, ◌<◌, ◌≤◌, [], ◌∷◌, length, drop, take, IfNone, IfSome, false, not};
ghost use Rattle.std.specs.List.{position, position_or_len};
ghost use Rattle.rc_edge.specs.Tokens.{is_white, tokens_from, tokens_after};

/// The offset of the first token of `bytes` that begins at or after `from`, and the offset past its end.
///
/// A token is a longest run of bytes that are no white space. `None` says that no token begins there.
pub fn next_token(bytes: &[u8], from: usize) -> Option<(usize, usize)>
    requires { from ≤ length bytes.now }
    ensures none { IfNone result (tokens_after bytes.now from ≡ []) }
    ensures first { IfSome result (λ span. tokens_after bytes.now from
        ≡ record { text = take (span.1 - span.0) (drop span.0 bytes.now); at = span.0 }
        ∷ tokens_after bytes.now span.1) }
    ensures begins { IfSome result (λ span. from ≤ span.0) }
    ensures holds_a_byte { IfSome result (λ span. span.0 < span.1) }
    ensures within { IfSome result (λ span. span.1 ≤ length bytes.now) }
{
    let begun = past_begun(bytes, from);
    let start = begun + white_len(&bytes[begun..]);
    if start == bytes.len() {
        return None;
    }
    Some((start, start + word_len(&bytes[start..])))
}

/// The end of the token that is begun before `from`, or `from` where none is.
fn past_begun(bytes: &[u8], from: usize) -> usize
    requires { from ≤ length bytes.now }
    ensures tokens { tokens_after bytes.now from ≡ tokens_from false result (drop result bytes.now) }
    ensures onward { from ≤ result }
    ensures within { result ≤ length bytes.now }
{
    if from > 0 && !is_white(bytes[from - 1]) {
        from + word_len(&bytes[from..])
    } else {
        from
    }
}

/// Whether a byte is white space: a space, tab, line feed, form feed or carriage return, or 26.
#[tactic(auto, unfolding(crate::specs::Tokens::is_white))]
pub fn is_white(byte: u8) -> bool
    ensures { result ≡ is_white byte }
{
    matches!(byte, b' ' | b'\t' | b'\n' | b'\x0c' | b'\r' | 26)
}

/// The offset of the first white byte.
fn first_white(bytes: &[u8]) -> Option<usize>
    ensures { result ≡ position is_white bytes.now }
{
    bytes.iter().position(|byte| is_white(*byte))
}

/// The offset of the first byte that is not white.
fn first_black(bytes: &[u8]) -> Option<usize>
    ensures { result ≡ position (λ byte. not (is_white byte)) bytes.now }
{
    bytes.iter().position(|byte| !is_white(*byte))
}

/// How many bytes stand before the first white one.
fn word_len(bytes: &[u8]) -> usize
    ensures count { result ≡ position_or_len is_white bytes.now }
    ensures within { result ≤ length bytes.now }
{
    first_white(bytes).unwrap_or(bytes.len())
}

/// How many white bytes stand before the first other one.
fn white_len(bytes: &[u8]) -> usize
    ensures count { result ≡ position_or_len (λ byte. not (is_white byte)) bytes.now }
    ensures within { result ≤ length bytes.now }
{
    first_black(bytes).unwrap_or(bytes.len())
}
