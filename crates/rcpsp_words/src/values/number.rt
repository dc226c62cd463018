ghost use Rattle.std.specs.Prelude.{◌≡◌};
ghost use Rattle.std.specs.Str.{all_ascii_digits};
ghost use Rattle.rcpsp_words.specs.Values.Number.{number_in};

/// The number of 1 to 20 ASCII digits, leading zeros allowed, where it lies from `least` to
/// `greatest`.
pub(crate) fn number_in(text: &str, least: u64, greatest: u64) -> Option<u64>
    ensures { result ≡ number_in text.now least greatest }
{
    if text.is_empty() || text.len() > 20 || !is_digits(text.as_bytes()) {
        return None;
    }
    let number = text.parse::<u64>().ok()?;
    (least <= number && number <= greatest).then_some(number)
}

// Whether all bytes are ASCII digits.
fn is_digits(text: &[u8]) -> bool
    ensures { result ≡ all_ascii_digits text.now }
{
    for byte in text {
        if !byte.is_ascii_digit() {
            return false;
        }
    }
    true
}
