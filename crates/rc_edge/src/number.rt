ghost use Rattle.std.specs.Prelude.{◌≡◌};
ghost use Rattle.std.specs.List.{list_all};
ghost use Rattle.std.specs.Char.{is_ascii_digit};
ghost use Rattle.rc_edge.specs.Numbers.{is_numeral, number_of};

use std::error::Error;
use std::fmt;

/// Why a token is no number of a text.
#[derive(Clone, Copy, Debug, PartialEq, Eq)]
pub enum NumberFault {
    /// It is empty, or has a byte that is no ASCII digit.
    NotANumber,

    /// It is all digits, and its value is above 4,294,967,295.
    NumberTooLarge,
}

impl fmt::Display for NumberFault {
    ghost use Rattle.std.specs.Prelude.{Some};
    ghost use Rattle.rc_edge.specs.FaultWords.{number_words};

    ghost output = { λ fault. Some (number_words fault) };

    fn fmt<W: fmt::Write>(&self, f: &mut fmt::Formatter<W>) -> fmt::Result {
        f.write_str(match self {
            NumberFault::NotANumber => "not a number",
            NumberFault::NumberTooLarge => "number too large",
        })
    }
}

impl Error for NumberFault {}

/// The number that a token spells in decimal digits. Leading zeros are allowed.
pub fn read_number(token: &[u8]) -> Result<u32, NumberFault>
    ensures { result ≡ number_of token.now }
{
    if !is_numeral(token) {
        return Err(NumberFault::NotANumber);
    }
    let mut value = 0;
    for byte in token {
        value = value * 10 + u64::from(*byte - b'0');
        if value > u64::from(u32::MAX) {
            return Err(NumberFault::NumberTooLarge);
        }
    }
    Ok(value as u32)
}

fn is_numeral(token: &[u8]) -> bool
    ensures { result ≡ is_numeral token.now }
{
    !token.is_empty() && all_digits(token)
}

fn all_digits(token: &[u8]) -> bool
    ensures { result ≡ list_all is_ascii_digit token.now }
{
    token.iter().all(|byte| byte.is_ascii_digit())
}
