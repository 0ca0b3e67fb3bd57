//! Numbers written in decimal.
ghost use Rattle.std.specs.Prelude.{◌≡◌, ◌≤◌, ◌==◌, length};
ghost use Rattle.std.specs.List.{list_all};
ghost use Rattle.std.specs.Str.Parse.{AllDigits, digits_value};
ghost use Rattle.text_lines.specs.NumberTokens.{is_digit, is_number, number_of};

/// How many digits a number may have: one of more exceeds a limit.
pub const MAX_DIGITS: usize = 9;

/// What represents each number of more than `MAX_DIGITS` digits.
pub const OVERLONG: u32 = u32::MAX;

/// The number that a token writes: `0`, or a digit from 1 to 9 and any digits; `None` exactly where it has another form.
///
/// A number of more than `MAX_DIGITS` digits is answered as `OVERLONG`, which is above all others.
pub fn number(token: &[u8]) -> Option<u32>
    ensures { result ≡ number_of token.now }
{
    if !is_number(token) {
        return None;
    }
    if token.len() > MAX_DIGITS {
        return Some(OVERLONG);
    }
    Some(value(token))
}

/// Whether a token has the form of a number.
fn is_number(token: &[u8]) -> bool
    ensures { result ≡ is_number token.now }
{
    match token {
        [] => false,
        [b'0', rest @ ..] => rest.is_empty(),
        [first, rest @ ..] => is_digit(*first) && all_digits(rest),
    }
}

/// Whether a byte is a digit.
fn is_digit(byte: u8) -> bool
    ensures { result ≡ is_digit byte }
{
    b'0' <= byte && byte <= b'9'
}

/// Whether each byte is a digit.
fn all_digits(bytes: &[u8]) -> bool
    ensures { result ≡ list_all is_digit bytes.now }
{
    bytes.iter().all(|byte| b'0' <= *byte && *byte <= b'9')
}

/// The number that some decimal digits write.
fn value(digits: &[u8]) -> u32
    requires digits { AllDigits 10 digits.now }
    requires short { length digits.now ≤ MAX_DIGITS }
    ensures { result ≡ digits_value 10 digits.now }
{
    let mut value = 0u32;
    for byte in digits {
        value = value * 10 + u32::from(*byte - b'0');
    }
    value
}
