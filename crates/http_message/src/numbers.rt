//! Numbers in a head, which are plain decimals (RFC 9110, section 8.6).
//! What clients send: `tests/exchanges.py`. Wrong bodies: `must-fail-more/`.
ghost use Rattle.std.specs.Prelude.{◌≡◌, min, true};
ghost use Rattle.std.specs.Char.{is_ascii_digit};
ghost use Rattle.std.specs.List.{list_all};
ghost use Rattle.std.specs.Str.Parse.{digits_value};
ghost use Rattle.http_message.specs.Numbers as spec;

use request::RequestNumber;

/// The most bytes of a body.
pub(crate) const MOST_BODY: usize = 1_048_576;

/// Reads the length that a field's value says, up to one byte more than a body may have.
pub(crate) fn length_of(value: &[u8]) -> Option<usize>
    ensures { result ≡ spec.body_length_of value.now }
{
    if is_number(value) {
        Some(saturate(value))
    } else {
        None
    }
}

/// Returns whether a text is one decimal digit or more.
fn is_number(text: &[u8]) -> bool
    ensures { result ≡ spec.is_number text.now }
{
    !text.is_empty() && are_digits(text)
}

/// Returns whether each byte is a decimal digit.
fn are_digits(text: &[u8]) -> bool
    ensures { result ≡ list_all is_ascii_digit text.now }
{
    text.iter().all(|b| is_digit(*b))
}

/// Returns whether a byte is a decimal digit.
fn is_digit(byte: u8) -> bool
    ensures { result ≡ is_ascii_digit byte }
{
    byte.is_ascii_digit()
}

/// Reads the number of these digits, up to one byte more than a body may have.
fn saturate(text: &[u8]) -> usize
    requires { spec.is_number text.now ≡ true }
    ensures { result ≡ min (digits_value 10 text.now) 1_048_577 }
{
    let mut number = 0usize;
    for digit in text {
        number = (number * 10 + usize::from(digit.wrapping_sub(b'0'))).min(MOST_BODY + 1);
    }
    number
}

/// Reads the number in a path, of an import or of a request.
pub(crate) fn number_in_path(text: &[u8]) -> Option<RequestNumber>
    ensures { result ≡ spec.path_number text.now }
{
    if !is_number(text) || text[0] == b'0' {
        return None;
    }
    RequestNumber::new(saturated_long(text))
}

/// Reads the number of these digits, up to the greatest of its type.
fn saturated_long(text: &[u8]) -> u64
    requires { spec.is_number text.now ≡ true }
    ensures { result ≡ min (digits_value 10 text.now) 18_446_744_073_709_551_615 }
{
    let mut number = 0u64;
    for digit in text {
        number = number
            .saturating_mul(10)
            .saturating_add(u64::from(digit.wrapping_sub(b'0')));
    }
    number
}
