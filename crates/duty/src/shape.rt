//! Which texts are ids, flights, airports, names and tasks.
//! Texts on both sides of each shape: `tests/answers.py`. Wrong bodies: `must-fail-more/`.
ghost use Rattle.std.specs.Prelude.{◌≡◌};
ghost use Rattle.std.specs.List.{list_all};
ghost use Rattle.duty.specs.Shape as spec;

use values::Text;

/// Returns whether the text is 1 to 60 bytes, none of them under 32 or 127, as the name of a member
/// or the task of a ground duty has to be.
pub fn is_plain_text(text: &Text) -> bool
    ensures { result ≡ spec.is_plain_text text.now }
{
    let bytes = text.as_str().as_bytes();
    (1..=60).contains(&bytes.len()) && are_plain(bytes)
}

/// Returns whether the text is 1 to 12 bytes of `A-Z`, `0-9` and `-`.
pub fn is_id(text: &str) -> bool
    ensures { result ≡ spec.is_id text.now }
{
    (1..=12).contains(&text.len()) && are_of_ids(text.as_bytes())
}

/// Returns whether the text is 1 to 8 bytes of `A-Z` and `0-9`.
pub fn is_flight(text: &str) -> bool
    ensures { result ≡ spec.is_flight text.now }
{
    (1..=8).contains(&text.len()) && are_of_codes(text.as_bytes())
}

/// Returns whether the text is 3 or 4 bytes of `A-Z` and `0-9`.
pub fn is_airport(text: &str) -> bool
    ensures { result ≡ spec.is_airport text.now }
{
    (3..=4).contains(&text.len()) && are_of_codes(text.as_bytes())
}

fn are_plain(bytes: &[u8]) -> bool
    ensures { result ≡ list_all spec.is_plain_byte bytes.now }
{
    bytes.iter().all(|byte| *byte >= 32 && *byte != 127)
}

fn are_of_ids(bytes: &[u8]) -> bool
    ensures { result ≡ list_all spec.is_id_byte bytes.now }
{
    bytes
        .iter()
        .all(|byte| is_code_byte(*byte) || *byte == b'-')
}

fn are_of_codes(bytes: &[u8]) -> bool
    ensures { result ≡ list_all spec.is_code_byte bytes.now }
{
    bytes.iter().all(|byte| is_code_byte(*byte))
}

fn is_code_byte(byte: u8) -> bool
    ensures { result ≡ spec.is_code_byte byte }
{
    byte.is_ascii_uppercase() || byte.is_ascii_digit()
}
