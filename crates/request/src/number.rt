//! The number that a client gives a request, under which what it asks is done once.
//! Numbers out of range: `tests/texts.py`, `tests/exchanges.py`. Wrong bodies: `must-fail-more/`.
use std::marker::Model;

/// The number of a request, from 1 to 9,223,372,036,854,775,807.
#[derive(Clone, Copy, Debug, PartialEq, Eq, PartialOrd, Ord)]
pub struct RequestNumber {
    number: u64,
}

impl Model for RequestNumber {
    ghost use Rattle.std.specs.Prelude.{ℕ, ◌≤◌};

    ghost Value = { ℕ };

    ghost view = { λ n. n.number };

    ghost invariant = { λ n. (1 ≤ n.number) × (n.number ≤ 9_223_372_036_854_775_807) };

    ghost inverse = { λ n. record { number = n } };
}

impl RequestNumber {
    ghost use Rattle.std.specs.Prelude.{◌≡◌, ◌≤◌, Some, None, if◌then◌else◌};
    ghost use Rattle.request.specs.Range.{is_in_range};

    /// The lowest number, 1.
    pub const FIRST: RequestNumber = RequestNumber { number: 1 };

    /// Takes the number, if it is from 1 to 9,223,372,036,854,775,807.
    pub fn new(number: u64) -> Option<RequestNumber>
        ensures { result ≡ (if is_in_range number then Some number else None) }
    {
        if (1..=9_223_372_036_854_775_807).contains(&number) {
            Some(RequestNumber { number })
        } else {
            None
        }
    }

    /// Returns the number, from 1 to 9,223,372,036,854,775,807.
    pub fn get(self) -> u64
        ensures number { result ≡ self }
        ensures low { 1 ≤ result }
        ensures high { result ≤ 9_223_372_036_854_775_807 }
    {
        self.number
    }
}
