//! The number of a request, as the member `number` of its body.
//! Numbers out of range: `tests/texts.py`. Wrong bodies: `must-fail-more/`.
use request::RequestNumber;
use serde_json::Value;
use std::alloc::Global;
use std::marker::Model;
use stored_json::{JsonPart, Unread};

/// The number of a request that a member of its body is: another crate's trait is implemented for a type of this crate alone.
#[derive(Clone, Copy)]
pub(crate) struct NumberMember {
    number: RequestNumber,
}

impl Model for NumberMember {
    ghost use Rattle.std.specs.Prelude.{ℕ};

    ghost Value = { ℕ };

    ghost view = { λ n. n.number };

    ghost inverse = { λ n. record { number = n } };
}

impl NumberMember {
    ghost use Rattle.std.specs.Prelude.{◌≡◌};

    /// Returns the number.
    pub(crate) fn get(self) -> RequestNumber
        ensures { result ≡ self }
    {
        self.number
    }
}

impl JsonPart for NumberMember {
    ghost use Rattle.codec.specs.Requests.{read_number};

    ghost reads = { read_number };

    fn of_json(_alloc: Global, value: &Value) -> Result<NumberMember, Unread> {
        let number = value.as_u64().ok_or(Unread::Refused)?;
        let number = RequestNumber::new(number).ok_or(Unread::Refused)?;
        Ok(NumberMember { number })
    }
}
