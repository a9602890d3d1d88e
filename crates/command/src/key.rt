//! Keys: the number of a request, and the part of it. Under one key one command is done, once.
//! Numbers out of range: `tests/texts.py`; both ends: `tests/transcripts/import_numbers.txt`. Wrong bodies:
//! `must-fail-more/`.
ghost use Rattle.std.specs.Prelude.{◌≡◌, ◌≤◌};
ghost use Rattle.command.specs.Keys.{KeyParts};

use request::RequestNumber;
use std::alloc::Global;
use std::marker::Model;
use values::{MemoryFault, OrdKey, TryClone};

/// What a command comes under: the number of its request, and its part. A single
/// command has part 0; part i of an import is its i-th pairing, of at most 10,000. Keys are ordered by number, then part.
#[derive(Clone, Copy, Debug, PartialEq, Eq, PartialOrd, Ord)]
pub struct Key {
    number: RequestNumber,
    part: u16,
}

impl Model for Key {
    ghost use Rattle.std.specs.Prelude.{◌≤◌};
    ghost use Rattle.command.specs.Keys.{KeyParts};

    ghost Value = { KeyParts };

    ghost view = { λ k. record { number = k.number; part = k.part } };

    ghost invariant = { λ k. k.part ≤ 10_000 };

    ghost inverse = { λ k. record { number = k.number; part = k.part } };
}

impl Key {
    /// Makes the key of a request's part.
    pub fn new(number: RequestNumber, part: u16) -> Key
        requires part { part ≤ 10_000 }
        ensures { let key : KeyParts = record { number = number; part = part } in result ≡ key }
    {
        Key { number, part }
    }

    /// Returns the number of the request.
    pub fn number(self) -> RequestNumber
        ensures { result ≡ self.number }
    {
        self.number
    }

    /// Returns the part of an import, from 1, or 0 of a single command.
    pub fn part(self) -> u16
        ensures part { result ≡ self.part }
        ensures high { result ≤ 10_000 }
    {
        self.part
    }
}

impl OrdKey for Key {
    ghost use Rattle.command.specs.Keys.{key_name, keys_order};

    ghost name = { key_name };

    ghost same_order = { keys_order };
}

impl TryClone for Key {
    fn try_clone(&self, _alloc: Global) -> Result<Key, MemoryFault> {
        Ok(*self)
    }
}
