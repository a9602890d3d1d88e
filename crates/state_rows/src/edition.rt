//! The versions of the tables.
//! Files of either version: `tests/tables.py`. Wrong bodies: `must-fail-more/`.

ghost use Rattle.std.specs.Prelude.{◌≡◌, pos};
ghost use Rattle.state_rows.specs.Editions.{edition_number};

/// A version of the tables of a book.
#[derive(Clone, Copy, Debug, PartialEq, Eq)]
pub enum Edition {
    /// The nine tables from `book` to `request`: version 1.
    First,
    /// Those, and `base`, `crew_base`, `outside` and `outside_segment`: version 2.
    Second,
}

impl Edition {
    /// Returns the number that the row of `book` has in this version.
    pub fn number(self) -> i64
        ensures { result ≡ pos (edition_number self) }
    {
        match self {
            Edition::First => 1,
            Edition::Second => 2,
        }
    }
}
