//! The faults of a call on a table, of which a crate above makes 90, 91 or 41.
//! Damaged rows: `tests/tables.py`. Wrong bodies: `must-fail-more/`.
use sqlite::{Error, ErrorCode};
use std::alloc::{AllocError, AllocFailed};
use std::fmt;

/// Why a call on a table failed.
#[derive(Clone, Copy, Debug, PartialEq, Eq)]
pub enum TableFault {
    /// The store refused or failed, for another reason than memory: refusal 90.
    Store,
    /// No memory was left: refusal 91.
    Memory,
    /// A row holds values that no record of its table has.
    NotARecord,
}

impl fmt::Display for TableFault {
    ghost use Rattle.std.specs.Prelude.{Some};
    ghost use Rattle.tables.specs.Faults.{table_fault_text};

    ghost output = { λ fault. Some (table_fault_text fault) };

    fn fmt<W: fmt::Write>(&self, f: &mut fmt::Formatter<W>) -> fmt::Result {
        f.write_str(match self {
            TableFault::Store => "90 Store",
            TableFault::Memory => "91 Memory",
            TableFault::NotARecord => "a row is no record of its table",
        })
    }
}

impl std::error::Error for TableFault {}

impl From<Error> for TableFault {
    ghost use Rattle.std.specs.Prelude.{◌≡◌};
    ghost use Rattle.tables.specs.Faults.{table_fault_of};

    ghost from_gives = { λ error fault. fault ≡ table_fault_of error };

    fn from(error: Error) -> TableFault {
        match error {
            Error::SqliteFailure(ErrorCode::OutOfMemory) => TableFault::Memory,
            _ => TableFault::Store,
        }
    }
}

impl From<AllocError> for TableFault {
    ghost use Rattle.std.specs.Prelude.{◌≡◌};
    ghost use Rattle.tables.specs.declared.table_fault.TableFault.TheVariants.{Memory};

    ghost from_gives = { λ _ fault. fault ≡ Memory };

    fn from(_error: AllocError) -> TableFault {
        TableFault::Memory
    }
}

impl<T: Drop> From<AllocFailed<T>> for TableFault {
    ghost use Rattle.std.specs.Prelude.{◌≡◌};
    ghost use Rattle.tables.specs.declared.table_fault.TableFault.TheVariants.{Memory};

    ghost from_gives = { λ _ fault. fault ≡ Memory };

    fn from(_failed: AllocFailed<T>) -> TableFault {
        TableFault::Memory
    }
}
