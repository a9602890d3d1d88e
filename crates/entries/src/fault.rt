//! The refusals 40, 41 and 42 of a file that is no book, is damaged, or is of another version. What each says of the
//! database is `Justifies` (`specs/Loading.antt` of `loading`), and why a read answers 90 is `HasReadCause`.
//! Files with one damage and with two: `tests/tables.py`. Wrong bodies: `must-fail-more/`.
use state_rows::StoreFault;
use std::alloc::{AllocError, AllocFailed};
use std::fmt;
use tables::TableFault;
use values::MemoryFault;

/// A table of the book, in the order in which loading looks at them.
#[derive(Clone, Copy, Debug, PartialEq, Eq)]
pub enum TableName {
    Book,
    Crew,
    Pairing,
    Period,
    Segment,
    Seat,
    Ground,
    Exceedance,
    Request,
    Base,
    CrewBase,
    Outside,
    OutsideSegment,
}

/// Why a database was not loaded.
#[derive(Clone, Copy, Debug, PartialEq, Eq)]
pub enum LoadFault {
    /// There is no table `book`: refusal 40.
    NotABook,
    /// This is the first table that isn't there as it is declared, has a row that is no value of its type, or doesn't fit
    /// the tables above it: refusal 41.
    Damaged(TableName),
    /// The tables are of a version that this program doesn't know: refusal 42.
    Version,
    /// A fault of the store (90), or out of memory (91).
    Fault(StoreFault),
}

impl LoadFault {
    ghost use Rattle.std.specs.Prelude.{◌≡◌};
    ghost use Rattle.entries.specs.Faults.{load_fault_of};

    /// Returns the refusal for a fault that a read of this table met.
    pub fn of_table(fault: TableFault, table: TableName) -> LoadFault
        ensures { result ≡ load_fault_of table fault }
    {
        match fault {
            TableFault::NotARecord => LoadFault::Damaged(table),
            TableFault::Store => LoadFault::Fault(StoreFault::Store),
            TableFault::Memory => LoadFault::Fault(StoreFault::Memory),
        }
    }
}

impl fmt::Display for TableName {
    ghost use Rattle.std.specs.Prelude.{Some};
    ghost use Rattle.entries.specs.Faults.{name_text};

    ghost output = { λ name. Some (name_text name) };

    /// Writes the table's name, as `seat`.
    fn fmt<W: fmt::Write>(&self, f: &mut fmt::Formatter<W>) -> fmt::Result {
        f.write_str(match self {
            TableName::Book => "book",
            TableName::Crew => "crew",
            TableName::Pairing => "pairing",
            TableName::Period => "period",
            TableName::Segment => "segment",
            TableName::Seat => "seat",
            TableName::Ground => "ground",
            TableName::Exceedance => "exceedance",
            TableName::Request => "request",
            TableName::Base => "base",
            TableName::CrewBase => "crew_base",
            TableName::Outside => "outside",
            TableName::OutsideSegment => "outside_segment",
        })
    }
}

impl fmt::Display for LoadFault {
    ghost use Rattle.std.specs.Prelude.{Some};
    ghost use Rattle.entries.specs.Faults.{load_text};

    ghost output = { λ fault. Some (load_text fault) };

    /// Writes the refusal, as `41 Damaged seat`.
    fn fmt<W: fmt::Write>(&self, f: &mut fmt::Formatter<W>) -> fmt::Result {
        match self {
            LoadFault::NotABook => f.write_str("40 NotABook"),
            LoadFault::Damaged(table) => write!(f, "41 Damaged {table}"),
            LoadFault::Version => f.write_str("42 Version"),
            LoadFault::Fault(fault) => write!(f, "{fault}"),
        }
    }
}

impl std::error::Error for LoadFault {}

impl From<TableFault> for LoadFault {
    ghost use Rattle.std.specs.Prelude.{◌≡◌};
    ghost use Rattle.state_rows.specs.Faults.{store_fault_of};
    ghost use Rattle.entries.specs.declared.fault.LoadFault.TheVariants.{Fault};

    ghost from_gives = { λ fault given. given ≡ Fault (store_fault_of fault) };

    fn from(fault: TableFault) -> LoadFault {
        LoadFault::Fault(StoreFault::from(fault))
    }
}

impl From<MemoryFault> for LoadFault {
    ghost use Rattle.std.specs.Prelude.{◌≡◌};
    ghost use Rattle.entries.specs.declared.fault.LoadFault.TheVariants.{Fault};
    ghost use Rattle.state_rows.specs.declared.fault.StoreFault.TheVariants.{Memory};

    ghost from_gives = { λ _ fault. fault ≡ Fault Memory };

    fn from(_fault: MemoryFault) -> LoadFault {
        LoadFault::Fault(StoreFault::Memory)
    }
}

impl From<AllocError> for LoadFault {
    ghost use Rattle.std.specs.Prelude.{◌≡◌};
    ghost use Rattle.entries.specs.declared.fault.LoadFault.TheVariants.{Fault};
    ghost use Rattle.state_rows.specs.declared.fault.StoreFault.TheVariants.{Memory};

    ghost from_gives = { λ _ fault. fault ≡ Fault Memory };

    fn from(_error: AllocError) -> LoadFault {
        LoadFault::Fault(StoreFault::Memory)
    }
}

impl<T: Drop> From<AllocFailed<T>> for LoadFault {
    ghost use Rattle.std.specs.Prelude.{◌≡◌};
    ghost use Rattle.entries.specs.declared.fault.LoadFault.TheVariants.{Fault};
    ghost use Rattle.state_rows.specs.declared.fault.StoreFault.TheVariants.{Memory};

    ghost from_gives = { λ _ fault. fault ≡ Fault Memory };

    fn from(_failed: AllocFailed<T>) -> LoadFault {
        LoadFault::Fault(StoreFault::Memory)
    }
}
