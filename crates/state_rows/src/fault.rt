//! The refusals 90 and 91, of every call on the tables of a book.
//! Out of memory at each call: `tests/allocations.py`. Wrong bodies: `must-fail-more/`.
use std::alloc::AllocError;
use std::fmt;
use tables::TableFault;
use values::MemoryFault;

/// Why a call on the tables of a book failed.
#[derive(Clone, Copy, Debug, PartialEq, Eq)]
pub enum StoreFault {
    /// The store refused or failed for another reason than memory, or a commit failed for whatever reason: refusal 90.
    Store,
    /// No memory was left before the commit: refusal 91. Nothing is changed.
    Memory,
}

impl fmt::Display for StoreFault {
    ghost use Rattle.std.specs.Prelude.{Some};
    ghost use Rattle.state_rows.specs.Faults.{store_fault_text};

    ghost output = { λ fault. Some (store_fault_text fault) };

    fn fmt<W: fmt::Write>(&self, f: &mut fmt::Formatter<W>) -> fmt::Result {
        f.write_str(match self {
            StoreFault::Store => "90 Store",
            StoreFault::Memory => "91 Memory",
        })
    }
}

impl std::error::Error for StoreFault {}

impl From<TableFault> for StoreFault {
    ghost use Rattle.std.specs.Prelude.{◌≡◌};
    ghost use Rattle.state_rows.specs.Faults.{store_fault_of};

    ghost from_gives = { λ fault given. given ≡ store_fault_of fault };

    fn from(fault: TableFault) -> StoreFault {
        match fault {
            TableFault::Memory => StoreFault::Memory,
            TableFault::Store | TableFault::NotARecord => StoreFault::Store,
        }
    }
}

impl From<MemoryFault> for StoreFault {
    ghost use Rattle.std.specs.Prelude.{◌≡◌};
    ghost use Rattle.state_rows.specs.declared.fault.StoreFault.TheVariants.{Memory};

    ghost from_gives = { λ _ fault. fault ≡ Memory };

    fn from(_fault: MemoryFault) -> StoreFault {
        StoreFault::Memory
    }
}

impl From<AllocError> for StoreFault {
    ghost use Rattle.std.specs.Prelude.{◌≡◌};
    ghost use Rattle.state_rows.specs.declared.fault.StoreFault.TheVariants.{Memory};

    ghost from_gives = { λ _ fault. fault ≡ Memory };

    fn from(_error: AllocError) -> StoreFault {
        StoreFault::Memory
    }
}
