//! Out of memory, the one fault that every call that makes something may have. The program prints it as 91.
//! Tested by `tests/allocations.py`, which refuses the program one call for memory after the other. Wrong bodies: `must-fail-more/`.
use std::alloc::{AllocError, AllocFailed};
use std::error::Error;
use std::fmt;

/// No memory was left for what a call makes.
#[derive(Clone, Copy, Debug, PartialEq, Eq)]
pub struct MemoryFault;

impl fmt::Display for MemoryFault {
    ghost use Rattle.std.specs.Prelude.{Some, codes};

    ghost output = { λ _. Some (codes "out of memory") };

    fn fmt<W: fmt::Write>(&self, f: &mut fmt::Formatter<W>) -> fmt::Result {
        write!(f, "out of memory")
    }
}

impl Error for MemoryFault {}

impl From<AllocError> for MemoryFault {
    ghost use Rattle.std.specs.Prelude.{◌≡◌};
    ghost use Rattle.values.specs.Fault.{memory_fault};

    ghost from_gives = { λ _ fault. fault ≡ memory_fault };

    fn from(_error: AllocError) -> MemoryFault {
        MemoryFault
    }
}

impl<T: Drop> From<AllocFailed<T>> for MemoryFault {
    ghost use Rattle.std.specs.Prelude.{◌≡◌};
    ghost use Rattle.values.specs.Fault.{memory_fault};

    ghost from_gives = { λ _ fault. fault ≡ memory_fault };

    fn from(_failed: AllocFailed<T>) -> MemoryFault {
        MemoryFault
    }
}
