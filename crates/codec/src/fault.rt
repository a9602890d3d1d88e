//! The refusal of a schedule, by its record, before it becomes a refusal 30.
//! Each record's: `tests/texts.py` and `tests/transcripts/schedules.txt`.
use std::alloc::{AllocError, AllocFailed};
use stored_json::Unread;
use values::MemoryFault;

/// Why a schedule isn't read.
#[derive(Clone, Copy)]
pub enum ScheduleFault {
    /// This record is at fault, the header being record 1; 0 for a schedule of too many bytes.
    Record(usize),
    /// There was no memory.
    Memory,
}

impl ScheduleFault {
    ghost use Rattle.std.specs.Prelude.{◌≡◌};
    ghost use Rattle.stored_json.specs.declared.part.Unread.TheVariants as unread;
    ghost use Rattle.codec.specs.declared.fault.ScheduleFault.TheVariants.{Record, Memory};

    /// Names the fault of a schedule of which this record isn't taken.
    pub fn of_record(number: usize, why: Unread) -> ScheduleFault
        ensures memory { why ≡ unread.Memory → result ≡ Memory }
        ensures refused { why ≡ unread.Refused → result ≡ Record number }
    {
        match why {
            Unread::Refused => ScheduleFault::Record(number),
            Unread::Memory => ScheduleFault::Memory,
        }
    }
}

impl From<MemoryFault> for ScheduleFault {
    ghost use Rattle.std.specs.Prelude.{◌≡◌};
    ghost use Rattle.codec.specs.declared.fault.ScheduleFault.TheVariants.{Memory};

    ghost from_gives = { λ _ fault. fault ≡ Memory };

    fn from(_fault: MemoryFault) -> ScheduleFault {
        ScheduleFault::Memory
    }
}

impl From<AllocError> for ScheduleFault {
    ghost use Rattle.std.specs.Prelude.{◌≡◌};
    ghost use Rattle.codec.specs.declared.fault.ScheduleFault.TheVariants.{Memory};

    ghost from_gives = { λ _ fault. fault ≡ Memory };

    fn from(_error: AllocError) -> ScheduleFault {
        ScheduleFault::Memory
    }
}

impl<T: Drop> From<AllocFailed<T>> for ScheduleFault {
    ghost use Rattle.std.specs.Prelude.{◌≡◌};
    ghost use Rattle.codec.specs.declared.fault.ScheduleFault.TheVariants.{Memory};

    ghost from_gives = { λ _ fault. fault ≡ Memory };

    fn from(_failed: AllocFailed<T>) -> ScheduleFault {
        ScheduleFault::Memory
    }
}
