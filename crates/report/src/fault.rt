//! The refusals 2 and 4 of a report, and out of memory.
use std::alloc::{AllocError, AllocFailed};
use std::error::Error;
use std::fmt;
use values::MemoryFault;

/// Why there is no text. It is printed as the program prints a refusal: its number and its name.
#[derive(Clone, Copy, Debug, PartialEq, Eq)]
pub enum ReportFault {
    /// The member isn't there.
    NoSuchCrew,
    /// The pairing isn't there.
    NoSuchPairing,
    /// There was no memory.
    Memory,
}

impl fmt::Display for ReportFault {
    ghost use Rattle.std.specs.Prelude.{Some};
    ghost use Rattle.report.specs.Faults.{report_fault_text};

    ghost output = { λ fault. Some (report_fault_text fault) };

    fn fmt<W: fmt::Write>(&self, f: &mut fmt::Formatter<W>) -> fmt::Result {
        f.write_str(match self {
            ReportFault::NoSuchCrew => "2 NoSuchCrew",
            ReportFault::NoSuchPairing => "4 NoSuchPairing",
            ReportFault::Memory => "91 Memory",
        })
    }
}

impl Error for ReportFault {}

impl From<MemoryFault> for ReportFault {
    ghost use Rattle.std.specs.Prelude.{◌≡◌};
    ghost use Rattle.report.specs.declared.fault.ReportFault.TheVariants.{Memory};

    ghost from_gives = { λ _ fault. fault ≡ Memory };

    fn from(_fault: MemoryFault) -> ReportFault {
        ReportFault::Memory
    }
}

impl From<AllocError> for ReportFault {
    ghost use Rattle.std.specs.Prelude.{◌≡◌};
    ghost use Rattle.report.specs.declared.fault.ReportFault.TheVariants.{Memory};

    ghost from_gives = { λ _ fault. fault ≡ Memory };

    fn from(_fault: AllocError) -> ReportFault {
        ReportFault::Memory
    }
}

impl<T: Drop> From<AllocFailed<T>> for ReportFault {
    ghost use Rattle.std.specs.Prelude.{◌≡◌};
    ghost use Rattle.report.specs.declared.fault.ReportFault.TheVariants.{Memory};

    ghost from_gives = { λ _ fault. fault ≡ Memory };

    fn from(_fault: AllocFailed<T>) -> ReportFault {
        ReportFault::Memory
    }
}
