//! The refusals of `rosterbook duty`: T1 to T4, 16, 19 and 91.
//! Each of them: `tests/texts.py` and `tests/transcripts/duty.txt`; 91: `tests/allocations.py`. Wrong bodies: `must-fail-more/`.
ghost use Rattle.std.specs.Prelude.{◌≡◌};

use std::alloc::{AllocError, AllocFailed};
use std::error::Error;
use std::fmt;
use time117::{TimeFault, ZoneFault};
use values::MemoryFault;

/// Why `duty_line` gives no line; of a zone also why no book is made. It is printed as each refusal is: its number, its
/// name, and the flight duty period where there is one.
#[derive(Clone, Copy, Debug, PartialEq, Eq)]
pub enum LineFault {
    /// The zone is not 1 to 64 bytes of ASCII that read as a POSIX time zone rule.
    Zone,
    /// A time is not written as an instant, does not exist, or lies outside the years 2000 to 2099.
    Time(TimeFault),
    /// The times are not block-out and block-in of 1 to 12 segments.
    SegmentCount,
    /// The report is after the first block-out, a block-in not after its block-out, or a block-out before the last
    /// block-in.
    BadTimes,
    /// There was no memory.
    Memory,
}

impl fmt::Display for LineFault {
    ghost use Rattle.std.specs.Prelude.{Some};
    ghost use Rattle.period_verdict.specs.FaultText.{line_fault_text};

    ghost output = { λ fault. Some (line_fault_text fault) };

    fn fmt<W: fmt::Write>(&self, f: &mut fmt::Formatter<W>) -> fmt::Result {
        f.write_str(match self {
            LineFault::Time(TimeFault::Malformed) => "T1 Malformed",
            LineFault::Time(TimeFault::NoSuchTime) => "T2 NoSuchTime",
            LineFault::Time(TimeFault::OutOfRange) => "T3 OutOfRange",
            LineFault::Zone => "T4 ZoneText",
            LineFault::BadTimes => "16 BadTimes 1",
            LineFault::SegmentCount => "19 SegmentCount 1",
            LineFault::Memory => "91 Memory",
        })
    }
}

impl Error for LineFault {}

impl From<ZoneFault> for LineFault {
    ghost use Rattle.period_verdict.specs.FaultText.{IsZoneFault};

    ghost from_gives = { IsZoneFault };

    fn from(fault: ZoneFault) -> LineFault {
        match fault {
            ZoneFault::ZoneText => LineFault::Zone,
            ZoneFault::Memory => LineFault::Memory,
        }
    }
}

impl From<TimeFault> for LineFault {
    ghost use Rattle.period_verdict.specs.declared.fault.LineFault.TheVariants.{Time};

    ghost from_gives = { λ time fault. fault ≡ Time time };

    fn from(fault: TimeFault) -> LineFault {
        LineFault::Time(fault)
    }
}

impl From<MemoryFault> for LineFault {
    ghost use Rattle.period_verdict.specs.declared.fault.LineFault.TheVariants.{Memory};

    ghost from_gives = { λ _ fault. fault ≡ Memory };

    fn from(_fault: MemoryFault) -> LineFault {
        LineFault::Memory
    }
}

impl From<AllocError> for LineFault {
    ghost use Rattle.period_verdict.specs.declared.fault.LineFault.TheVariants.{Memory};

    ghost from_gives = { λ _ fault. fault ≡ Memory };

    fn from(_fault: AllocError) -> LineFault {
        LineFault::Memory
    }
}

impl<T: Drop> From<AllocFailed<T>> for LineFault {
    ghost use Rattle.period_verdict.specs.declared.fault.LineFault.TheVariants.{Memory};

    ghost from_gives = { λ _ fault. fault ≡ Memory };

    fn from(_fault: AllocFailed<T>) -> LineFault {
        LineFault::Memory
    }
}
