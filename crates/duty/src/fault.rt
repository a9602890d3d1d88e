//! The refusals 16 to 19, which need no book: broken orders of times and chains, bad texts, numbers out of range.
//! Worked rows: `tests/answers.py`; bad texts: `tests/texts.py`. Wrong bodies: `must-fail-more/`.
ghost use Rattle.std.specs.Prelude.{◌≡◌};

use std::alloc::{AllocError, AllocFailed};
use std::error::Error;
use std::fmt;
use values::MemoryFault;

/// Why a pairing, a ground duty, an outside period or an actual is refused. It is printed as the
/// program prints a refusal: its number, its name, and the period or field where there is one.
/// Periods count from 1.
#[derive(Clone, Copy, Debug, PartialEq, Eq)]
pub enum DutyFault {
    /// An order of times is broken in this period, or between the one before it and this one; 0 for
    /// a ground duty or an outside period.
    BadTimes(u8),
    /// A segment of this period departs from elsewhere than where the one before it arrived.
    BadChain(u8),
    /// This field holds a text outside its shape.
    BadField(Field),
    /// This period has a number of segments out of range, or not its plan's; 0 for an outside
    /// period, and where the number of periods is out of range.
    SegmentCount(u8),
    /// There was no memory.
    Memory,
}

/// A field of a command that holds texts. It is printed as it is named there.
#[derive(Clone, Copy, Debug, PartialEq, Eq)]
pub enum Field {
    Crew,
    Name,
    Pairing,
    Periods,
    OtherPairing,
    OtherCrew,
    Ground,
    Task,
    Base,
    Outside,
}

impl fmt::Display for DutyFault {
    ghost use Rattle.std.specs.Prelude.{Some};
    ghost use Rattle.duty.specs.FaultText.{duty_fault_text};

    ghost output = { λ fault. Some (duty_fault_text fault) };

    fn fmt<W: fmt::Write>(&self, f: &mut fmt::Formatter<W>) -> fmt::Result {
        match self {
            DutyFault::BadTimes(period) => write!(f, "16 BadTimes {period}"),
            DutyFault::BadChain(period) => write!(f, "17 BadChain {period}"),
            DutyFault::BadField(field) => write!(f, "18 BadField {field}"),
            DutyFault::SegmentCount(period) => write!(f, "19 SegmentCount {period}"),
            DutyFault::Memory => write!(f, "91 Memory"),
        }
    }
}

impl Error for DutyFault {}

impl fmt::Display for Field {
    ghost use Rattle.std.specs.Prelude.{Some};
    ghost use Rattle.duty.specs.FaultText.{field_text};

    ghost output = { λ field. Some (field_text field) };

    fn fmt<W: fmt::Write>(&self, f: &mut fmt::Formatter<W>) -> fmt::Result {
        f.write_str(match self {
            Field::Crew => "crew",
            Field::Name => "name",
            Field::Pairing => "pairing",
            Field::Periods => "periods",
            Field::OtherPairing => "other_pairing",
            Field::OtherCrew => "other_crew",
            Field::Ground => "ground",
            Field::Task => "task",
            Field::Base => "base",
            Field::Outside => "outside",
        })
    }
}

impl From<MemoryFault> for DutyFault {
    ghost use Rattle.duty.specs.declared.fault.DutyFault.TheVariants.{Memory};

    ghost from_gives = { λ _ fault. fault ≡ Memory };

    fn from(_fault: MemoryFault) -> DutyFault {
        DutyFault::Memory
    }
}

impl From<AllocError> for DutyFault {
    ghost use Rattle.duty.specs.declared.fault.DutyFault.TheVariants.{Memory};

    ghost from_gives = { λ _ fault. fault ≡ Memory };

    fn from(_error: AllocError) -> DutyFault {
        DutyFault::Memory
    }
}

impl<T: Drop> From<AllocFailed<T>> for DutyFault {
    ghost use Rattle.duty.specs.declared.fault.DutyFault.TheVariants.{Memory};

    ghost from_gives = { λ _ fault. fault ≡ Memory };

    fn from(_failed: AllocFailed<T>) -> DutyFault {
        DutyFault::Memory
    }
}
