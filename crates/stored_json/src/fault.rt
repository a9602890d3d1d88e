//! The refusals 30 and 31, and those that a part of a command is refused for.
//! Each member's: `tests/texts.py`. Wrong bodies: `must-fail-more/`.
use crate::field::JsonField;
use duty::DutyFault;
use std::alloc::AllocError;
use std::error::Error;
use std::fmt;
use values::MemoryFault;

/// Why a text isn't read as a command, a reply or a schedule.
#[derive(Clone, Copy, Debug, PartialEq, Eq)]
pub enum CodecFault {
    /// The text is no object of JSON, or this member is missing, of the wrong kind, out of its range or not one of its
    /// words, or holds such a part.
    BadJson(JsonField),
    /// A schedule is refused at this record, the header being record 1; 0 for a schedule of too many bytes.
    BadCsv(usize),
    /// The members are no command.
    Duty(DutyFault),
    /// There was no memory.
    Memory,
}

impl fmt::Display for CodecFault {
    ghost use Rattle.std.specs.Prelude.{Some};
    ghost use Rattle.stored_json.specs.Texts.{codec_fault_text};

    ghost output = { λ fault. Some (codec_fault_text fault) };

    fn fmt<W: fmt::Write>(&self, f: &mut fmt::Formatter<W>) -> fmt::Result {
        match self {
            CodecFault::BadJson(field) => write!(f, "31 BadJson {field}"),
            CodecFault::BadCsv(line) => write!(f, "30 BadCsv {line}"),
            CodecFault::Duty(fault) => write!(f, "{fault}"),
            CodecFault::Memory => write!(f, "91 Memory"),
        }
    }
}

impl Error for CodecFault {}

impl From<MemoryFault> for CodecFault {
    ghost use Rattle.std.specs.Prelude.{◌≡◌};
    ghost use Rattle.stored_json.specs.declared.fault.CodecFault.TheVariants.{Memory};

    ghost from_gives = { λ _ fault. fault ≡ Memory };

    fn from(_fault: MemoryFault) -> CodecFault {
        CodecFault::Memory
    }
}

impl From<AllocError> for CodecFault {
    ghost use Rattle.std.specs.Prelude.{◌≡◌};
    ghost use Rattle.stored_json.specs.declared.fault.CodecFault.TheVariants.{Memory};

    ghost from_gives = { λ _ fault. fault ≡ Memory };

    fn from(_error: AllocError) -> CodecFault {
        CodecFault::Memory
    }
}

impl From<DutyFault> for CodecFault {
    ghost use Rattle.std.specs.Prelude.{◌≡◌};
    ghost use Rattle.stored_json.specs.declared.fault.CodecFault.TheVariants.{Duty};

    ghost from_gives = { λ duty fault. fault ≡ Duty duty };

    fn from(fault: DutyFault) -> CodecFault {
        CodecFault::Duty(fault)
    }
}
