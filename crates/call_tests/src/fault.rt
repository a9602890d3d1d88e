//! Why nothing comes of calls: one type for each fault that they may meet.

use report::ReportFault;
use std::alloc::{AllocError, AllocFailed};
use std::fmt;
use stored_json::CodecFault;
use values::MemoryFault;

/// Why nothing comes of calls.
#[derive(Clone, Copy, Debug)]
pub enum Fault {
    /// There was no memory for what is needed besides the calls that are tried.
    Memory,
    /// A refused call has changed what it was to leave as it was.
    Changed,
    /// A call that was made again gave what it doesn't give with all memory.
    Otherwise,
    /// What is needed can't be made.
    Unmade,
}

impl fmt::Display for Fault {
    fn fmt<W: fmt::Write>(&self, f: &mut fmt::Formatter<W>) -> fmt::Result {
        f.write_str(match self {
            Fault::Memory => "no memory, and again none",
            Fault::Changed => "a refused call has changed something",
            Fault::Otherwise => "a call made again gave something else",
            Fault::Unmade => "what is needed can't be made",
        })
    }
}

impl std::error::Error for Fault {}

impl From<MemoryFault> for Fault {
    fn from(_fault: MemoryFault) -> Fault {
        Fault::Memory
    }
}

impl From<AllocError> for Fault {
    fn from(_error: AllocError) -> Fault {
        Fault::Memory
    }
}

impl<T: Drop> From<AllocFailed<T>> for Fault {
    fn from(_failed: AllocFailed<T>) -> Fault {
        Fault::Memory
    }
}

impl From<CodecFault> for Fault {
    fn from(fault: CodecFault) -> Fault {
        match fault {
            CodecFault::Memory => Fault::Memory,
            _ => Fault::Unmade,
        }
    }
}

impl From<ReportFault> for Fault {
    fn from(fault: ReportFault) -> Fault {
        match fault {
            ReportFault::Memory => Fault::Memory,
            _ => Fault::Unmade,
        }
    }
}
