//! Why a test reports nothing: one type for each fault that its calls may meet.

use sqlite::{Error, ErrorCode};
use std::alloc::{AllocError, AllocFailed};
use std::fmt;
use store::StoreFault;
use stored_json::CodecFault;
use tables::TableFault;
use values::MemoryFault;

/// Why an office reports nothing.
#[derive(Clone, Copy, Debug)]
pub enum Fault {
    /// A request can't be made of its line.
    Unmade,
    /// The tables of a book can't be made.
    NoTables,
    /// The book answers no request.
    Unanswered(StoreFault),
    /// The rows aren't found.
    Unread,
    Memory,
}

impl fmt::Display for Fault {
    fn fmt<W: fmt::Write>(&self, f: &mut fmt::Formatter<W>) -> fmt::Result {
        match self {
            Fault::Unmade => f.write_str("a request can't be made"),
            Fault::NoTables => f.write_str("the tables can't be made"),
            Fault::Unanswered(fault) => write!(f, "a request is not answered: {fault}"),
            Fault::Unread => f.write_str("rows are not found"),
            Fault::Memory => f.write_str("no memory"),
        }
    }
}

impl std::error::Error for Fault {}

impl From<CodecFault> for Fault {
    fn from(fault: CodecFault) -> Fault {
        match fault {
            CodecFault::Memory => Fault::Memory,
            _ => Fault::Unmade,
        }
    }
}

impl From<StoreFault> for Fault {
    fn from(fault: StoreFault) -> Fault {
        Fault::Unanswered(fault)
    }
}

impl From<Error> for Fault {
    fn from(error: Error) -> Fault {
        match error {
            Error::SqliteFailure(ErrorCode::OutOfMemory) => Fault::Memory,
            _ => Fault::Unread,
        }
    }
}

impl From<TableFault> for Fault {
    fn from(fault: TableFault) -> Fault {
        match fault {
            TableFault::Memory => Fault::Memory,
            _ => Fault::Unread,
        }
    }
}

impl From<MemoryFault> for Fault {
    fn from(_fault: MemoryFault) -> Fault {
        Fault::Memory
    }
}

impl From<AllocError> for Fault {
    fn from(_error: AllocError) -> Fault {
        Fault::Memory
    }
}

impl<T: Drop> From<AllocFailed<T>> for Fault {
    fn from(_failed: AllocFailed<T>) -> Fault {
        Fault::Memory
    }
}
