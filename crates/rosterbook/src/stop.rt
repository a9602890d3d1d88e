//! What stops the program before its end, and the line that says so: 40 to 42, and 90 to 93.
//! Outputs that fail: `tests/program.sh`; out of memory: `tests/allocations.py`. Wrong bodies: `must-fail-more/`.
use asking::AskFault;
use book::{BookFault, LoadFault};
use std::error::Error;
use std::{fmt, io};
use values::MemoryFault;

/// Why the program stops before its end. It is printed as the program prints a refusal: its number, its name, and the table
/// where there is one.
#[derive(Clone, Copy, Debug, PartialEq, Eq)]
pub enum Stop {
    /// The book is not taken up.
    Load(LoadFault),
    /// The book meets a fault: of its store, or out of memory.
    Book(BookFault),
    /// The program finds no memory, beside the book.
    Memory,
    /// A reader or a writer fails.
    Channel,
    /// The port can't be bound.
    Network,
}

impl fmt::Display for Stop {
    ghost use Rattle.std.specs.Prelude.{Some};
    ghost use Rattle.rosterbook.specs.StopText.{stop_text};

    ghost output = { λ stop. Some (stop_text stop) };

    fn fmt<W: fmt::Write>(&self, f: &mut fmt::Formatter<W>) -> fmt::Result {
        match self {
            Stop::Load(fault) => write!(f, "{fault}"),
            Stop::Book(fault) => write!(f, "{fault}"),
            Stop::Memory => f.write_str("91 Memory"),
            Stop::Channel => f.write_str("92 Channel"),
            Stop::Network => f.write_str("93 Network"),
        }
    }
}

impl Error for Stop {}

impl From<LoadFault> for Stop {
    ghost use Rattle.std.specs.Prelude.{◌≡◌};
    ghost use Rattle.rosterbook.specs.declared.stop.Stop.TheVariants.{Load};

    ghost from_gives = { λ fault stop. stop ≡ Load fault };

    fn from(fault: LoadFault) -> Stop {
        Stop::Load(fault)
    }
}

impl From<BookFault> for Stop {
    ghost use Rattle.std.specs.Prelude.{◌≡◌};
    ghost use Rattle.rosterbook.specs.declared.stop.Stop.TheVariants.{Book};

    ghost from_gives = { λ fault stop. stop ≡ Book fault };

    fn from(fault: BookFault) -> Stop {
        Stop::Book(fault)
    }
}

impl From<AskFault> for Stop {
    ghost use Rattle.std.specs.Prelude.{◌≡◌};
    ghost use Rattle.rosterbook.specs.Asking.{stop_of};

    ghost from_gives = { λ fault stop. stop ≡ stop_of fault };

    fn from(fault: AskFault) -> Stop {
        match fault {
            AskFault::Book(fault) => Stop::Book(fault),
            AskFault::Memory => Stop::Memory,
        }
    }
}

impl From<MemoryFault> for Stop {
    ghost use Rattle.std.specs.Prelude.{◌≡◌};
    ghost use Rattle.rosterbook.specs.declared.stop.Stop.TheVariants.{Memory};

    ghost from_gives = { λ _ stop. stop ≡ Memory };

    fn from(_fault: MemoryFault) -> Stop {
        Stop::Memory
    }
}

impl From<io::Error> for Stop {
    ghost use Rattle.rosterbook.specs.Streams.{IsOfChannel};

    ghost from_gives = { λ _ stop. IsOfChannel stop };

    fn from(error: io::Error) -> Stop {
        match error.kind() {
            io::ErrorKind::OutOfMemory => Stop::Memory,
            _ => Stop::Channel,
        }
    }
}
