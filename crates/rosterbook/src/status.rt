//! The four exit statuses.
//! Wrong bodies: `must-fail-more/`.
ghost use Rattle.std.specs.Prelude.{◌≡◌, ◌≢◌};

use period_verdict::LineFault;

/// How the program ends: its exit status.
#[derive(Clone, Copy, Debug, PartialEq, Eq)]
pub enum Status {
    /// All was done: accepted, or within the limits.
    Done = 0,
    /// Refused, or over a limit.
    Refused = 1,
    /// A command line that is not understood.
    Usage = 2,
    /// The store, memory, a channel or the network failed.
    Failed = 3,
}

impl Status {
    /// Returns how the program ends after a fault of a line.
    pub fn of_fault(fault: LineFault) -> Status
        ensures failed { fault ≡ LineFault.Memory → result ≡ Status.Failed }
        ensures refused { fault ≢ LineFault.Memory → result ≡ Status.Refused }
    {
        match fault {
            LineFault::Memory => Status::Failed,
            _ => Status::Refused,
        }
    }
}
