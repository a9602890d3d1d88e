//! How it was reported of a part that it found no memory, and the line that says so.

use std::io;
use std::io::Write;

/// Whether out of memory was reported.
#[derive(Drop)]
pub struct MemoryReports {
    /// By a call that has changed nothing: 91.
    pub memory: bool,
}

impl MemoryReports {
    /// It was not reported.
    pub fn new() -> MemoryReports {
        MemoryReports { memory: false }
    }

    /// Writes a line where it was reported.
    pub fn print<W: Write>(&self, writer: &mut W) -> io::Result<()> {
        if self.memory {
            writeln!(writer, "91")?;
        }
        Ok(())
    }
}
