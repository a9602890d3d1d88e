//! How it was reported of a part that it found no memory, and the lines that say so.

use std::io;
use std::io::Write;

/// How out of memory was reported, if it was.
#[derive(Drop)]
pub struct MemoryReports {
    /// By a call that has changed nothing: 91.
    pub memory: bool,
    /// As a fault of the store: 90.
    pub store: bool,
    /// By the response 503.
    pub unavailable: bool,
    /// As a channel that failed: 92.
    pub channel: bool,
}

impl MemoryReports {
    /// It was not reported.
    pub fn new() -> MemoryReports {
        MemoryReports {
            memory: false,
            store: false,
            unavailable: false,
            channel: false,
        }
    }

    /// Writes a line for each way in which it was reported.
    pub fn print<W: Write>(&self, writer: &mut W) -> io::Result<()> {
        for &(number, is_reported) in &[
            ("91", self.memory),
            ("90", self.store),
            ("503", self.unavailable),
            ("92", self.channel),
        ] {
            if is_reported {
                writeln!(writer, "{number}")?;
            }
        }
        Ok(())
    }
}
