//! The two files of a book, and what is left of them where the machine stops.

use sqlite::Files;
use sqlite_disk::{Crash, Disk, Fuse, Memory};
use std::alloc::Global;

/// Which of the two files takes no more calls.
#[derive(Clone, Copy)]
pub enum Stopped {
    Log,
    Database,
}

/// What a stop leaves of the files.
#[derive(Clone, Copy)]
pub enum Left {
    /// All that was written.
    Written,
    /// What was synced alone.
    Synced,
}

/// A file whose calls come to an end.
pub trait Stops: Disk + Drop {
    /// An empty file that takes this many calls.
    fn taking(alloc: Global, calls: u64) -> Self;

    /// The file as the machine finds it after a stop, which takes all calls.
    fn after_restart(self, alloc: Global, left: Left) -> Self;

    /// What is written in the file, in one that takes this many calls.
    fn with_limit(&self, alloc: Global, calls: u64) -> Self;
}

/// What is written in a file, in a file that takes this many calls, and that has synced it.
fn copy_of(alloc: Global, file: &Fuse<Memory>, calls: u64) -> Fuse<Memory> {
    let mut copy = Memory::new(alloc);
    if copy.may_be_used() && copy.write_at(0, file.inner().bytes()).is_ok() {
        let _ = copy.sync();
    }
    Fuse::new(copy, calls)
}

/// What is synced of a file, in a file that takes all calls.
fn after_crash(mut file: Fuse<Memory>) -> Fuse<Memory> {
    file.crash();
    file
}

impl Stops for Fuse<Memory> {
    fn taking(alloc: Global, calls: u64) -> Fuse<Memory> {
        Fuse::new(Memory::new(alloc), calls)
    }

    fn after_restart(self, alloc: Global, left: Left) -> Fuse<Memory> {
        match left {
            Left::Written => copy_of(alloc, &self, u64::MAX),
            Left::Synced => after_crash(self),
        }
    }

    fn with_limit(&self, alloc: Global, calls: u64) -> Fuse<Memory> {
        copy_of(alloc, self, calls)
    }
}

impl Stopped {
    /// How many calls the log takes, and how many the database, where one of them takes this many.
    fn calls(self, calls: u64) -> (u64, u64) {
        match self {
            Stopped::Log => (calls, u64::MAX),
            Stopped::Database => (u64::MAX, calls),
        }
    }
}

/// Two empty files, one of which takes this many calls.
pub fn taking<D: Stops>(alloc: Global, stopped: Stopped, calls: u64) -> Files<D> {
    let (log, db) = stopped.calls(calls);
    Files {
        log: D::taking(alloc, log),
        db: D::taking(alloc, db),
    }
}

/// The files as the machine finds them after a stop.
pub fn after_restart<D: Stops>(alloc: Global, files: Files<D>, left: Left) -> Files<D> {
    let Files { log, db } = files;
    Files {
        log: log.after_restart(alloc, left),
        db: db.after_restart(alloc, left),
    }
}

/// Copies of the files with what is written in them, one of which takes this many calls.
pub fn with_limit<D: Stops>(
    alloc: Global,
    files: &Files<D>,
    stopped: Stopped,
    calls: u64,
) -> Files<D> {
    let (log, db) = stopped.calls(calls);
    Files {
        log: files.log.with_limit(alloc, log),
        db: files.db.with_limit(alloc, db),
    }
}
