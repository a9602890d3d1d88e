//! Calls of a book that may find no memory. A call that reports it has to leave what the book shows, and the same call, made again, has
//! to be answered as with all memory. So each test here passes whichever of its own calls for memory is refused, which
//! `tests/allocation_tests.py` has done to each in turn; how out of memory was reported it writes to standard error.

mod exchange;
mod files;
mod reports;
mod shown;

use crate::allocation::reports::MemoryReports;
use crate::fault::Fault;
use sqlite_disk::{Fuse, Memory};
use std::alloc::Global;
use std::test::Fail;

/// What is tried.
#[derive(Clone, Copy)]
enum Part {
    /// A book in files is made, asked, and handed an import.
    Book,
    /// A command that the book refuses comes over HTTP.
    Http,
}

impl Part {
    /// Tries its calls; whether they come to what they come to with all memory.
    fn try_once(self, alloc: Global, reports: &mut MemoryReports) -> Result<bool, Fault> {
        match self {
            Part::Book => files::is_answered::<Fuse<Memory>>(alloc, reports),
            Part::Http => exchange::is_refused(alloc, reports),
        }
    }
}

/// What comes of a part. Where it finds no memory for what it needs besides the calls that it tries, it begins anew; but not where one of
/// these has found none, since the same call, made again, has all memory.
fn try_part(alloc: Global, part: Part, reports: &mut MemoryReports) -> Result<bool, Fault> {
    match part.try_once(alloc, reports) {
        Err(Fault::Memory) if !reports.memory => part.try_once(alloc, reports),
        done => done,
    }
}

/// The same; how out of memory was reported in it is written to standard error.
fn is_well(rt: &HostRuntime, part: Part) -> Result<bool, Fail> {
    let mut reports = MemoryReports::new();
    let done = try_part(rt.alloc(), part, &mut reports);
    reports.print(&mut rt.stderr())?;
    Ok(done?)
}

#[test]
fn book(rt: HostRuntime) -> Result<(), Fail> {
    assert!(rt; is_well(&rt, Part::Book)?);
    Ok(())
}

#[test]
fn http(rt: HostRuntime) -> Result<(), Fail> {
    assert!(rt; is_well(&rt, Part::Http)?);
    Ok(())
}
