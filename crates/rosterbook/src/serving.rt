//! The connections of a server, until all are over. The definition is `HasEnded` (`specs/Serving.antt`).
//! A server and its clients: `tests/serve.py`. Wrong bodies: `must-fail-more/`.
ghost use Rattle.std.specs.Prelude.{◌≡◌, IfOk, true};
ghost use Rattle.std.specs.Io.KnownBytes.{Appends};
ghost use Rattle.waiting.specs.Rooms.{connections_to_come, requests_to_come};
ghost use Rattle.rosterbook.specs.Serving as spec;

use crate::lines::refuse;
use book::Book;
use sqlite::Alter;
use std::alloc::Global;
use std::io::Write;
use std::time::Clock;
use web::{Room, ServeFault, Served, serve_one};

/// How serving ended.
#[derive(Clone, Copy)]
pub(crate) struct Ending {
    /// Whether the store failed.
    pub(crate) failed: bool,
    /// Whether the lines of all failed connections could be written.
    pub(crate) told: bool,
}

/// Serves this many connections, or fewer where the book's store fails. A line is written for each connection that failed, and for no
/// other.
pub(crate) fn serve_all<C: Clock, S: Alter, E: Write>(
    alloc: Global,
    clock: &C,
    room: &mut Room,
    book: &mut Book<S>,
    connections: u32,
    err: &mut E,
) -> Ending
    requires requests { requests_to_come room.old ≡ connections }
    requires connections { connections_to_come room.old ≡ connections }
    ensures { spec.HasEnded S.Store connections book.old book.new (E.contents err.old)
        (E.contents err.new) result.told result.failed }
{
    let mut told = true;
    for _connection in 0..connections {
        let Some(outcome) = serve_one(alloc, clock, room, book) else {
            return Ending { failed: true, told };
        };
        told &= tell_outcome(outcome, err);
    }
    Ending {
        failed: book.has_failed(),
        told,
    }
}

/// Writes the line of a connection that failed, and answers whether it could be written. Of another nothing is written.
fn tell_outcome<E: Write>(outcome: Result<Served, ServeFault>, err: &mut E) -> bool
    ensures line { result ≡ true
        → Appends (E.contents err.old) (E.contents err.new) (spec.failure_line outcome) }
    ensures served { IfOk outcome (λ _. result ≡ true) }
{
    match outcome {
        Ok(_) => true,
        Err(fault) => refuse(err, &fault).is_ok(),
    }
}
