//! `rosterbook serve`: a book, asked over HTTP at a port of 127.0.0.1.
//! A server and its clients: `tests/serve.py`. Wrong bodies: `must-fail-more/`.
ghost use Rattle.std.specs.Prelude.{◌≡◌, IfErr, IfOk, IsErr, None, OnOk};
ghost use Rattle.std.specs.Io.KnownBytes.{Appends};
ghost use Rattle.sqlite_wal.specs.Files.{image_at};
ghost use Rattle.sqlite.specs.Files.{over_files};
ghost use Rattle.book.specs.Found.{IsCleanLeft, LeavesByCrash};
ghost use Rattle.book.specs.Kept.{IsClean};
ghost use Rattle.rosterbook.specs.ByFiles.{IsRefusedAs, IsServedByFiles, IsServeStoppedByFiles};
ghost use Rattle.rosterbook.specs.Serving as spec;

use crate::ended::Ended;
use crate::serving::{Ending, serve_all};
use crate::status::Status;
use crate::stop::Stop;
use book::{Book, BookFault};
use sqlite::{FileFrom, Start};
use std::io;
use std::io::Write;
use web::Room;

/// Answers `rosterbook serve`: opens the book, binds the port and prints it, then serves connections, and closes the book.
/// That the line of a failed connection can't be written (92) stops the program only once all are served.
pub(crate) fn answer_serve<S: Start, O: Write, E: Write>(
    rt: &HostRuntime,
    file: &str,
    start: S,
    port: u16,
    connections: u32,
    out: &mut O,
    err: &mut E,
) -> Ended<FileFrom<S>>
    ensures served { IfOk result.done
        (IsServedByFiles result.left (image_at S.Start) port connections (O.contents out.old)
        (O.contents out.new) (E.contents err.old) (E.contents err.new)) }
    ensures stopped { IfErr result.done
        (IsServeStoppedByFiles result.left (image_at S.Start) port connections
        (O.contents out.old) (O.contents out.new) (E.contents err.old) (E.contents err.new)) }
    ensures unopened { result.left ≡ None
        → IsErr result.done × (out.new ≡ out.old) × (err.new ≡ err.old) }
    ensures refused { IsRefusedAs result.left (image_at S.Start) result.refused result.done }
{
    let mut book = match Book::open_from(rt, file, start) {
        Ok(book) => book,
        Err(refused) => return Ended::of_refusal(refused),
    };
    let Ok(mut room) = Room::open(rt, rt.alloc(), port, connections) else {
        return Ended {
            done: Err(Stop::Network),
            left: Some(book.close()),
            refused: None,
        };
    };
    if let Err(error) = tell_port(out, port) {
        return Ended {
            done: Err(Stop::from(error)),
            left: Some(book.close()),
            refused: None,
        };
    }
    let ending = serve_all(rt.alloc(), rt, &mut room, &mut book, connections, err);
    // (the port is free before the book is closed)
    drop(room);
    Ended {
        done: status_of(ending),
        left: Some(book.close()),
        refused: None,
    }
}

/// Tells at once which port is listened on.
fn tell_port<O: Write>(out: &mut O, port: u16) -> io::Result<()>
    ensures { OnOk result
        (Appends (O.contents out.old) (O.contents out.new) (spec.port_line port)) }
{
    writeln!(out, "listening {port}")?;
    out.flush()
}

/// Returns how the program ends after connections were served.
fn status_of(ending: Ending) -> Result<Status, Stop>
    ensures { result ≡ spec.status_of_serve ending.failed ending.told }
{
    if ending.failed {
        Err(Stop::Book(BookFault::Store))
    } else if ending.told {
        Ok(Status::Done)
    } else {
        Err(Stop::Channel)
    }
}
