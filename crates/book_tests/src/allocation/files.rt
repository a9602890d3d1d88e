//! A book in files: made, asked and handed an import. Where it reports out of memory (91), it shows what it showed, and is asked the same
//! again; after a fault of the store (90) its files are opened again, and all commands are handed in again. In the end its tables have
//! the rows of a run with all memory.

use crate::allocation::reports::MemoryReports;
use crate::allocation::shown::read_all;
use crate::contents;
use crate::fault::Fault;
use crate::opening::EASTERN;
use crate::stops::disk::{Left, Stopped, Stops, after_restart, taking};
use crate::stops::run::{Act, Heard, ask, ask_part, import, with_opened};
use crate::stops::states::{COMMANDS, is_part, states};
use book::{Book, CreateFault, Import, LoadFault};
use sqlite::{Alter, Connection};
use std::alloc::Global;
use store::StoreFault;
use time117::Zone;

/// The most times that files are opened.
const MOST_OPENINGS: usize = 4;

/// How the commands of one session were answered, and the rows at its end.
#[derive(Drop)]
struct Session {
    heard: Result<Heard, Fault>,
    /// Whether 91 was reported.
    is_memory_reported: bool,
    rows: Result<String, Fault>,
}

/// Why there is no book.
#[derive(Clone, Copy)]
enum NoBook {
    Fault(StoreFault),
    Otherwise,
}

/// Makes a book.
fn make_book<S: Alter>(
    alloc: Global,
    conn: Connection<S>,
) -> Result<Book<S>, (NoBook, Connection<S>)> {
    if !conn.is_autocommit() {
        return Err((NoBook::Otherwise, conn));
    }
    let Ok(zone) = Zone::read(alloc, EASTERN) else {
        return Err((NoBook::Fault(StoreFault::Memory), conn));
    };
    match Book::create(alloc, conn, zone) {
        Ok(book) => Ok(book),
        Err((CreateFault::Fault(fault), conn)) => Err((NoBook::Fault(fault), conn)),
        Err((CreateFault::NotEmpty, conn)) => Err((NoBook::Otherwise, conn)),
    }
}

/// Takes up the book that is there, or makes one.
fn begin_book<S: Alter>(
    alloc: Global,
    conn: Connection<S>,
) -> Result<Book<S>, (NoBook, Connection<S>)> {
    if !conn.is_autocommit() {
        return Err((NoBook::Otherwise, conn));
    }
    match Book::adopt(alloc, conn) {
        Ok(book) => Ok(book),
        Err((LoadFault::NotABook, conn)) => make_book(alloc, conn),
        Err((LoadFault::Fault(fault), conn)) => Err((NoBook::Fault(fault), conn)),
        Err((_fault, conn)) => Err((NoBook::Otherwise, conn)),
    }
}

/// The same; where it finds no memory it is done again.
fn begun_in_the_end<S: Alter>(
    alloc: Global,
    conn: Connection<S>,
    is_memory_reported: &mut bool,
) -> Result<Book<S>, (NoBook, Connection<S>)> {
    match begin_book(alloc, conn) {
        Err((NoBook::Fault(StoreFault::Memory), conn)) => {
            *is_memory_reported = true;
            begin_book(alloc, conn)
        }
        begun => begun,
    }
}

/// Asks a book the command at this place, which for a part is the next one of the import.
fn ask_once<S: Alter>(
    alloc: Global,
    book: &mut Book<S>,
    import: &mut Import,
    at: usize,
) -> Result<Heard, Fault> {
    if is_part(at) {
        Ok(ask_part(alloc, book, import, at))
    } else {
        ask(alloc, book, at)
    }
}

/// The same; where it finds no memory the book shows what it showed, and is asked again.
fn ask_twice<S: Alter>(
    alloc: Global,
    book: &mut Book<S>,
    import: &mut Import,
    at: usize,
    is_memory_reported: &mut bool,
) -> Result<Heard, Fault> {
    let before = read_all(alloc, book)?;
    let heard = ask_once(alloc, book, import, at)?;
    if heard != Heard::NoMemory {
        return Ok(heard);
    }
    *is_memory_reported = true;
    if read_all(alloc, book)? != before {
        return Ok(Heard::Otherwise);
    }
    ask_once(alloc, book, import, at)
}

/// Asks a book all commands, up to the first that isn't answered as always.
fn ask_all<S: Alter>(
    alloc: Global,
    book: &mut Book<S>,
    is_memory_reported: &mut bool,
) -> Result<Heard, Fault> {
    let mut import = import::<S>(alloc)?;
    for at in 0..COMMANDS {
        let heard = ask_twice(alloc, book, &mut import, at, is_memory_reported)?;
        if heard != Heard::AsAlways {
            return Ok(heard);
        }
    }
    Ok(Heard::AsAlways)
}

/// A session without a book.
fn without_book(alloc: Global, why: NoBook, is_memory_reported: bool) -> Session {
    let heard = match why {
        NoBook::Fault(StoreFault::Store) => Heard::Stopped,
        NoBook::Fault(StoreFault::Memory) => Heard::NoMemory,
        NoBook::Otherwise => Heard::Otherwise,
    };
    Session {
        heard: Ok(heard),
        is_memory_reported,
        rows: Ok(String::new(alloc)),
    }
}

/// Takes up the book that is there, or makes one, and asks it all commands.
#[derive(Clone, Copy)]
struct Answering;

impl Act for Answering {
    type Outcome = Session;

    fn act<S: Alter + Drop>(self, alloc: Global, conn: Connection<S>) -> (Session, Connection<S>) {
        let mut is_memory_reported = false;
        match begun_in_the_end(alloc, conn, &mut is_memory_reported) {
            Ok(mut book) => {
                let heard = ask_all(alloc, &mut book, &mut is_memory_reported);
                let mut conn = book.into_connection();
                let rows = contents::rows_of(alloc, &mut conn);
                let session = Session {
                    heard,
                    is_memory_reported,
                    rows,
                };
                (session, conn)
            }
            Err((why, conn)) => (without_book(alloc, why, is_memory_reported), conn),
        }
    }
}

/// Whether the rows are those of a run with all memory.
fn are_rows_well(alloc: Global, rows: &str) -> Result<bool, Fault> {
    let states = states(alloc)?;
    match states.last() {
        Some(last) => Ok(last.as_str() == rows),
        None => Ok(false),
    }
}

/// How all was answered; how out of memory was reported is noted.
fn note_session(reports: &mut MemoryReports, session: &Session) -> Result<Heard, Fault> {
    reports.memory |= session.is_memory_reported;
    let heard = session.heard?;
    reports.store |= heard == Heard::Stopped;
    Ok(heard)
}

/// Whether all is answered as always and the rows are there; nothing where the files are to be opened again.
fn is_as_always(
    alloc: Global,
    reports: &mut MemoryReports,
    session: &Session,
) -> Result<Option<bool>, Fault> {
    match note_session(reports, session)? {
        Heard::AsAlways => match &session.rows {
            Ok(rows) => Ok(Some(are_rows_well(alloc, rows)?)),
            Err(fault) => Err(*fault),
        },
        Heard::Stopped => Ok(None),
        Heard::NoMemory | Heard::Otherwise => Ok(Some(false)),
    }
}

/// Whether a session has ended all; nothing where the files are to be opened again.
fn ended_if_held(
    alloc: Global,
    reports: &mut MemoryReports,
    session: Option<Session>,
) -> Result<Option<bool>, Fault> {
    match session {
        Some(session) => is_as_always(alloc, reports, &session),
        None => Ok(None),
    }
}

/// Whether a book in new files answers all commands, and has their rows.
pub fn is_answered<D: Stops>(alloc: Global, reports: &mut MemoryReports) -> Result<bool, Fault> {
    let mut files = taking::<D>(alloc, Stopped::Log, u64::MAX);
    for _ in 0..MOST_OPENINGS {
        let (session, left) = with_opened(alloc, files, Answering);
        if let Some(is_well) = ended_if_held(alloc, reports, session)? {
            return Ok(is_well);
        }
        files = after_restart(alloc, left, Left::Written);
    }
    Ok(false)
}
