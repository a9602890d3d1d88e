//! A book in files that is asked the commands, and what is found in the files when they are opened again.

use crate::contents::rows_of;
use crate::fault::Fault;
use crate::opening::create;
use crate::requests::{CAPTAIN, requests};
use crate::stops::states::{ANSWERS, COMMANDS, FIRST, IMPORT, command_at, is_part, pairings};
use book::{Answer, Book, Import, LoadFault, Run, Show};
use duty::{CrewId, PairingId};
use request::RequestNumber;
use sqlite::{Alter, Connection, Files, Options};
use sqlite_disk::Disk;
use std::alloc::Global;
use store::StoreFault;
use values::Text;

/// What is done with a database in files while they are open.
pub trait Act: Copy {
    type Outcome;

    fn act<S: Alter + Drop>(
        self,
        alloc: Global,
        conn: Connection<S>,
    ) -> (Self::Outcome, Connection<S>);
}

/// How a command is answered.
#[derive(Clone, Copy, PartialEq, Eq)]
pub enum Heard {
    /// As in a run without a stop.
    AsAlways,
    /// By 90.
    Stopped,
    /// By 91.
    NoMemory,
    Otherwise,
}

/// How far a run came.
#[derive(Clone, Copy, PartialEq, Eq)]
pub enum Reached {
    /// No book was made.
    NoBook,
    /// So many commands were answered as in a run without a stop, and if these weren't all, each further call by 90.
    Answered(usize),
    /// A stop was reported otherwise than as 90, or a further call was answered.
    OtherwiseReported,
}

/// How the command at this place is answered.
fn compare(at: usize, answer: &Result<Answer, StoreFault>) -> Heard {
    let number = match answer {
        Ok(Answer::Accepted(_)) => 0,
        Ok(Answer::Refused(refusal)) => refusal.number(),
        Err(StoreFault::Store) => return Heard::Stopped,
        Err(StoreFault::Memory) => return Heard::NoMemory,
    };
    if ANSWERS.get(at) == Some(&number) {
        Heard::AsAlways
    } else {
        Heard::Otherwise
    }
}

/// Asks a book the command at this place, which is no part of the import.
pub fn ask<S: Alter>(alloc: Global, book: &mut Book<S>, at: usize) -> Result<Heard, Fault> {
    let (key, command) = command_at(alloc, at)?;
    Ok(compare(at, &book.ask(alloc, key, &command)))
}

/// The import, whose parts come next.
pub fn import<S: Alter>(alloc: Global) -> Result<Import, Fault> {
    let pairings = pairings(alloc)?;
    if pairings.len() > 10_000 {
        return Err(Fault::Unmade);
    }
    let number = RequestNumber::new(IMPORT).ok_or(Fault::Unmade)?;
    Ok(Book::<S>::import(number, pairings))
}

/// Asks a book the next part of an import, which is the command at this place.
pub fn ask_part<S: Alter>(
    alloc: Global,
    book: &mut Book<S>,
    import: &mut Import,
    at: usize,
) -> Heard {
    match import.next(alloc, book) {
        Some(answer) => compare(at, &answer),
        None => Heard::Otherwise,
    }
}

/// Asks a book this many of the first commands, up to the first that isn't answered as always: how many were, and how that one is.
fn play<S: Alter>(
    alloc: Global,
    book: &mut Book<S>,
    count: usize,
) -> Result<(usize, Heard), Fault> {
    let mut import = import::<S>(alloc)?;
    for at in 0..count {
        let heard = if is_part(at) {
            ask_part(alloc, book, &mut import, at)
        } else {
            ask(alloc, book, at)?
        };
        if heard != Heard::AsAlways {
            return Ok((at, heard));
        }
    }
    Ok((count, Heard::AsAlways))
}

/// Whether an answer is a fault of the store.
fn is_shut<T>(answer: &Result<T, StoreFault>) -> bool {
    matches!(answer, Err(StoreFault::Store))
}

/// Whether a book answers 90 for this.
fn shows_no<S: Alter>(alloc: Global, book: &mut Book<S>, show: Show) -> bool {
    is_shut(&book.show(alloc, &show))
}

/// Whether a book shows nothing more.
fn shows_nothing<S: Alter>(alloc: Global, book: &mut Book<S>) -> Result<bool, Fault> {
    let crew = CrewId::new(Text::new(String::from_str(alloc, "C1")?));
    let shows_no_crew = shows_no(alloc, book, Show::Crew(crew));
    let pairing = PairingId::new(Text::new(String::from_str(alloc, "P10")?));
    let shows_no_pairing = shows_no(alloc, book, Show::Pairing(pairing));
    let limits = Show::Limits {
        crew: CrewId::new(Text::new(String::from_str(alloc, "C1")?)),
        with: None,
    };
    let shows_no_limits = shows_no(alloc, book, limits);
    let shows_no_exceedances = shows_no(alloc, book, Show::Exceedances);
    let has_no_count = is_shut(&book.count(alloc));
    Ok(shows_no_crew && shows_no_limits && shows_no_pairing && shows_no_exceedances && has_no_count)
}

/// Whether each command is answered 90.
fn asks_nothing<S: Alter>(alloc: Global, book: &mut Book<S>) -> Result<bool, Fault> {
    for at in 0..COMMANDS {
        if !is_part(at) && ask(alloc, book, at)? != Heard::Stopped {
            return Ok(false);
        }
    }
    let mut import = import::<S>(alloc)?;
    Ok(ask_part(alloc, book, &mut import, 2) == Heard::Stopped)
}

/// Whether a run is answered 90 at once, be it of no command.
fn runs_nothing<S: Alter>(alloc: Global, book: &mut Book<S>) -> Result<bool, Fault> {
    let list = requests(alloc, &[(1, CAPTAIN)])?;
    let Run { answers, fault } = book.run(alloc, &list);
    let of_none = book.run(alloc, &[]).fault;
    Ok(answers.is_empty() && fault == Some(StoreFault::Store) && of_none == fault)
}

/// Whether every further call of a book is answered 90.
fn is_closed<S: Alter>(alloc: Global, book: &mut Book<S>) -> Result<bool, Fault> {
    Ok(
        book.has_failed()
            && shows_nothing(alloc, book)?
            && asks_nothing(alloc, book)?
            && runs_nothing(alloc, book)?,
    )
}

/// How far a book comes with this many of the first commands.
fn far_come<S: Alter>(alloc: Global, book: &mut Book<S>, count: usize) -> Result<Reached, Fault> {
    let (answered, last) = play(alloc, book, count)?;
    let is_told = match last {
        Heard::AsAlways => true,
        Heard::Stopped => is_closed(alloc, book)?,
        Heard::NoMemory | Heard::Otherwise => false,
    };
    Ok(if is_told {
        Reached::Answered(answered)
    } else {
        Reached::OtherwiseReported
    })
}

/// How far a run came whose book was not made, which is to be reported as 90.
fn not_made(report: Result<String, Fault>) -> Reached {
    if report.is_ok_and(|text| text.as_str() == "90 Store\n") {
        Reached::NoBook
    } else {
        Reached::OtherwiseReported
    }
}

/// Makes a book, and asks it this many of the first commands.
#[derive(Clone, Copy)]
pub struct Asking {
    pub count: usize,
}

impl Act for Asking {
    type Outcome = Reached;

    fn act<S: Alter + Drop>(self, alloc: Global, conn: Connection<S>) -> (Reached, Connection<S>) {
        match create(alloc, conn) {
            Ok(mut book) => {
                let reached = far_come(alloc, &mut book, self.count);
                let reached = reached.unwrap_or(Reached::OtherwiseReported);
                (reached, book.into_connection())
            }
            Err((report, conn)) => (not_made(report), conn),
        }
    }
}

/// The book that is there, or a new one where there is none; nothing where it is refused otherwise.
fn there<S: Alter>(alloc: Global, conn: Connection<S>) -> Result<Book<S>, Connection<S>> {
    if !conn.is_autocommit() {
        return Err(conn);
    }
    match Book::adopt(alloc, conn) {
        Ok(book) => Ok(book),
        Err((LoadFault::NotABook, conn)) => create(alloc, conn).map_err(|(_told, conn)| conn),
        Err((_fault, conn)) => Err(conn),
    }
}

/// What makes a file of version 1 of one of version 2: its four tables more are gone.
const LOWERED: &str =
    "DROP TABLE base; DROP TABLE crew_base; DROP TABLE outside; DROP TABLE outside_segment; \
    UPDATE book SET version = 1";

/// Makes a book, asks it the commands that a book of version 1 can keep, and leaves it in version 1.
#[derive(Clone, Copy)]
pub struct Lowering;

impl Act for Lowering {
    /// Whether it is so.
    type Outcome = bool;

    fn act<S: Alter + Drop>(self, alloc: Global, conn: Connection<S>) -> (bool, Connection<S>) {
        match create(alloc, conn) {
            Ok(mut book) => {
                let is_answered = answers_first(alloc, &mut book, FIRST);
                let mut conn = book.into_connection();
                (is_answered && conn.execute_batch(LOWERED).is_ok(), conn)
            }
            Err((_told, conn)) => (false, conn),
        }
    }
}

/// What was found, and what comes of it when all commands are handed in again.
#[derive(Drop)]
pub struct Again {
    /// The rows that are there.
    pub held: Result<String, Fault>,
    /// Whether each command is answered as in a run without a stop.
    pub is_answered: bool,
    /// The rows at the end.
    pub ended: Result<String, Fault>,
}

/// Takes up the book that is there, or makes one, and asks it all commands.
#[derive(Clone, Copy)]
pub struct HandedInAgain;

/// Whether this many of the first commands are answered as always.
fn answers_first<S: Alter>(alloc: Global, book: &mut Book<S>, count: usize) -> bool {
    matches!(play(alloc, book, count), Ok((_, Heard::AsAlways)))
}

impl Act for HandedInAgain {
    type Outcome = Again;

    fn act<S: Alter + Drop>(
        self,
        alloc: Global,
        mut conn: Connection<S>,
    ) -> (Again, Connection<S>) {
        let held = rows_of(alloc, &mut conn);
        let (is_answered, mut conn) = match there(alloc, conn) {
            Ok(mut book) => (
                answers_first(alloc, &mut book, COMMANDS),
                book.into_connection(),
            ),
            Err(conn) => (false, conn),
        };
        let ended = rows_of(alloc, &mut conn);
        let again = Again {
            held,
            is_answered,
            ended,
        };
        (again, conn)
    }
}

/// Whether a book is taken up, or how it is refused.
#[derive(Clone, Copy, PartialEq, Eq)]
pub enum Taken {
    Up,
    Stopped,
    Otherwise,
}

/// Takes up the book that is there.
#[derive(Clone, Copy)]
pub struct TakingUp;

impl Act for TakingUp {
    type Outcome = Taken;

    fn act<S: Alter + Drop>(self, alloc: Global, conn: Connection<S>) -> (Taken, Connection<S>) {
        if !conn.is_autocommit() {
            return (Taken::Otherwise, conn);
        }
        match Book::adopt(alloc, conn) {
            Ok(book) => (Taken::Up, book.into_connection()),
            Err((LoadFault::Fault(StoreFault::Store), conn)) => (Taken::Stopped, conn),
            Err((_fault, conn)) => (Taken::Otherwise, conn),
        }
    }
}

/// Opens files, does this with the database in them, and closes them. Nothing is reported where they don't open.
pub fn with_opened<D: Disk + Drop, A: Act>(
    alloc: Global,
    files: Files<D>,
    act: A,
) -> (Option<A::Outcome>, Files<D>) {
    if !files.may_be_used() {
        return (None, files);
    }
    match Connection::open_files(alloc, files, Options::new(7)) {
        Ok(conn) => {
            let (outcome, conn) = act.act(alloc, conn);
            (Some(outcome), conn.into_store().close())
        }
        Err((_error, left)) => (None, left.into_files()),
    }
}
