//! Books that are made, or taken up as they are there.

use crate::fault::Fault;
use book::{Book, CreateFault, LoadFault};
use sqlite::{Alter, Connection};
use std::alloc::Global;
use time117::Zone;

/// The zone of New York.
pub const EASTERN: &str = "EST5EDT,M3.2.0,M11.1.0";

/// A text of what was done with a database, and the database.
pub type Left<S> = (Result<String, Fault>, Connection<S>);

/// The book that was made or taken up, where there is one.
pub fn book_of<S: Alter + Drop>(book: Result<Book<S>, Left<S>>) -> Result<Book<S>, Fault> {
    match book {
        Ok(book) => Ok(book),
        Err((_told, _conn)) => Err(Fault::Unread),
    }
}

/// Makes a book of New York's zone, or says what refuses it. Where a transaction is begun, none is made.
pub fn create<S: Alter>(alloc: Global, conn: Connection<S>) -> Result<Book<S>, Left<S>> {
    if !conn.is_autocommit() {
        return Err((Err(Fault::Unread), conn));
    }
    let Ok(zone) = Zone::read(alloc, EASTERN) else {
        return Err((Err(Fault::Unmade), conn));
    };
    match Book::create(alloc, conn, zone) {
        Ok(book) => Ok(book),
        Err((fault, conn)) => Err((not_made(alloc, fault), conn)),
    }
}

fn not_made(alloc: Global, fault: CreateFault) -> Result<String, Fault> {
    Ok(format!(in alloc; "{fault}\n")?)
}

/// Takes up the book that is there, or says what refuses it. Where a transaction is begun, none is taken up.
pub fn take_up<S: Alter>(alloc: Global, conn: Connection<S>) -> Result<Book<S>, Left<S>> {
    if !conn.is_autocommit() {
        return Err((Err(Fault::Unread), conn));
    }
    match Book::adopt(alloc, conn) {
        Ok(book) => Ok(book),
        Err((fault, conn)) => Err((not_taken_up(alloc, fault), conn)),
    }
}

fn not_taken_up(alloc: Global, fault: LoadFault) -> Result<String, Fault> {
    Ok(format!(in alloc; "{fault}\n")?)
}
