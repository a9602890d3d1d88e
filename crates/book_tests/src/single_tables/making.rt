//! The tables of an empty book.

use crate::fault::Fault;
use sqlite::{Alter, Connection};
use std::alloc::Global;
use time117::Zone;
use writing::make_book;

/// Makes the tables of a book of New York's zone. Where a transaction is begun, none are made.
pub fn make_tables<S: Alter>(alloc: Global, conn: &mut Connection<S>) -> Result<(), Fault> {
    if !conn.is_autocommit() {
        return Err(Fault::NoTables);
    }
    let Ok(zone) = Zone::read(alloc, "EST5EDT,M3.2.0,M11.1.0") else {
        return Err(Fault::NoTables);
    };
    match make_book(alloc, conn, &zone) {
        Ok(()) => Ok(()),
        Err(_fault) => Err(Fault::NoTables),
    }
}
