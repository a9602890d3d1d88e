//! A book in a file of the machine: looked for before it is there, made, not made a second time, and asked in two sessions.

use crate::fault::Fault;
use crate::opening::EASTERN;
use crate::requests::{CAPTAIN, OFFICER, key};
use book::{Answer, Book, create_from};
use sqlite::{Alter, Wary};
use std::alloc::Global;
use std::fs;
use std::test::Fail;
use stored_json::read_canonical;
use time117::Zone;

/// The folder of the file, below the one in which the tests run.
const FOLDER: &str = "files_of_book_tests";

const FILE: &str = "files_of_book_tests/roster.db";

/// Makes a book in the file, and says so, or what refuses it.
fn make(rt: &HostRuntime) -> Result<String, Fault> {
    let Ok(zone) = Zone::read(rt.alloc(), EASTERN) else {
        return Err(Fault::Unmade);
    };
    match create_from(rt, FILE, zone, Wary) {
        Ok(_left) => Ok(String::from_str(rt.alloc(), "made")?),
        Err(fault) => Ok(format!(in rt.alloc(); "{fault}")?),
    }
}

/// What a book answers to a command: `accepted`, or the number of the refusal.
fn answer<S: Alter>(
    alloc: Global,
    book: &mut Book<S>,
    number: u8,
    text: &str,
) -> Result<String, Fault> {
    let command = read_canonical(alloc, text)?;
    match book.ask(alloc, key(number), &command)? {
        Answer::Accepted(_) => Ok(String::from_str(alloc, "accepted")?),
        Answer::Refused(refusal) => Ok(format!(in alloc; "{}", refusal.number())?),
    }
}

/// Takes up the book of the file, and asks it a command; or says what refuses it.
fn ask(rt: &HostRuntime, number: u8, text: &str) -> Result<String, Fault> {
    match Book::open(rt, FILE) {
        Ok(mut book) => answer(rt.alloc(), &mut book, number, text),
        Err(fault) => Ok(format!(in rt.alloc(); "{fault}")?),
    }
}

#[test]
fn a_book_is_made_and_opened(rt: HostRuntime) -> Result<(), Fail> {
    let _ = fs::remove_dir_all(&rt, FOLDER);
    fs::create_dir(&rt, FOLDER)?;
    assert_eq!(rt; ask(&rt, 1, CAPTAIN)?.as_str(), "40 NotABook");
    assert_eq!(rt; make(&rt)?.as_str(), "made");
    assert_eq!(rt; make(&rt)?.as_str(), "43 NotEmpty");
    assert_eq!(rt; ask(&rt, 1, CAPTAIN)?.as_str(), "accepted");
    // Another command under its number: the captain would be accepted again whether the first one was kept or lost.
    assert_eq!(rt; ask(&rt, 1, OFFICER)?.as_str(), "1");
    fs::remove_dir_all(&rt, FOLDER)?;
    Ok(())
}
