//! The count of requests, in JSON. The definition is `IsCountAsked` (`specs/Count.antt`).
//! What clients are answered: `tests/exchanges.py`. Wrong bodies: `must-fail-more/`.
ghost use Rattle.book.specs.Calls.{IsAfterCalls};
ghost use Rattle.asking.specs.Count as spec;

use crate::answers::AskFault;
use book::{Book, BookFault, RequestCount};
use report_json::count_json;
use sqlite::Alter;
use std::alloc::Global;

/// Asks a book how many requests it keeps, and which number is free for the next, and answers in JSON, as
/// `{"count":"2","next":"3"}`. No table is changed.
pub fn ask_count<S: Alter>(alloc: Global, book: &mut Book<S>) -> Result<String, AskFault>
    ensures asked { spec.IsCountAsked S.Store book.old book.new result }
    ensures calls { IsAfterCalls S.Store book.old book.new }
{
    let count = book.count(alloc);
    write_count(alloc, count)
}

/// Reports what a book counts.
fn write_count(alloc: Global, count: Result<RequestCount, BookFault>) -> Result<String, AskFault>
    ensures { spec.ReportsCount count result }
{
    match count {
        Ok(count) => Ok(count_json(alloc, count.kept, count.next)?),
        Err(fault) => Err(AskFault::Book(fault)),
    }
}
