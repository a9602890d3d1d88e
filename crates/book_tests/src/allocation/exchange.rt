//! A command that the book refuses, over HTTP.

use crate::allocation::reports::MemoryReports;
use crate::fault::Fault;
use crate::opening::create;
use book::Book;
use sqlite::{Alter, Connection};
use std::alloc::Global;
use web::ChannelFault;

/// A book without crew has no ground duty to cancel.
const REQUEST: &str = "POST /requests HTTP/1.1\r\n\
    Host: x\r\n\
    Content-Length: 47\r\n\
    \r\n\
    {\"number\":1,\"do\":\"cancel-ground\",\"ground\":\"G1\"}";

const REFUSED: &str = "HTTP/1.1 409 Conflict\r\n\
    Content-Type: application/json\r\n\
    Content-Length: 55\r\n\
    Connection: close\r\n\
    \r\n\
    {\"name\":\"NoSuchGround\",\"refusal\":15,\"result\":\"refused\"}";

const NO_MEMORY: &str = "HTTP/1.1 503 Service Unavailable\r\n\
    Content-Type: application/json\r\n\
    Content-Length: 49\r\n\
    Connection: close\r\n\
    \r\n\
    {\"name\":\"Memory\",\"refusal\":91,\"result\":\"refused\"}";

/// What a client gets.
fn response_to<S: Alter>(alloc: Global, book: &mut Book<S>) -> Result<Vec<u8>, ChannelFault> {
    let mut reader = REQUEST.as_bytes();
    let mut written = Vec::new(alloc);
    web::exchange(alloc, &mut reader, &mut written, book)?;
    Ok(written)
}

/// What a client gets, who asks again where the channel failed, or where 503 says that there is no memory.
fn got_in_the_end<S: Alter>(
    alloc: Global,
    reports: &mut MemoryReports,
    book: &mut Book<S>,
) -> Result<Vec<u8>, ChannelFault> {
    match response_to(alloc, book) {
        Ok(response) if response.as_slice() == NO_MEMORY.as_bytes() => {
            reports.unavailable = true;
            response_to(alloc, book)
        }
        Err(_) => {
            reports.channel = true;
            response_to(alloc, book)
        }
        got => got,
    }
}

/// Whether a client gets the refusal of a book.
fn gets_the_refusal<S: Alter>(
    alloc: Global,
    reports: &mut MemoryReports,
    book: &mut Book<S>,
) -> bool {
    match got_in_the_end(alloc, reports, book) {
        Ok(response) => response.as_slice() == REFUSED.as_bytes(),
        Err(_) => false,
    }
}

fn is_refused_over<S: Alter + Drop>(
    alloc: Global,
    reports: &mut MemoryReports,
    conn: Connection<S>,
) -> Result<bool, Fault> {
    match create(alloc, conn) {
        Ok(mut book) => Ok(gets_the_refusal(alloc, reports, &mut book)),
        Err(_left) => Err(Fault::Memory),
    }
}

/// Serves a client with a book without crew.
pub fn is_refused(alloc: Global, reports: &mut MemoryReports) -> Result<bool, Fault> {
    let Ok(conn) = Connection::open_in_memory(alloc) else {
        return Err(Fault::Memory);
    };
    is_refused_over(alloc, reports, conn)
}
