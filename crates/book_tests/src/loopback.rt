//! A client that speaks to a book over loopback, in one thread.

use crate::opening::{book_of, create};
use book::Book;
use sqlite::{Alter, Connection};
use std::io;
use std::io::Write;
use std::net::TcpStream;
use std::test::Fail;
use web::{Room, serve_one};

/// What a client gets to the end of its connection for a request that it has written before a book is asked.
fn response<S: Alter>(rt: &HostRuntime, book: &mut Book<S>, request: &str) -> Result<String, Fail> {
    let mut room = Room::open(rt, rt.alloc(), 0, 1)?;
    let mut client = TcpStream::connect(rt, room.local_addr()?)?;
    client.write_all(request.as_bytes())?;
    let Some(Ok(_)) = serve_one(rt.alloc(), rt, &mut room, book) else {
        return Err(Fail::from("the connection is not served"));
    };
    Ok(io::read_to_string(rt.alloc(), client)?)
}

/// The same of a book without crew over a database.
fn first_response<S: Alter + Drop>(
    rt: &HostRuntime,
    conn: Connection<S>,
    request: &str,
) -> Result<String, Fail> {
    let mut book = book_of(create(rt.alloc(), conn))?;
    response(rt, &mut book, request)
}

#[test]
fn a_client_gets_the_exceedances(rt: HostRuntime) -> Result<(), Fail> {
    let conn = Connection::open_in_memory(rt.alloc())?;
    let text = first_response(&rt, conn, "GET /exceedances HTTP/1.1\r\nHost: x\r\n\r\n")?;
    assert_eq!(rt;
        text.as_str(),
        "HTTP/1.1 200 OK\r\n\
        Content-Type: text/plain; charset=utf-8\r\n\
        Content-Length: 14\r\n\
        Connection: close\r\n\
        \r\n\
        EXCEEDANCES 0\n"
    );
    Ok(())
}
