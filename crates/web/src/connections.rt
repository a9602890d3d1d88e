//! The connections of clients, whose requests a book answers.
//! Clients that wait, stop or break off: `tests/serve.py`. Wrong bodies: `must-fail-more/`.
ghost use Rattle.waiting.specs.Rooms.{ServesNext};
ghost use Rattle.web.specs.Connections.{IsAnsweredBy, has_failed};

use crate::exchanges::exchange;
use book::Book;
use http_exchange::{ChannelFault, Served};
use sqlite::Alter;
use std::alloc::Global;
use std::time::Clock;
use waiting::{Answerer, Room, ServeFault};

/// Answers the requests of connections by a book.
struct BookAnswerer;

impl<S: Alter> Answerer<Book<S>> for BookAnswerer {
    ghost use Rattle.web.specs.Connections.{IsAnsweredBy, has_failed};

    ghost answers = { λ old new request response result. IsAnsweredBy S.Store old new request response result };

    ghost fails = { λ book. has_failed book };

    fn answer(
        &self,
        alloc: Global,
        book: &mut Book<S>,
        request: &[u8],
        response: &mut Vec<u8>,
    ) -> Result<Served, ChannelFault> {
        let mut reader = request;
        exchange(alloc, &mut reader, response, book)
    }

    fn has_failed(&self, book: &Book<S>) -> bool {
        book.has_failed()
    }
}

/// Has a book answer the requests of the connections in a room, until one of them is over or can't be taken. Returns what came of that
/// one, or nothing if none is left. Once the book's store has failed (90), it is asked nothing more.
pub fn serve_one<C: Clock, S: Alter>(
    alloc: Global,
    clock: &C,
    room: &mut Room,
    book: &mut Book<S>,
) -> Option<Result<Served, ServeFault>>
    ensures { ServesNext (IsAnsweredBy S.Store) has_failed room.old room.new book.old book.new
        result }
{
    room.serve_one(alloc, clock, &BookAnswerer, book)
}
