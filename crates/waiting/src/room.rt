//! A port, and the connections that are open. What a room does next is `ServesNext` (`specs/Rooms.antt`).
//! Many clients at once: `tests/serve.py`. Wrong bodies: `must-fail-more/`.
ghost use Rattle.std.specs.Prelude.{◌≡◌, ◌≤◌, ◌<◌, ◌↔◌, false, true, vec_len, Err, IfOk, IfSome, IsTrue, MatchResult};
ghost use Rattle.waiting.specs.Answered.{AnswersOver};
ghost use Rattle.waiting.specs.Rooms as spec;

use crate::answerer::Answerer;
use crate::connection::Connection;
use crate::fault::ServeFault;
use http_exchange::Served;
use mio::net::{TcpListener, TcpStream};
use mio::{Events, Interest, Poll, Token};
use std::alloc::Global;
use std::io;
use std::io::ErrorKind;
use std::net::{Ipv4Addr, Net, SocketAddr};
use std::time::{Clock, Duration, Instant};

/// How many connections may be open for their whole time. If one more is, each has a second.
const PLACES: usize = 64;

/// The token of the listener. Those of connections are the number of connections that could be taken after them.
const DOOR: Token = Token(usize::MAX);

/// For how many seconds a client may send its request, and for how many it may take nothing of its response.
const PATIENCE: u64 = 30;

/// The same where more connections are open than there are places.
const PATIENCE_IF_FULL: u64 = 1;

/// A port, and the connections that are open.
#[derive(Drop)]
pub struct Room {
    poll: Poll,
    events: Events,
    listener: TcpListener,
    connections: Vec<Connection>,
    /// Whether a client may wait to be taken.
    knocks: bool,
    /// How many connections may still be taken.
    left: u32,
    /// The time at which the last turn began.
    time: Instant,
}

impl Room {
    /// Listens on a port of 127.0.0.1, or on one that is free for 0, and takes at most this many connections.
    pub fn open<R: Net + Clock>(
        rt: &R,
        alloc: Global,
        port: u16,
        connections: u32,
    ) -> io::Result<Room>
        ensures requests { IfOk result (λ room. spec.requests_to_come room ≡ connections) }
        ensures connections { IfOk result (λ room. spec.connections_to_come room ≡ connections) }
    {
        let mut listener = TcpListener::bind(rt, SocketAddr::from((Ipv4Addr::LOCALHOST, port)))?;
        let poll = Poll::new(rt)?;
        poll.registry()
            .register(&mut listener, DOOR, Interest::READABLE)?;
        Ok(Room {
            poll,
            events: Events::with_capacity(alloc, PLACES)?,
            listener,
            connections: Vec::new(alloc),
            knocks: true,
            left: connections,
            time: Instant::now(rt)?,
        })
    }

    /// Returns the address that is listened on.
    pub fn local_addr(&self) -> io::Result<SocketAddr> {
        self.listener.local_addr()
    }

    /// Goes on with all connections, and takes more, until one is over or can't be taken. Returns what came of it, or nothing if none is
    /// left. Once what is kept has failed, nothing more is asked and nobody is taken: those whose request isn't whole are let go.
    pub fn serve_one<C: Clock, K, A: Answerer<K>>(
        &mut self,
        alloc: Global,
        clock: &C,
        answerer: &A,
        kept: &mut K,
    ) -> Option<Result<Served, ServeFault>>
        ensures { spec.ServesNext A.answers A.fails self.old self.new kept.old kept.new result }
    {
        for _turn in 0..u64::MAX {
            self.close_if(answerer.has_failed(kept));
            if let Some(outcome) = self.leave() {
                return Some(outcome);
            }
            if self.is_over() {
                return None;
            }
            if let Err(fault) = self.welcome(alloc, clock) {
                return Some(Err(fault));
            }
            self.go_on_or_wait(alloc, clock, answerer, kept);
        }
        self.give_up_one()
    }

    /// Returns whether no connection is open, and none may be taken.
    fn is_over(&self) -> bool
        ensures { IsTrue result ↔ (spec.connections_to_come self.now ≡ 0) }
    {
        self.left == 0 && self.connections.is_empty()
    }

    /// Takes no connection more if what is kept has failed, and lets those go that haven't sent a whole request.
    fn close_if(&mut self, has_failed: bool)
        ensures requests { spec.requests_to_come self.new ≤ spec.requests_to_come self.old }
        ensures open { has_failed ≡ false → self.new ≡ self.old }
        ensures shut { has_failed ≡ true → self.new.left ≡ 0 }
    {
        if has_failed {
            self.left = 0;
            self.connections
                .retain(|connection| !connection.is_receiving());
        }
    }

    /// Lets go of a connection that is over.
    fn leave(&mut self) -> Option<Result<Served, ServeFault>>
        ensures { spec.LetsGo self.old self.new result }
    {
        let (at, outcome) = self.first_over()?;
        self.connections.remove(at);
        Some(outcome)
    }

    /// Finds a connection that is over, and what came of it.
    fn first_over(&self) -> Option<(usize, Result<Served, ServeFault>)>
        ensures taken { IfSome result (λ it. (it.0 < vec_len self.now.connections)
            × (spec.untaken it.1 ≡ 0)) }
        ensures told { IfSome result (λ it. spec.IsOverAt self.now.connections.items it.0 it.1) }
    {
        for (at, connection) in self.connections.iter().enumerate() {
            if let Some(outcome) = connection.outcome() {
                return Some((at, outcome));
            }
        }
        None
    }

    /// Takes connections as long as there are places for them, and one more, by which it is seen that somebody waits for a place.
    fn welcome<C: Clock>(&mut self, alloc: Global, clock: &C) -> Result<(), ServeFault>
        ensures { MatchResult result (λ _. spec.KeepsConnections self.old self.new)
            (λ fault. spec.IsOneFewer self.old self.new (Err fault)) }
    {
        self.time = Instant::now(clock).unwrap_or(self.time);
        for _place in 0..PLACES {
            if self.left == 0 || !self.knocks || self.connections.len() > PLACES {
                return Ok(());
            }
            match self.listener.accept() {
                Ok((stream, _peer)) => self.take(alloc, stream)?,
                Err(fault) if fault.kind() == ErrorKind::WouldBlock => self.knocks = false,
                Err(_) => {
                    self.left -= 1;
                    return Err(ServeFault::Network);
                }
            }
        }
        Ok(())
    }

    /// Takes a connection, unless the system or the memory has no place for it.
    fn take(&mut self, alloc: Global, mut stream: TcpStream) -> Result<(), ServeFault>
        requires { 0 < self.old.left }
        ensures { MatchResult result (λ _. spec.KeepsConnections self.old self.new)
            (λ fault. spec.IsOneFewer self.old self.new (Err fault)) }
    {
        self.left -= 1;
        let token = Token(self.left as usize);
        let interest = Interest::READABLE | Interest::WRITABLE;
        let registered = self.poll.registry().register(&mut stream, token, interest);
        let connection = Connection::new(alloc, stream, token, self.time);
        if registered.is_err() || self.connections.push(connection).is_err() {
            return Err(ServeFault::Network);
        }
        Ok(())
    }

    /// Goes on with the connections, and waits if none is over.
    fn go_on_or_wait<C: Clock, K, A: Answerer<K>>(
        &mut self,
        alloc: Global,
        clock: &C,
        answerer: &A,
        kept: &mut K,
    )
        ensures answered { AnswersOver A.answers A.fails (spec.requests_to_come self.old)
            (spec.requests_to_come self.new) kept.old kept.new }
        ensures open { spec.connections_to_come self.new ≡ spec.connections_to_come self.old }
    {
        if !self.go_on(alloc, clock, answerer, kept) {
            self.wait();
        }
    }

    /// Goes on with each connection that has something new, or whose time is up. Returns whether one is over.
    fn go_on<C: Clock, K, A: Answerer<K>>(
        &mut self,
        alloc: Global,
        clock: &C,
        answerer: &A,
        kept: &mut K,
    ) -> bool
        ensures answered { AnswersOver A.answers A.fails (spec.requests_to_come self.old)
            (spec.requests_to_come self.new) kept.old kept.new }
        ensures open { spec.connections_to_come self.new ≡ spec.connections_to_come self.old }
    {
        let patience = self.patience();
        let time = self.time;
        let mut over = false;
        for connection in self.connections.iter_mut() {
            over |= connection.go_on(alloc, clock, time, patience, answerer, kept);
        }
        over
    }

    /// Returns how long clients are waited for.
    fn patience(&self) -> Duration {
        Duration::from_secs(if self.connections.len() > PLACES {
            PATIENCE_IF_FULL
        } else {
            PATIENCE
        })
    }

    /// Waits until a socket has something new, or until somebody's time is up, and notes who is ready.
    fn wait(&mut self)
        ensures { spec.KeepsConnections self.old self.new }
    {
        let timeout = self.nearest_end();
        if self.poll.poll(&mut self.events, timeout).is_err() {
            self.knocks = true;
            note_all(&mut self.connections);
            return;
        }
        self.knocks |= note_events(&self.events, &mut self.connections);
    }

    /// Finds how long it is until the first connection's time is up.
    fn nearest_end(&self) -> Option<Duration> {
        let patience = self.patience();
        self.connections
            .iter()
            .map(|connection| connection.time_left(self.time, patience))
            .min()
    }

    /// Gives up a connection, after more turns than can be taken.
    fn give_up_one(&mut self) -> Option<Result<Served, ServeFault>>
        ensures { spec.GivesUp self.old self.new result }
    {
        if self.left > 0 {
            self.left -= 1;
            return Some(Err(ServeFault::Network));
        }
        match self.connections.pop() {
            Some(_) => Some(Err(ServeFault::Channel)),
            None => None,
        }
    }
}

/// Notes of which sockets something is reported. Returns whether somebody knocks.
fn note_events(events: &Events, connections: &mut Vec<Connection>) -> bool
    ensures { spec.StayAsFar connections.old.items connections.new.items }
{
    let mut knocks = false;
    for event in events {
        knocks |= event.token() == DOOR;
        note(connections, event.token());
    }
    knocks
}

/// Notes that the socket of this token may have something new.
fn note(connections: &mut Vec<Connection>, token: Token)
    ensures { spec.StayAsFar connections.old.items connections.new.items }
{
    for connection in connections.iter_mut() {
        connection.note(token);
    }
}

/// Notes that each socket may have something new.
fn note_all(connections: &mut Vec<Connection>)
    ensures { spec.StayAsFar connections.old.items connections.new.items }
{
    for connection in connections.iter_mut() {
        connection.note_ready();
    }
}
