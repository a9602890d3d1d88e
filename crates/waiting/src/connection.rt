//! A connection: its socket, what was said over it, and its times. How many requests may still be asked over it is `requests_over`
//! (`specs/Rooms.antt`).
//! Clients that wait, stop or break off: `tests/serve.py`. Wrong bodies: `must-fail/` and `must-fail-more/`.
ghost use Rattle.std.specs.Prelude.{◌≡◌, ◌≤◌, ◌↔◌, false, IfSome, IsTrue};
ghost use Rattle.waiting.specs.Answered.{AnswersOver};
ghost use Rattle.waiting.specs.Dialogue.{requests_left};
ghost use Rattle.waiting.specs.Rooms.{MayEnd, outcome_of, requests_over, untaken};
ghost use Rattle.waiting.specs.declared.dialogue.Stage.TheVariants as stage;

use crate::answerer::Answerer;
use crate::dialogue::{Dialogue, Stage};
use crate::fault::ServeFault;
use http_exchange::Served;
use mio::Token;
use mio::net::TcpStream;
use std::alloc::Global;
use std::io::{ErrorKind, Read};
use std::net::Shutdown;
use std::time::{Clock, Duration, Instant};

/// For how many milliseconds a client that has its response may leave its side open.
const FAREWELL: u64 = 200;

/// How many bytes that a client sends beyond its request are read at once, and how often.
const DROPPED_AT_ONCE: usize = 4_096;

const MOST_DROPS: u32 = 4_096;

/// A connection that is open.
#[derive(Drop)]
pub(crate) struct Connection {
    stream: TcpStream,
    token: Token,
    dialogue: Dialogue,
    /// When it was taken, when its request was answered, or when last a byte of its response went.
    since: Instant,
    /// Whether the socket may have something new.
    ready: bool,
    /// How often what a client sends beyond its request may still be read.
    drops_left: u32,
}

impl Connection {
    /// Begins with a connection that was taken.
    pub(crate) fn new(alloc: Global, stream: TcpStream, token: Token, now: Instant) -> Connection
        ensures { requests_over result ≡ 1 }
    {
        Connection {
            stream,
            token,
            dialogue: Dialogue::new(alloc),
            since: now,
            ready: true,
            drops_left: MOST_DROPS,
        }
    }

    /// Returns what came of it, if it is over.
    pub(crate) fn outcome(&self) -> Option<Result<Served, ServeFault>>
        ensures taken { IfSome result (λ outcome. untaken outcome ≡ 0) }
        ensures told { result ≡ outcome_of self.now.dialogue.stage }
    {
        match self.dialogue.stage() {
            Stage::Over(served) => Some(Ok(served)),
            Stage::Failed => Some(Err(ServeFault::Channel)),
            Stage::Receiving | Stage::Sending(_) | Stage::Ending(_) => None,
        }
    }

    /// Returns whether its request isn't whole.
    pub(crate) fn is_receiving(&self) -> bool
        ensures { IsTrue result ↔ (requests_over self.now ≡ 1) }
    {
        self.dialogue.stage() == Stage::Receiving
    }

    /// Notes that the socket of this token may have something new.
    pub(crate) fn note(&mut self, token: Token)
        ensures { requests_over self.new ≡ requests_over self.old }
    {
        self.ready |= self.token == token;
    }

    /// Notes that the socket may have something new.
    pub(crate) fn note_ready(&mut self)
        ensures { requests_over self.new ≡ requests_over self.old }
    {
        self.ready = true;
    }

    /// Goes on if the socket may have something new, or if its time is up. Returns whether it is over.
    pub(crate) fn go_on<C: Clock, K, A: Answerer<K>>(
        &mut self,
        alloc: Global,
        clock: &C,
        now: Instant,
        patience: Duration,
        answerer: &A,
        kept: &mut K,
    ) -> bool
        ensures { AnswersOver A.answers A.fails (requests_over self.old) (requests_over self.new)
            kept.old kept.new }
    {
        if self.ready || self.is_late(now, patience) {
            self.converse(alloc, clock, now, answerer, kept);
            self.give_up_if_late(now, patience);
        }
        self.outcome().is_some()
    }

    /// Goes on as far as the socket does. To answer may take long, so the time is read anew. What has failed isn't asked any more.
    #[tactic(auto, using(crate::proofs::AnsweredLemmas::none_answered))]
    fn converse<C: Clock, K, A: Answerer<K>>(
        &mut self,
        alloc: Global,
        clock: &C,
        was: Instant,
        answerer: &A,
        kept: &mut K,
    )
        ensures { AnswersOver A.answers A.fails (requests_over self.old) (requests_over self.new)
            kept.old kept.new }
    {
        self.ready = false;
        let was_receiving = self.is_receiving();
        if was_receiving && answerer.has_failed(kept) {
            return;
        }
        let had_ended = self.is_ending();
        let has_sent = speak(alloc, &self.stream, &mut self.dialogue, answerer, kept);
        let now = Instant::now(clock).unwrap_or(was);
        if has_sent || was_receiving != self.is_receiving() {
            self.since = now;
        }
        self.see_off(had_ended, now);
    }

    /// Returns whether its response has gone.
    fn is_ending(&self) -> bool {
        matches!(self.dialogue.stage(), Stage::Ending(_))
    }

    /// Ends a connection whose response has gone, once the client has ended its side.
    fn see_off(&mut self, had_ended: bool, now: Instant)
        ensures few { requests_over self.new ≤ requests_over self.old }
        ensures ends { MayEnd self.old.dialogue.stage self.new.dialogue.stage }
    {
        let Stage::Ending(served) = self.dialogue.stage() else {
            return;
        };
        if !had_ended {
            self.since = now;
            // (the client has its response by then: how the connection ends changes nothing for it)
            let _ = self.stream.shutdown(Shutdown::Write);
        }
        if drop_rest(&self.stream, &mut self.drops_left) {
            self.dialogue.end(served);
        }
    }

    /// Returns how long it may still take.
    pub(crate) fn time_left(&self, now: Instant, patience: Duration) -> Duration {
        let patience = match self.dialogue.stage() {
            Stage::Receiving | Stage::Sending(_) => patience,
            Stage::Ending(_) => Duration::from_millis(FAREWELL),
            Stage::Over(_) | Stage::Failed => Duration::ZERO,
        };
        patience.saturating_sub(now.duration_since(self.since))
    }

    /// Returns whether its time is up.
    fn is_late(&self, now: Instant, patience: Duration) -> bool {
        self.time_left(now, patience).is_zero()
    }

    /// Ends a connection whose time is up. One over which nothing came hasn't failed.
    fn give_up_if_late(&mut self, now: Instant, patience: Duration)
        ensures few { requests_over self.new ≤ requests_over self.old }
        ensures ends { MayEnd self.old.dialogue.stage self.new.dialogue.stage }
    {
        if !self.is_late(now, patience) {
            return;
        }
        match self.dialogue.stage() {
            Stage::Receiving if !self.dialogue.has_begun() => self.dialogue.end(Served::Nothing),
            Stage::Receiving | Stage::Sending(_) => self.dialogue.fail(),
            Stage::Ending(served) => self.dialogue.end(served),
            Stage::Over(_) | Stage::Failed => {}
        }
    }
}

/// Goes on with what is said over a socket as far as that does. Returns whether a byte of a response has gone.
fn speak<K, A: Answerer<K>>(
    alloc: Global,
    stream: &TcpStream,
    dialogue: &mut Dialogue,
    answerer: &A,
    kept: &mut K,
) -> bool
    requires { dialogue.old.stage ≡ stage.Receiving → A.fails kept.old ≡ false }
    ensures { AnswersOver A.answers A.fails (requests_left dialogue.old.stage)
        (requests_left dialogue.new.stage) kept.old kept.new }
{
    let (mut reader, mut writer) = (stream, stream);
    dialogue.go_on(alloc, &mut reader, &mut writer, answerer, kept)
}

/// Drops what a client sends beyond its request, as long as so many drops are left. Returns whether it has ended its side, or
/// none is left. Where a connection is closed before these bytes are read, the system reports that to the client, and it loses the
/// response.
fn drop_rest(stream: &TcpStream, left: &mut u32) -> bool {
    let mut reader = stream;
    let mut dropped = [0u8; DROPPED_AT_ONCE];
    for _drop in 0..*left {
        match reader.read(&mut dropped) {
            Ok(0) => return true,
            Ok(_) => *left = left.saturating_sub(1),
            Err(fault) => return fault.kind() != ErrorKind::WouldBlock,
        }
    }
    true
}
