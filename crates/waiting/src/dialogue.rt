//! What is said over one connection: its request comes, is answered once it is whole, and its response goes. The definitions are in
//! `specs/Dialogue.antt`.
//! Wrong bodies: `must-fail/` and `must-fail-more/`.
ghost use Rattle.std.specs.Prelude.{◌≡◌, ◌⊎◌};
ghost use Rattle.waiting.specs.Dialogue as spec;
ghost use Rattle.waiting.specs.declared.dialogue.Stage.TheVariants as stage;

use crate::answerer::Answerer;
use crate::incoming::{Incoming, Taken};
use crate::outgoing::{Handed, Outgoing};
use http::StatusCode;
use http_exchange::Served;
use http_message::no_memory_response;
use std::alloc::Global;
use std::io::{Read, Write};

/// How far a connection is.
#[derive(Clone, Copy, Debug, PartialEq, Eq)]
pub(crate) enum Stage {
    /// Its request isn't whole.
    Receiving,
    /// Its request was answered, and the response hasn't gone whole.
    Sending(Served),
    /// Its response has gone.
    Ending(Served),
    /// It is over, and this was served.
    Over(Served),
    /// It is over: the client isn't answered whole.
    Failed,
}

/// What was said over a connection, and how far it is.
#[derive(Drop)]
pub(crate) struct Dialogue {
    request: Incoming,
    response: Outgoing,
    stage: Stage,
}

impl Dialogue {
    /// Begins.
    pub(crate) fn new(alloc: Global) -> Dialogue
        ensures { result.stage ≡ stage.Receiving }
    {
        Dialogue {
            request: Incoming::new(alloc),
            response: Outgoing::new(alloc),
            stage: Stage::Receiving,
        }
    }

    /// Returns how far it is.
    pub(crate) fn stage(&self) -> Stage
        ensures { result ≡ self.now.stage }
    {
        self.stage
    }

    /// Returns whether a byte of a request has come.
    pub(crate) fn has_begun(&self) -> bool {
        !self.request.bytes().is_empty()
    }

    /// Ends it, and this was served.
    pub(crate) fn end(&mut self, served: Served)
        ensures { self.new.stage ≡ stage.Over served }
    {
        self.stage = Stage::Over(served);
    }

    /// Ends it without a whole answer.
    pub(crate) fn fail(&mut self)
        ensures { self.new.stage ≡ stage.Failed }
    {
        self.stage = Stage::Failed;
    }

    /// Goes on as far as the reader and the writer do. Returns whether a byte of a response has gone.
    pub(crate) fn go_on<R: Read, W: Write, K, A: Answerer<K>>(
        &mut self,
        alloc: Global,
        reader: &mut R,
        writer: &mut W,
        answerer: &A,
        kept: &mut K,
    ) -> bool
        ensures { spec.Converses A.answers (R.remaining reader.old) (R.remaining reader.new)
            (W.contents writer.old) (W.contents writer.new) self.old self.new kept.old kept.new }
    {
        match self.stage {
            Stage::Receiving => {
                self.receive(alloc, reader, writer, answerer, kept);
                match self.stage {
                    Stage::Sending(served) => self.send(writer, served),
                    _ => false,
                }
            }
            Stage::Sending(served) => self.send(writer, served),
            _ => false,
        }
    }

    /// Takes in what has come, and has it answered if it is whole.
    fn receive<R: Read, W: Write, K, A: Answerer<K>>(
        &mut self,
        alloc: Global,
        reader: &mut R,
        writer: &mut W,
        answerer: &A,
        kept: &mut K,
    )
        requires { self.old.stage ≡ stage.Receiving }
        ensures { spec.Converses A.answers (R.remaining reader.old) (R.remaining reader.new)
            (W.contents writer.old) (W.contents writer.new) self.old self.new kept.old kept.new }
    {
        match self.request.take_in(alloc, reader) {
            Taken::More => {}
            Taken::Waits => self.tell_to_go_on(writer),
            Taken::Whole => self.answer(alloc, writer, answerer, kept),
            Taken::Failed => self.stage = Stage::Failed,
            Taken::NoMemory => self.refuse_for_memory(writer),
        }
    }

    /// Tells a client that waits for it to go on.
    fn tell_to_go_on<W: Write>(&mut self, writer: &mut W)
        requires { self.old.stage ≡ stage.Receiving }
        ensures request { self.new.request ≡ self.old.request }
        ensures next { spec.IsSaidOn self.old self.new (W.contents writer.old)
            (W.contents writer.new)
            ⊎ spec.IsGivenUp self.new (W.contents writer.old) (W.contents writer.new) }
    {
        if self.response.go_on().is_err() {
            self.refuse_for_memory(writer);
        } else if self.response.hand_out(writer) == Handed::Failed {
            self.stage = Stage::Failed;
        }
    }

    /// Has a whole request answered.
    fn answer<W: Write, K, A: Answerer<K>>(
        &mut self,
        alloc: Global,
        writer: &mut W,
        answerer: &A,
        kept: &mut K,
    )
        ensures { spec.IsAnsweredOver A.answers self.old.request self.old.response self.new
            (W.contents writer.old) (W.contents writer.new) kept.old kept.new }
    {
        let mut response = Vec::new(alloc);
        let answered = answerer.answer(alloc, kept, self.request.bytes(), &mut response);
        self.request = Incoming::new(alloc);
        match answered {
            Ok(served) if self.response.set(response).is_ok() => {
                self.stage = Stage::Sending(served);
            }
            _ => self.refuse_for_memory(writer),
        }
    }

    /// Sends that there is no memory, which takes none.
    fn refuse_for_memory<W: Write>(&mut self, writer: &mut W)
        ensures request { self.new.request ≡ self.old.request }
        ensures given_up { spec.IsGivenUp self.new (W.contents writer.old) (W.contents writer.new) }
        ensures said { self.new.response.bytes.items ≡ self.old.response.bytes.items }
    {
        self.stage = if self.response.is_gone()
            && writer.write_all(no_memory_response(false)).is_ok()
        {
            Stage::Ending(Served::Answered(StatusCode::SERVICE_UNAVAILABLE))
        } else {
            Stage::Failed
        };
    }

    /// Sends what a writer takes of the response. Returns whether it took any.
    fn send<W: Write>(&mut self, writer: &mut W, served: Served) -> bool
        requires { self.old.stage ≡ stage.Sending served }
        ensures { spec.IsHandedOn self.old self.new served (W.contents writer.old)
            (W.contents writer.new) }
    {
        match self.response.hand_out(writer) {
            Handed::Nothing => false,
            Handed::Some => true,
            Handed::All => {
                self.stage = Stage::Ending(served);
                true
            }
            Handed::Failed => {
                self.stage = Stage::Failed;
                false
            }
        }
    }
}
