//! A response, as far as its bytes have gone. The definitions are in `specs/Handing.antt`.
//! Wrong bodies: `must-fail-more/`.
ghost use Rattle.std.specs.Prelude.{◌≡◌, ◌≤◌, ◌==◌, [], OnErr, OnOk, vec_len};
ghost use Rattle.waiting.specs.Handing.{HandsOut, IsAllGone, IsSet, IsToldToGoOn};

use http_message::CONTINUE;
use std::alloc::Global;
use std::io::{ErrorKind, Write};
use values::MemoryFault;

/// The bytes of a response, and how many of them the client's side has taken.
#[derive(Drop)]
pub(crate) struct Outgoing {
    bytes: Vec<u8>,
    gone: usize,
    ghost within: { gone ≤ vec_len bytes },
}

/// How far a response has gone.
#[derive(Clone, Copy, Debug, PartialEq, Eq)]
pub(crate) enum Handed {
    /// Some of it hasn't, and none of it did in this call.
    Nothing,
    /// Some of it hasn't, and some did in this call.
    Some,
    /// All of it.
    All,
    /// The writer failed.
    Failed,
}

impl Outgoing {
    /// Begins with no byte.
    pub(crate) fn new(alloc: Global) -> Outgoing
        ensures bytes { result.bytes.items ≡ [] }
        ensures gone { result.gone ≡ 0 }
    {
        Outgoing {
            bytes: Vec::new(alloc),
            gone: 0,
        }
    }

    /// Has the client told to go on, unless it was.
    pub(crate) fn go_on(&mut self) -> Result<(), MemoryFault>
        ensures gone { self.new.gone ≡ self.old.gone }
        ensures told { OnOk result (IsToldToGoOn self.old.bytes.items self.new.bytes.items) }
        ensures unsaid { OnErr result (self.new.bytes.items ≡ self.old.bytes.items) }
    {
        if self.bytes.is_empty() {
            self.bytes.extend_from_slice(CONTINUE)?;
        }
        Ok(())
    }

    /// Sets the response. One that has told the client to go on already says so again at its front, and that isn't sent again; one
    /// that doesn't is added to what was said.
    #[tactic(auto, using(crate::proofs::HandLemmas::set_whole))]
    pub(crate) fn set(&mut self, response: Vec<u8>) -> Result<(), MemoryFault>
        ensures gone { self.new.gone ≡ self.old.gone }
        ensures set { OnOk result (IsSet self.old.bytes.items response.items self.new.bytes.items) }
        ensures unset { OnErr result (self.new.bytes.items ≡ self.old.bytes.items) }
    {
        if response.starts_with(&self.bytes) {
            self.bytes = response;
        } else {
            self.bytes.extend_from_slice(&response)?;
        }
        Ok(())
    }

    /// Returns whether all of it has gone.
    pub(crate) fn is_gone(&self) -> bool
        ensures { result ≡ (self.now.gone == vec_len self.now.bytes) }
    {
        self.gone == self.bytes.len()
    }

    /// Hands out what a writer takes now.
    pub(crate) fn hand_out<W: Write>(&mut self, writer: &mut W) -> Handed
        ensures bytes { self.new.bytes.items ≡ self.old.bytes.items }
        ensures handed { HandsOut self.old.bytes.items self.old.gone self.new.gone
            (W.contents writer.old) (W.contents writer.new) }
        ensures all { IsAllGone self.new.bytes.items self.new.gone result }
    {
        let had = self.gone;
        for _ in 0..u64::MAX {
            if self.gone == self.bytes.len() {
                return Handed::All;
            }
            match self.write_once(writer) {
                Ok(()) => {}
                Err(Unwritten::Waits) => {
                    return if self.gone > had {
                        Handed::Some
                    } else {
                        Handed::Nothing
                    };
                }
                Err(Unwritten::Failed) => return Handed::Failed,
            }
        }
        Handed::Failed
    }

    /// Has a writer take once what it takes.
    #[tactic(auto, using(crate::proofs::HandLemmas::handed_none, crate::proofs::HandLemmas::handed_once, crate::proofs::HandLemmas::handed_zero))]
    fn write_once<W: Write>(&mut self, writer: &mut W) -> Result<(), Unwritten>
        ensures bytes { self.new.bytes.items ≡ self.old.bytes.items }
        ensures handed { HandsOut self.old.bytes.items self.old.gone self.new.gone
            (W.contents writer.old) (W.contents writer.new) }
    {
        match writer.write(&self.bytes[self.gone..]) {
            Ok(0) => Err(Unwritten::Failed),
            Ok(count) => {
                self.gone += count;
                Ok(())
            }
            Err(fault) => match fault.kind() {
                ErrorKind::Interrupted => Ok(()),
                ErrorKind::WouldBlock => Err(Unwritten::Waits),
                _ => Err(Unwritten::Failed),
            },
        }
    }
}

/// Why a writer takes nothing.
#[derive(Clone, Copy, Debug, PartialEq, Eq)]
enum Unwritten {
    /// It would have to wait.
    Waits,
    /// It failed.
    Failed,
}
