//! What a step gives: a repeat, a refusal, or what is to be changed. A change is what a store writes.
use command::{Command, Key, Refusal, Reply, Seat};
use duty::{CrewId, PairingId};
use std::alloc::Global;
use values::{MemoryFault, Sequence, TryClone};

/// A seat of a pairing, and who holds it after a command.
#[derive(PartialEq, Eq, Drop)]
pub struct SeatChange {
    pub pairing: PairingId,
    pub seat: Seat,
    pub holder: Option<CrewId>,
}

/// What an accepted command changes: its key then holds it with its reply, and the seats get or lose a holder.
#[derive(PartialEq, Eq, Drop)]
pub struct Change {
    pub key: Key,
    pub command: Command,
    pub reply: Reply,
    pub seats: Sequence<SeatChange>,
}

/// What a command is answered.
#[derive(PartialEq, Eq, Drop)]
pub enum Verdict {
    /// The key holds this command; its reply.
    Repeat(Reply),
    /// What the command changes, and its reply.
    Accept(Change, Reply),
    /// Why the command changes nothing.
    Refuse(Refusal),
}

impl TryClone for SeatChange {
    fn try_clone(&self, alloc: Global) -> Result<SeatChange, MemoryFault> {
        Ok(SeatChange {
            pairing: self.pairing.try_clone(alloc)?,
            seat: self.seat,
            holder: TryClone::try_clone(&self.holder, alloc)?,
        })
    }
}

impl TryClone for Change {
    fn try_clone(&self, alloc: Global) -> Result<Change, MemoryFault> {
        Ok(Change {
            key: self.key,
            reply: self.reply.try_clone(alloc)?,
            seats: self.seats.try_clone(alloc)?,
            command: self.command.try_clone(alloc)?,
        })
    }
}

impl TryClone for Verdict {
    fn try_clone(&self, alloc: Global) -> Result<Verdict, MemoryFault> {
        Ok(match self {
            Verdict::Repeat(reply) => Verdict::Repeat(reply.try_clone(alloc)?),
            Verdict::Accept(change, reply) => {
                let reply = reply.try_clone(alloc)?;
                Verdict::Accept(change.try_clone(alloc)?, reply)
            }
            Verdict::Refuse(refusal) => Verdict::Refuse(refusal.try_clone(alloc)?),
        })
    }
}
