//! A request, as far as its bytes have come. When they are enough is `IsWhole` (`specs/Whole.antt`).
//! Wrong bodies: `must-fail/` and `must-fail-more/`.
ghost use Rattle.std.specs.Prelude.{◌≡◌, ◌++◌, [], IsTrue, OnOk};
ghost use Rattle.waiting.specs.Whole.{IsKnown, IsUnfinished, IsWhole, TakesIn};

use http_message::{Extent, extent_of};
use std::alloc::Global;
use std::io::{ErrorKind, Read};
use std::marker::Model;
use values::MemoryFault;

/// How many bytes are read at once.
const READ_AT_ONCE: usize = 16_384;

/// The bytes of a request that have come, and how many settle it, as far as that is known.
#[derive(Drop)]
pub(crate) struct Incoming {
    bytes: Vec<u8>,
    extent: Extent,
}

impl Model for Incoming {
    ghost use Rattle.std.specs.Prelude.{ℕ, List};
    ghost use Rattle.waiting.specs.Whole.{IsKnown};

    ghost Value = { List ℕ };

    ghost view = { λ it. it.bytes.items };

    ghost invariant = { λ it. IsKnown it.bytes.items it.extent };
}

/// What is known of a request once no byte more can be read.
#[derive(Clone, Copy, Debug, PartialEq, Eq)]
pub(crate) enum Taken {
    /// More has to come.
    More,
    /// More has to come, and the client waits for `100 Continue`.
    Waits,
    /// It is whole, or the client has ended its side.
    Whole,
    /// The reader failed.
    Failed,
    /// There was no memory for it.
    NoMemory,
}

impl Incoming {
    /// Begins with no byte.
    pub(crate) fn new(alloc: Global) -> Incoming
        ensures { result ≡ [] }
    {
        Incoming {
            bytes: Vec::new(alloc),
            extent: Extent::Unknown,
        }
    }

    /// Returns the bytes that have come.
    pub(crate) fn bytes(&self) -> &[u8]
        ensures { result.now ≡ self.now }
    {
        self.bytes.as_slice()
    }

    /// Takes in what a reader has now, up to the end of a request.
    pub(crate) fn take_in<R: Read>(&mut self, alloc: Global, reader: &mut R) -> Taken
        ensures { TakesIn (R.remaining reader.old) (R.remaining reader.new) self.old self.new
            result }
    {
        for _ in 0..u64::MAX {
            if are_enough(&self.bytes, self.extent) {
                return Taken::Whole;
            }
            let mut piece = [0u8; READ_AT_ONCE];
            match reader.read(&mut piece) {
                Ok(0) => return Taken::Whole,
                Ok(count) => {
                    if self.add(alloc, &piece[..count]).is_err() {
                        return Taken::NoMemory;
                    }
                }
                Err(fault) => match fault.kind() {
                    ErrorKind::Interrupted => {}
                    ErrorKind::WouldBlock => return unfinished(&self.bytes, self.extent),
                    _ => return Taken::Failed,
                },
            }
        }
        Taken::Failed
    }

    /// Adds bytes that have come.
    fn add(&mut self, alloc: Global, piece: &[u8]) -> Result<(), MemoryFault>
        ensures { OnOk result (self.new ≡ self.old ++ piece.now) }
    {
        self.bytes.extend_from_slice(piece)?;
        if self.extent == Extent::Unknown {
            self.extent = extent_of(alloc, &self.bytes)?;
        }
        Ok(())
    }
}

/// Returns whether bytes settle a request that is settled by so many.
fn are_enough(bytes: &[u8], extent: Extent) -> bool
    requires { IsKnown bytes.now extent }
    ensures { IsTrue result → IsWhole bytes.now }
{
    match extent {
        Extent::Known(settled) => bytes.len() >= settled.length,
        Extent::Unknown => false,
    }
}

/// Tells how a request goes on that isn't whole.
fn unfinished(bytes: &[u8], extent: Extent) -> Taken
    requires { IsKnown bytes.now extent }
    ensures { IsUnfinished bytes.now result }
{
    match extent {
        Extent::Known(settled) => {
            if settled.waits {
                Taken::Waits
            } else {
                Taken::More
            }
        }
        Extent::Unknown => Taken::More,
    }
}
