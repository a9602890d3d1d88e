//! Schedules: their pairings are added in turn. The definition is `IsScheduleAsked` (`specs/Schedules.antt`).
//! Transcript: `tests/transcripts/import.txt`; of the server: `tests/exchanges.py`. Wrong bodies: `must-fail-more/`.
ghost use Rattle.std.specs.Prelude.{◌≤◌, length};
ghost use Rattle.roster.specs.Folds.{import};
ghost use Rattle.roster.specs.Laws.{AreMade};
ghost use Rattle.book.specs.Calls.{IsAfterCalls};
ghost use Rattle.asking.specs.Schedules as spec;

use crate::answers::AskFault;
use book::{Answer, Book};
use codec::{CodecFault, schedule_of_csv};
use duty::Pairing;
use request::RequestNumber;
use sqlite::Alter;
use std::alloc::Global;

/// Hears what the parts of a schedule are answered, each as soon as the book has answered it.
pub trait Listener {
    ghost use Rattle.std.specs.Prelude.{ℕ, ⊤, Result};
    ghost use Rattle.book.specs.Kept.{result_of};
    ghost use Rattle.roster.specs.Folds.{ReplyOrRefusal};

    /// Why it failed.
    type Fault: Drop;

    // it was so before, and so after it heard what this part was answered, or failed
    ghost hears: { Self → Self → ℕ → ReplyOrRefusal → Result ⊤ Self.Fault → Type 0 };

    /// Hears what a part was answered; the first is 1.
    fn hear(&mut self, alloc: Global, part: u16, answer: &Answer) -> Result<(), Self::Fault>
        ensures { hears self.old self.new part (result_of answer.now) result };
}

/// Why not all pairings of a schedule were asked and heard.
#[derive(Drop)]
pub enum NotAllAsked<F> {
    /// It isn't read: one of its records is at fault (30).
    Unread(CodecFault),
    /// The book met a fault at a part, or there was no memory to read the schedule.
    Ask(AskFault),
    /// The listener failed at a part, which the book had answered.
    Unheard(F),
}

/// Asks a book to add the pairings of a schedule in CSV, one after the other, under the parts of a number. A fault leaves
/// the parts that were answered. The schedule handed in again under its number, with nothing else asked in between, ends as
/// if it had never been stopped.
pub fn ask_schedule<S: Alter, L: Listener>(
    alloc: Global,
    book: &mut Book<S>,
    number: RequestNumber,
    text: &[u8],
    listener: &mut L,
) -> Result<(), NotAllAsked<L::Fault>>
    ensures asked { spec.IsScheduleAsked S.Store L.hears book.old book.new listener.old listener.new
        number text.now result }
    ensures calls { IsAfterCalls S.Store book.old book.new }
{
    match schedule_of_csv(alloc, text) {
        Ok(pairings) => ask_parts(alloc, book, number, pairings, listener),
        Err(CodecFault::Memory) => Err(NotAllAsked::Ask(AskFault::Memory)),
        Err(fault) => Err(NotAllAsked::Unread(fault)),
    }
}

/// Asks a book to add pairings.
fn ask_parts<S: Alter, L: Listener>(
    alloc: Global,
    book: &mut Book<S>,
    number: RequestNumber,
    pairings: Vec<Pairing>,
    listener: &mut L,
) -> Result<(), NotAllAsked<L::Fault>>
    requires count { length pairings.items ≤ 10_000 }
    requires made { AreMade (import number pairings.items) }
    ensures asked { spec.ArePartsAsked S.Store L.hears book.old book.new listener.old listener.new
        (import number pairings.items) result }
    ensures calls { IsAfterCalls S.Store book.old book.new }
{
    let mut import = Book::<S>::import(number, pairings);
    let mut part = 1u16;
    while let Some(answer) = import.next(alloc, book) {
        let answer = match answer {
            Ok(answer) => answer,
            Err(fault) => return Err(NotAllAsked::Ask(AskFault::Book(fault))),
        };
        let heard = listener.hear(alloc, part, &answer);
        // (by a call: written out, an answer's drop takes the prover long)
        drop(answer);
        if let Err(fault) = heard {
            return Err(NotAllAsked::Unheard(fault));
        }
        part += 1;
    }
    Ok(())
}
