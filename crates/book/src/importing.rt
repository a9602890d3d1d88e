//! Imports: a schedule's pairings, asked one after the other under the parts of one number, so that one that was stopped
//! is handed in again.
//! Transcript: `tests/transcripts/import.txt`. Wrong bodies: `must-fail/` and `must-fail-more/`.
ghost use Rattle.std.specs.Prelude.{◌≡◌, ◌+◌, ◌<◌, ◌≤◌, IfErr, IfOk, IfSome, IsSome, IsSomeAnd, MatchOption, None, length};
ghost use Rattle.roster.specs.Laws.{Resumes};
ghost use Rattle.book.specs.Answered.{IsAnswered};
ghost use Rattle.book.specs.Importing.{Importing, part_of};

use crate::answer::Answer;
use crate::keeping::Book;
use command::Key;
use duty::Pairing;
use request::RequestNumber;
use roster::laws::resumes;
use sqlite::Alter;
use std::alloc::Global;
use std::marker::Model;
use store::StoreFault;

/// Pairings that a book is asked to add, one after the other: the first as part 1 of one request, the second as part 2, and
/// so on. Contracts see its number, its pairings and the part that comes next.
#[derive(Drop)]
pub struct Import {
    number: RequestNumber,
    pairings: Vec<Pairing>,
    next: u16,
}

impl Model for Import {
    ghost use Rattle.std.specs.Prelude.{◌≤◌, length};
    ghost use Rattle.book.specs.Importing.{Importing};

    ghost Value = { Importing };

    ghost view = { λ it.
        record { number = it.number; pairings = it.pairings.items; next = it.next } };

    ghost invariant = { λ it. (length it.pairings.items ≤ 10_000) × (1 ≤ it.next) };
}

impl<S: Alter> Book<S> {
    /// Begins the import of these pairings under a number. It takes no memory. One that was stopped and is handed in
    /// again, with nothing else asked in between, ends as if it had never been stopped.
    pub fn import(number: RequestNumber, pairings: Vec<Pairing>) -> Import
        requires count { length pairings.items ≤ 10_000 }
        ensures begun { let begun : Importing = record
            { number = number; pairings = pairings.items; next = 1 } in result ≡ begun }
        ensures resumes { Resumes }
    {
        resumes();
        Import {
            number,
            pairings,
            next: 1,
        }
    }
}

impl Import {
    /// Asks a book the next part, as [`Book::ask`] does: one pairing, and at most one commit. After an answer, a refusal too,
    /// the import is at the part after it; after a fault (90, 91) it stays. `None` comes after the last part.
    pub fn next<S: Alter>(
        &mut self,
        alloc: Global,
        book: &mut Book<S>,
    ) -> Option<Result<Answer, StoreFault>>
        ensures some { self.old.next ≤ length self.old.pairings → IsSome result }
        ensures none { length self.old.pairings < self.old.next
            → (result ≡ None) × (self.new ≡ self.old) × (book.new ≡ book.old) }
        ensures part { MatchOption (part_of self.old) (result ≡ None)
            (λ asked. IsSomeAnd result (IsAnswered S.Store book.old book.new asked)) }
        ensures moves { IfSome result
            (λ answer. IfOk answer (λ _. self.new ≡ record self.old { next = self.old.next + 1 })) }
        ensures stays { IfSome result (λ answer. IfErr answer (λ _. self.new ≡ self.old)) }
    {
        let pairing = self.pairings.get(usize::from(self.next - 1))?;
        let answer = book.add(alloc, Key::new(self.number, self.next), pairing);
        if answer.is_ok() {
            self.next += 1;
        }
        Some(answer)
    }
}
