//! What holds of whole lives of a book: the clauses of its calls, sessions and openings, put together.
//! The definitions are those of `specs/Calls.antt` and `specs/Lives.antt`; the stops of its tests are in `book_tests`.
ghost use Rattle.book.specs.Calls.{AnswersAreCalls};
ghost use Rattle.book.specs.Lives.{EachIsFoundAgain, EachLifeHolds};

use crate::keeping::Book;
use sqlite::Alter;

impl<S: Alter> Book<S> {
    /// Does nothing. Its clause is a law: what the contracts of [`Book::ask`], [`Import::next`](crate::Import::next),
    /// [`Book::run`], [`Book::show`], [`Book::count`] and [`Book::check`] say of a book makes each of them a call, of which a
    /// life is made.
    pub fn answers_are_calls()
        ensures { AnswersAreCalls S.Store }
    {}

    /// Does nothing. Its clause is a law: a book is made or found, called, stopped anywhere, taken up again over what a crash
    /// left, and called again, any number of times. Then a crash leaves the state of the commands up to some point that covers
    /// each acknowledged one, and nothing else, and each was answered as the state machine answers it. What holds of such a list
    /// of commands is `laws::each_list_holds`. Of an honest book each limit that a member's duties break has its exceedance.
    pub fn each_life_holds()
        ensures { EachLifeHolds S.Store }
    {}

    /// Does nothing. Its clause is a law: a connection that is opened over what a crash left of such a life, or of an opening
    /// that took no book, has the book. [`Book::adopt`] then doesn't refuse it for its tables (40, 41, 42), as its clause
    /// `not_refused` says.
    pub fn each_is_found_again()
        ensures { EachIsFoundAgain S.Store }
    {}
}
