//! What holds of every list of commands that a book does in turn. The function does nothing; its clause is a law.
//! The law of whole lives, `Book::each_life_holds`, says which lists are done.
ghost use Rattle.book.specs.Lists.{EachListHolds};

/// From whichever state commands are done in turn: an assignment among them is accepted if and only if it passes the book's
/// checks and breaks no limit, each command acts once, and a command that was held is held still, with its reply.
pub fn each_list_holds()
    ensures { EachListHolds }
{}
