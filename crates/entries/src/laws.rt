//! What holds of every database, and of the rows of every state. Each of these functions does nothing; its clause is a
//! law.
ghost use Rattle.entries.specs.SameRows.{RowsSayAll, HoldsOneState, HoldsOneOfEither, IsOfOneEdition, IsSaidByFirst};

/// Sound states with the same rows are equal.
pub fn rows_say_all()
    ensures { RowsSayAll }
{}

/// One database holds the rows of one sound state at most.
pub fn database_holds_one_state()
    ensures { HoldsOneState }
{}

/// One database holds the rows of one sound state at most, whether in version 1 or in version 2.
pub fn database_holds_one_of_either()
    ensures { HoldsOneOfEither }
{}

/// No database is of version 1 and of version 2.
pub fn database_is_of_one_edition()
    ensures { IsOfOneEdition }
{}

/// Of a right book of version 1 the state is one that version 1 can say.
pub fn right_first_is_said()
    ensures { IsSaidByFirst }
{}
