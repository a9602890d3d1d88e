//! What holds of the refusals of every database. Each of these functions does nothing; its clause is a law.
ghost use Rattle.loading.specs.Refusals.{IsNotRefused, IsOneRefusal};

/// Of one database at most one of the refusals 40, 41 and 42 is true, and 41 of one table.
pub fn one_refusal_is_true()
    ensures { IsOneRefusal }
{}

/// Of a database in which each table is right none of them is true.
pub fn right_is_not_refused()
    ensures { IsNotRefused }
{}
