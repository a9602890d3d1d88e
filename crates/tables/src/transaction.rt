//! Transactions as texts of their own, so that the functions on tables serve inside and outside one. Wrong bodies: `must-fail-more/`.

ghost use Rattle.std.specs.Prelude.{◌≡◌, false, IsTrue};
ghost use Rattle.sqlite.specs.State.{HasCleanDisk, Survives};
ghost use Rattle.sqlite.specs.Held.{state};
ghost use Rattle.tables.specs.Calls.{Begun, Committed, TakenBack, Faults, Gave, CrashLeavesNoMore};

use crate::statement::run;
use crate::table_fault::TableFault;
use sqlite::{Alter, Connection};

/// Begins a transaction; 90 where one is begun.
pub fn begin<S: Alter>(conn: &mut Connection<S>) -> Result<(), TableFault>
    ensures gave { Gave (Begun (state S.Store conn.old) (state S.Store conn.new))
        (state S.Store conn.old) (state S.Store conn.new) result }
    ensures fault { Faults ⊥ (IsTrue (state S.Store conn.old).in_transaction)
        (state S.Store conn.old) (state S.Store conn.new) result }
    ensures crash { CrashLeavesNoMore (state S.Store conn.old) (state S.Store conn.new) }
{
    run(conn, "BEGIN", &[])
}

/// Commits the transaction; 90 where none is begun. After another fault what it changed is lost, or committed.
pub fn commit<S: Alter>(conn: &mut Connection<S>) -> Result<(), TableFault>
    ensures gave { Gave (Committed (state S.Store conn.old) (state S.Store conn.new))
        (state S.Store conn.old) (state S.Store conn.new) result }
    ensures fault { Faults ⊥ ((state S.Store conn.old).in_transaction ≡ false)
        (state S.Store conn.old) (state S.Store conn.new) result }
    ensures crash { Survives (state S.Store conn.old) (state S.Store conn.new)
        (λ trees. trees ≡ (state S.Store conn.old).now.trees) }
{
    run(conn, "COMMIT", &[])
}

/// Takes back what the transaction changed; 90 where none is begun. After another fault it is undone too.
pub fn rollback<S: Alter>(conn: &mut Connection<S>) -> Result<(), TableFault>
    ensures gave { Gave (TakenBack (state S.Store conn.old) (state S.Store conn.new))
        (state S.Store conn.old) (state S.Store conn.new) result }
    ensures ended { HasCleanDisk (state S.Store conn.new)
        → (state S.Store conn.new).in_transaction ≡ false }
    ensures fault { Faults ⊥ ((state S.Store conn.old).in_transaction ≡ false)
        (state S.Store conn.old) (state S.Store conn.new) result }
    ensures crash { CrashLeavesNoMore (state S.Store conn.old) (state S.Store conn.new) }
{
    run(conn, "ROLLBACK", &[])
}
