//! The end of a transaction.
//! Out of memory at each call: `tests/allocations.py`. Wrong bodies: `must-fail-more/`.

ghost use Rattle.std.specs.Prelude.{◌≡◌, ◌⊎◌, false, IfErr, IsErr, IsOk, IsTrue, Err, OnOk, OnErr};
ghost use Rattle.sqlite_disk.specs.Disk.{MoreFaults};
ghost use Rattle.sqlite.specs.State.{HasCleanDisk, IsLive, KeepsCommit, Survives};
ghost use Rattle.sqlite.specs.Held.{state};
ghost use Rattle.tables.specs.Calls.{Committed, CrashLeavesNoMore};
ghost use Rattle.state_rows.specs.Outcomes.{IsOutside};

use sqlite::{Alter, Connection};
use state_rows::StoreFault;
use tables::TableFault;
use tables::transaction::{commit, rollback};

/// Takes back what a transaction changed, if one is still begun: a statement that failed has undone it already. Only the store
/// is an error here (90), since a ROLLBACK that finds no memory undoes it all the same.
pub fn take_back<S: Alter>(conn: &mut Connection<S>) -> Result<(), StoreFault>
    // No transaction is begun afterwards, and what is shown is committed: the same as before.
    ensures outside { IsOutside (state S.Store conn.new) }
    ensures settled { HasCleanDisk (state S.Store conn.new)
        → IsTrue (state S.Store conn.new).is_open
        → (state S.Store conn.new).now ≡ (state S.Store conn.new).committed }
    ensures commit_stays { HasCleanDisk (state S.Store conn.new)
        → KeepsCommit (state S.Store conn.old) (state S.Store conn.new) }

    // The fault, and its cause.
    ensures store { IfErr result (λ fault. fault ≡ StoreFault.Store) }
    ensures cause { HasCleanDisk (state S.Store conn.new) → IsErr result
        → MoreFaults (state S.Store conn.old).faults (state S.Store conn.new).faults
        ⊎ ((state S.Store conn.old).is_open ≡ false) }

    // A crash meanwhile.
    ensures crash { CrashLeavesNoMore (state S.Store conn.old) (state S.Store conn.new) }
{
    if conn.is_autocommit() {
        return Ok(());
    }
    let undone = rollback(conn);
    // The clause of this call says that outside a transaction what is shown is committed.
    let _settled = conn.is_autocommit();
    match undone {
        Ok(()) | Err(TableFault::Memory) => Ok(()),
        Err(_) => Err(StoreFault::Store),
    }
}

/// Commits what was done in a transaction, or takes it back. Where the commit fails, it is committed or lost. The fault is 90
/// wherever a call was refused for another cause than memory, the ROLLBACK too.
pub(crate) fn end<S: Alter>(
    conn: &mut Connection<S>,
    done: Result<(), StoreFault>,
) -> Result<(), StoreFault>
    // What holds in any case: no transaction is begun afterwards, and what is shown is committed.
    ensures live { IsLive (state S.Store conn.old) }
    ensures outside { IsOutside (state S.Store conn.new) }
    ensures settled { HasCleanDisk (state S.Store conn.new)
        → IsTrue (state S.Store conn.new).is_open
        → (state S.Store conn.new).now ≡ (state S.Store conn.new).committed }

    // Done only where all before was: committed then, else as before.
    ensures whole { OnOk result (IsOk done) }
    ensures ok { HasCleanDisk (state S.Store conn.new)
        → OnOk result (Committed (state S.Store conn.old) (state S.Store conn.new)) }
    ensures commit_stays { HasCleanDisk (state S.Store conn.new)
        → OnErr result (KeepsCommit (state S.Store conn.old) (state S.Store conn.new)) }

    // The fault, and its cause.
    ensures store { done ≡ Err StoreFault.Store → result ≡ Err StoreFault.Store }
    ensures memory { result ≡ Err StoreFault.Memory → done ≡ Err StoreFault.Memory }
    ensures cause { HasCleanDisk (state S.Store conn.new) → done ≡ Err StoreFault.Memory
        → result ≡ Err StoreFault.Store → MoreFaults (state S.Store conn.old).faults
        (state S.Store conn.new).faults ⊎ ((state S.Store conn.old).is_open ≡ false) }

    // A crash meanwhile leaves what was done, or nothing of it.
    ensures crash { Survives (state S.Store conn.old) (state S.Store conn.new)
        (λ trees. IsOk done × (trees ≡ (state S.Store conn.old).now.trees)) }
{
    // The clause of this call says that an open connection shows a database.
    let _live = conn.schema();
    let fault = match done {
        Ok(()) => match commit(conn) {
            Ok(()) => return Ok(()),
            Err(_) => StoreFault::Store,
        },
        Err(fault) => fault,
    };
    take_back(conn)?;
    Err(fault)
}
