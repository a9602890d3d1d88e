//! The one call by which the functions of the tables change rows: a single statement. Wrong bodies: `must-fail-more/`.
ghost use Rattle.sqlite.specs.Values.{bound};
ghost use Rattle.sqlite.specs.State.{HasCleanDisk, IsLive, Survives, CommitsBy};
ghost use Rattle.sqlite.specs.Held.{state};
ghost use Rattle.tables.specs.Texts.{RunsStatement};

use crate::table_fault::TableFault;
use sqlite::{Alter, Connection};
use sqlite_value::value::ValueRef;

/// Runs one statement that changes a table.
pub(crate) fn run<S: Alter>(
    conn: &mut Connection<S>,
    sql: &str,
    params: &[ValueRef<'_>],
) -> Result<(), TableFault>
    ensures runs { HasCleanDisk (state S.Store conn.new) → RunsStatement sql.now (bound params.now)
        (state S.Store conn.old) (state S.Store conn.new) result }
    ensures live { IsLive (state S.Store conn.old) }
    ensures survives { Survives (state S.Store conn.old) (state S.Store conn.new)
        (CommitsBy sql.now (bound params.now) (state S.Store conn.old)) }
{
    // The clause of this call says that an open connection shows a database.
    let _live = conn.schema();
    conn.execute(sql, params)?;
    Ok(())
}
