//! What is committed: a book that is made, and a change, each in one transaction.
//! The rows that each command leaves: `tests/tables.py`. Wrong bodies: `must-fail/` and `must-fail-more/`.

ghost use Rattle.std.specs.Prelude.{◌≡◌, Err, IfErr, OnOk};
ghost use Rattle.sqlite.specs.Held.{state};
ghost use Rattle.roster.specs.State.{empty};
ghost use Rattle.writing.specs.Commits.{IsCommitted, AreTablesMade, IsNotMade};
ghost use Rattle.writing.specs.Making.{IsFree};
ghost use Rattle.state_rows.specs.Outcomes.{IsOutside, IsOverBook};

use crate::fault::CreateFault;
use crate::making::{is_free, make_tables};
use crate::records::{home_record, request_record};
use crate::transaction::end;
use crate::writing::write_change;
use roster::Change;
use sqlite::{Alter, Connection};
use state_rows::StoreFault;
use std::alloc::Global;
use tables::book::BookRecord;
use tables::transaction::begin;
use time117::Zone;
use values::Text;

/// Makes the tables, the row of the book, and that of its base, in one transaction, beside all that is there already. Nothing
/// is made beside a table with the name of one of them, or a foreign key that refers to one (43).
pub fn make_book<S: Alter>(
    alloc: Global,
    conn: &mut Connection<S>,
    zone: &Zone,
) -> Result<(), CreateFault>
    requires { IsOutside (state S.Store conn.old) }
    ensures made { OnOk result
        (AreTablesMade (state S.Store conn.old) (state S.Store conn.new) (empty zone.now)) }
    ensures not_made { IfErr result (IsNotMade S.Store conn.old conn.new (empty zone.now)) }
    ensures refused { (¬ IsFree (state S.Store conn.old).now.schema)
        → result ≡ Err CreateFault.NotEmpty }
    // what a store over it goes by
    ensures over { OnOk result (IsOverBook (state S.Store conn.new)) }
    ensures outside { IsOutside (state S.Store conn.new) }
{
    if !is_free(conn) {
        return Err(CreateFault::NotEmpty);
    }
    let book = BookRecord {
        one: 1,
        version: 2,
        zone: Text::new(String::from_str(alloc, zone.text())?),
    };
    let home = home_record(alloc, zone)?;
    // The clauses of these calls say that an open connection shows a database, and outside a transaction what is committed.
    let _live = conn.schema();
    let _settled = conn.is_autocommit();
    begin(conn)?;
    let done = make_tables(conn, &book, &home);
    Ok(end(conn, done)?)
}

/// Writes a change, in one transaction.
pub fn commit_change<S: Alter>(
    alloc: Global,
    conn: &mut Connection<S>,
    change: &Change,
) -> Result<(), StoreFault>
    requires outside { IsOutside (state S.Store conn.old) }
    requires over { IsOverBook (state S.Store conn.old) }
    ensures committed { IsCommitted (state S.Store conn.old)
        (state S.Store conn.new) change.now result }
    // what a store over it goes by
    ensures outside { IsOutside (state S.Store conn.new) }
    ensures over { IsOverBook (state S.Store conn.new) }
{
    let row = request_record(alloc, change.key, &change.command, &change.reply)?;
    // The clauses of these calls say that an open connection shows a database, and outside a transaction what is committed.
    let _live = conn.schema();
    let _settled = conn.is_autocommit();
    begin(conn)?;
    let done = write_change(alloc, conn, change, &row);
    end(conn, done)
}
