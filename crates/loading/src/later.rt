//! The tables that version 2 added: in a file of version 1 their names are free, in one of version 2 they are read.
//! Files with such a damage: `tests/tables.py`. Wrong bodies: `must-fail-more/`.

ghost use Rattle.std.specs.Prelude.{IsTrue, MatchResult};
ghost use Rattle.sqlite.specs.Held.{state};
ghost use Rattle.sqlite.specs.State.{HasCleanDisk};
ghost use Rattle.tables.specs.Schema.{AreFree, later_tables};
ghost use Rattle.loading.specs.Loading.{Justifies};
ghost use Rattle.loading.specs.Reading.{AgreesIn, BlamesName, HasNoLater, ReadsAs};
ghost use Rattle.state_rows.specs.Requests.{Requests, with_requests};
ghost use Rattle.state_rows.specs.Rows.{request, outside_segment};
ghost use Rattle.state_rows.specs.declared.edition.Edition.TheVariants.{Second};

use crate::read_base::read_base;
use crate::read_crew_base::read_crew_base;
use crate::read_outside::read_outside;
use crate::read_outside_segment::read_outside_segment;
use entries::{LoadFault, TableName};
use roster::Roster;
use sqlite::{Alter, Connection};
use state_rows::Edition;
use std::alloc::Global;
use tables::book_schema::is_name_free;

/// Looks whether the names of the tables that version 2 added are free, in turn.
fn check_names<S: Alter>(conn: &Connection<S>) -> Result<(), LoadFault>
    ensures { MatchResult result
        (λ _. AreFree later_tables (state S.Store conn.now).now.schema)
        (BlamesName (state S.Store conn.now).now.schema) }
{
    if !is_name_free(conn, "base") {
        return Err(LoadFault::Damaged(TableName::Base));
    }
    if !is_name_free(conn, "crew_base") {
        return Err(LoadFault::Damaged(TableName::CrewBase));
    }
    if !is_name_free(conn, "outside") {
        return Err(LoadFault::Damaged(TableName::Outside));
    }
    if !is_name_free(conn, "outside_segment") {
        return Err(LoadFault::Damaged(TableName::OutsideSegment));
    }
    Ok(())
}

/// Reads the tables that version 2 added, into a roster that was read of the others.
fn read_later_tables<S: Alter>(
    alloc: Global,
    conn: &mut Connection<S>,
    roster: Roster,
) -> Result<Roster, LoadFault>
    requires first { HasNoLater roster }
    requires above { (kept : Requests) × (HasCleanDisk (state S.Store conn.old)
        → AgreesIn Second request (with_requests kept roster) (state S.Store conn.old).now) }
    ensures { (kept : Requests) × ReadsAs (λ r. AgreesIn Second outside_segment
        (with_requests kept r) (state S.Store conn.old).now)
        (λ fault. Justifies fault (state S.Store conn.old).now) (state S.Store conn.old)
        (state S.Store conn.new) result }
{
    let roster = read_base(alloc, conn, roster)?;
    let roster = read_crew_base(alloc, conn, roster)?;
    let outsides = read_outside(alloc, conn, &roster)?;
    read_outside_segment(alloc, conn, roster, &outsides)
}

/// Looks at the tables that version 2 added, and reads them into a roster that was read of the others.
pub(crate) fn read_later<S: Alter>(
    alloc: Global,
    conn: &mut Connection<S>,
    roster: Roster,
    edition: Edition,
) -> Result<Roster, LoadFault>
    requires opened { HasCleanDisk (state S.Store conn.old)
        → IsTrue (state S.Store conn.old).is_open }
    requires first { HasNoLater roster }
    requires above { (kept : Requests) × (HasCleanDisk (state S.Store conn.old)
        → AgreesIn edition request (with_requests kept roster) (state S.Store conn.old).now) }
    ensures { (kept : Requests) × ReadsAs (λ r. AgreesIn edition outside_segment
        (with_requests kept r) (state S.Store conn.old).now)
        (λ fault. Justifies fault (state S.Store conn.old).now) (state S.Store conn.old)
        (state S.Store conn.new) result }
{
    match edition {
        Edition::First => {
            check_names(conn)?;
            Ok(roster)
        }
        Edition::Second => read_later_tables(alloc, conn, roster),
    }
}
