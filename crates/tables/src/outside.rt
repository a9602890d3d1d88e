//! The table `outside`: a row for each outside period.
//! Wrong bodies: `must-fail-more/`.

ghost use Rattle.std.specs.Prelude.{⊤, [], ◌∷◌, map, IfErr, IfOk, IsTrue, ◌↔◌, ◌≡◌};
ghost use Rattle.sqlite_value.specs.declared.value.Value.TheVariants as value;
ghost use Rattle.sqlite.specs.Held.{state};
ghost use Rattle.tables.specs.Schema.{outside_table, IsTable};
ghost use Rattle.tables.specs.Rows.{Makes, Inserts, Deletes, begins_with, equals_at, IsTooBig};
ghost use Rattle.tables.specs.Records.{outside_row, IsOutsideRow};
ghost use Rattle.tables.specs.Calls.{HoldsTable, HoldsWhileOpen, HoldsUnreferenced, Ran, RefusesHeld, CrashMayLeave, Read, Loaded, CrashLeavesNoMore, Faults, HasStepLimit, RefusesRow};
ghost use Rattle.tables.specs.declared.table_fault.TableFault.TheVariants as fault;

use crate::declared::is_there;
use crate::loading::load;
use crate::reading::{Record, column, has_width, read_all};
use crate::statement::run;
use crate::table_fault::TableFault;
use sqlite::{Alter, Connection, Row, params};
use std::alloc::Global;
use values::{MemoryFault, Text, TryClone};

/// A period that a member flew for another certificate holder. Times are minutes since 2000-01-01T00:00Z.
#[derive(Drop)]
pub struct OutsideRecord {
    /// The outside period's id.
    pub id: Text,
    /// Who flew it.
    pub crew: Text,
    /// Its report.
    pub report_at: u32,
    /// Its release.
    pub release_at: u32,
}

impl TryClone for OutsideRecord {
    fn try_clone(&self, alloc: Global) -> Result<OutsideRecord, MemoryFault> {
        Ok(OutsideRecord {
            id: self.id.try_clone(alloc)?,
            crew: self.crew.try_clone(alloc)?,
            report_at: self.report_at,
            release_at: self.release_at,
        })
    }
}

impl Record for OutsideRecord {
    ghost row = { outside_row };

    ghost is_record = { IsOutsideRow };

    ghost is_refused = { λ _. ⊥ };

    fn read(from: &Row, first: usize) -> Result<OutsideRecord, TableFault> {
        if !has_width(from, first, 4) {
            return Err(TableFault::NotARecord);
        }
        Ok(OutsideRecord {
            id: Text::new(column(from, first, 0)?),
            crew: Text::new(column(from, first, 1)?),
            report_at: column(from, first, 2)?,
            release_at: column(from, first, 3)?,
        })
    }
}

const CREATE: &str =
    "CREATE TABLE outside (id TEXT NOT NULL, crew TEXT NOT NULL, report_at INTEGER NOT NULL, release_at INTEGER NOT NULL, PRIMARY KEY (id), UNIQUE (crew, id)) STRICT";

/// Returns whether the table is there as `create_outside` declares it, in a tree of its own.
pub fn is_outside_there<S: Alter>(alloc: Global, conn: &Connection<S>) -> Result<bool, TableFault>
    ensures there { IfOk result
        (λ yes. IsTrue yes ↔ IsTable outside_table (state S.Store conn.now).now.schema) }
    ensures fault { IfErr result (λ e. e ≡ fault.Memory) }
{
    is_there(alloc, conn, CREATE)
}

/// Makes the table.
pub fn create_outside<S: Alter>(conn: &mut Connection<S>) -> Result<(), TableFault>
    ensures ran { Ran (Makes outside_table) (state S.Store conn.old)
        (state S.Store conn.new) result }
    ensures fault { Faults ⊥ ⊤ (state S.Store conn.old) (state S.Store conn.new) result }
    ensures crash { CrashMayLeave (Makes outside_table) (state S.Store conn.old)
        (state S.Store conn.new) }
{
    run(conn, CREATE, &[])
}

/// Adds an outside period.
pub fn insert_outside<S: Alter>(
    conn: &mut Connection<S>,
    outside: &OutsideRecord,
) -> Result<(), TableFault>
    requires { HoldsTable outside_table (state S.Store conn.old) }
    ensures ran { Ran (Inserts outside_table (outside_row outside.now)) (state S.Store conn.old)
        (state S.Store conn.new) result }
    ensures held { RefusesHeld outside_table (outside_row outside.now) (state S.Store conn.old)
        (state S.Store conn.new) result }
    ensures fault { Faults
        (IsTooBig outside_table (outside_row outside.now) (state S.Store conn.old).now)
        (RefusesRow outside_table (outside_row outside.now) (state S.Store conn.old))
        (state S.Store conn.old) (state S.Store conn.new) result }
    ensures crash { CrashMayLeave (Inserts outside_table (outside_row outside.now))
        (state S.Store conn.old) (state S.Store conn.new) }
{
    run(
        conn,
        "INSERT INTO outside (id, crew, report_at, release_at) VALUES (?1, ?2, ?3, ?4)",
        params![
            outside.id.as_str(),
            outside.crew.as_str(),
            outside.report_at,
            outside.release_at
        ],
    )
}

/// Reads all records of the table, in any order.
pub fn load_outsides<S: Alter>(
    alloc: Global,
    conn: &mut Connection<S>,
) -> Result<Vec<OutsideRecord>, TableFault>
    requires { HoldsTable outside_table (state S.Store conn.old) }
    ensures loaded { Loaded outside_table IsOutsideRow (λ found. map outside_row found.items)
        (state S.Store conn.old) (state S.Store conn.new) result }
    ensures crash { CrashLeavesNoMore (state S.Store conn.old) (state S.Store conn.new) }
{
    load(
        alloc,
        conn,
        "SELECT rowid, id, crew, report_at, release_at FROM outside ORDER BY rowid",
    )
}

/// Reads the outside period with this id.
pub fn outside_by_id<S: Alter>(
    alloc: Global,
    conn: &mut Connection<S>,
    id: &str,
) -> Result<Vec<OutsideRecord>, TableFault>
    requires { HoldsWhileOpen outside_table (state S.Store conn.old) }
    ensures read { Read outside_table (begins_with (value.Text id.now ∷ [])) IsOutsideRow
        (λ found. map outside_row found.items) (state S.Store conn.old)
        (state S.Store conn.new) result }
    ensures crash { CrashLeavesNoMore (state S.Store conn.old) (state S.Store conn.new) }
{
    read_all(
        alloc,
        conn,
        "SELECT id, crew, report_at, release_at FROM outside WHERE id = ?1",
        params![id],
    )
}

/// Reads the outside periods of a member, in any order.
pub fn outsides_by_crew<S: Alter>(
    alloc: Global,
    conn: &mut Connection<S>,
    crew: &str,
) -> Result<Vec<OutsideRecord>, TableFault>
    requires { HoldsWhileOpen outside_table (state S.Store conn.old) }
    ensures read { Read outside_table (equals_at 1 (value.Text crew.now)) IsOutsideRow
        (λ found. map outside_row found.items) (state S.Store conn.old)
        (state S.Store conn.new) result }
    ensures crash { CrashLeavesNoMore (state S.Store conn.old) (state S.Store conn.new) }
{
    read_all(
        alloc,
        conn,
        "SELECT id, crew, report_at, release_at FROM outside WHERE crew = ?1",
        params![crew],
    )
}

/// Removes the outside period with this id.
pub fn delete_outside<S: Alter>(conn: &mut Connection<S>, id: &str) -> Result<(), TableFault>
    requires there { HoldsTable outside_table (state S.Store conn.old) }
    requires free { HoldsUnreferenced outside_table (state S.Store conn.old) }
    ensures ran { Ran (Deletes outside_table (begins_with (value.Text id.now ∷ [])))
        (state S.Store conn.old) (state S.Store conn.new) result }
    ensures fault { Faults ⊥ (HasStepLimit (state S.Store conn.old)) (state S.Store conn.old)
        (state S.Store conn.new) result }
    ensures crash { CrashMayLeave (Deletes outside_table (begins_with (value.Text id.now ∷ [])))
        (state S.Store conn.old) (state S.Store conn.new) }
{
    run(conn, "DELETE FROM outside WHERE id = ?1", params![id])
}
