//! The table `crew_base`: a row for each member, with the base that the member belongs to.
//! Wrong bodies: `must-fail-more/`.

ghost use Rattle.std.specs.Prelude.{⊤, [], ◌∷◌, map, IfErr, IfOk, IsTrue, ◌↔◌, ◌≡◌};
ghost use Rattle.sqlite_value.specs.declared.value.Value.TheVariants as value;
ghost use Rattle.sqlite.specs.Held.{state};
ghost use Rattle.tables.specs.Schema.{crew_base_table, IsTable};
ghost use Rattle.tables.specs.Rows.{Makes, Inserts, begins_with, IsTooBig};
ghost use Rattle.tables.specs.Records.{crew_base_row, IsCrewBaseRow};
ghost use Rattle.tables.specs.Calls.{HoldsTable, HoldsWhileOpen, Ran, RefusesHeld, CrashMayLeave, Read, Loaded, CrashLeavesNoMore, Faults, RefusesRow};
ghost use Rattle.tables.specs.declared.table_fault.TableFault.TheVariants as fault;

use crate::declared::is_there;
use crate::loading::load;
use crate::reading::{Record, column, has_width, read_all};
use crate::statement::run;
use crate::table_fault::TableFault;
use sqlite::{Alter, Connection, Row, params};
use std::alloc::Global;
use values::{MemoryFault, Text, TryClone};

/// The base that a member belongs to.
#[derive(Drop)]
pub struct CrewBaseRecord {
    /// The member's id.
    pub crew: Text,
    /// The base's id.
    pub base: Text,
}

impl TryClone for CrewBaseRecord {
    fn try_clone(&self, alloc: Global) -> Result<CrewBaseRecord, MemoryFault> {
        Ok(CrewBaseRecord {
            crew: self.crew.try_clone(alloc)?,
            base: self.base.try_clone(alloc)?,
        })
    }
}

impl Record for CrewBaseRecord {
    ghost row = { crew_base_row };

    ghost is_record = { IsCrewBaseRow };

    ghost is_refused = { λ _. ⊥ };

    fn read(from: &Row, first: usize) -> Result<CrewBaseRecord, TableFault> {
        if !has_width(from, first, 2) {
            return Err(TableFault::NotARecord);
        }
        Ok(CrewBaseRecord {
            crew: Text::new(column(from, first, 0)?),
            base: Text::new(column(from, first, 1)?),
        })
    }
}

const CREATE: &str =
    "CREATE TABLE crew_base (crew TEXT NOT NULL, base TEXT NOT NULL, PRIMARY KEY (crew)) STRICT";

/// Returns whether the table is there as `create_crew_base` declares it, in a tree of its own.
pub fn is_crew_base_there<S: Alter>(alloc: Global, conn: &Connection<S>) -> Result<bool, TableFault>
    ensures there { IfOk result
        (λ yes. IsTrue yes ↔ IsTable crew_base_table (state S.Store conn.now).now.schema) }
    ensures fault { IfErr result (λ e. e ≡ fault.Memory) }
{
    is_there(alloc, conn, CREATE)
}

/// Makes the table.
pub fn create_crew_base<S: Alter>(conn: &mut Connection<S>) -> Result<(), TableFault>
    ensures ran { Ran (Makes crew_base_table) (state S.Store conn.old)
        (state S.Store conn.new) result }
    ensures fault { Faults ⊥ ⊤ (state S.Store conn.old) (state S.Store conn.new) result }
    ensures crash { CrashMayLeave (Makes crew_base_table) (state S.Store conn.old)
        (state S.Store conn.new) }
{
    run(conn, CREATE, &[])
}

/// Adds a member's base.
pub fn insert_crew_base<S: Alter>(
    conn: &mut Connection<S>,
    crew_base: &CrewBaseRecord,
) -> Result<(), TableFault>
    requires { HoldsTable crew_base_table (state S.Store conn.old) }
    ensures ran { Ran (Inserts crew_base_table (crew_base_row crew_base.now))
        (state S.Store conn.old) (state S.Store conn.new) result }
    ensures held { RefusesHeld crew_base_table (crew_base_row crew_base.now)
        (state S.Store conn.old) (state S.Store conn.new) result }
    ensures fault { Faults
        (IsTooBig crew_base_table (crew_base_row crew_base.now) (state S.Store conn.old).now)
        (RefusesRow crew_base_table (crew_base_row crew_base.now) (state S.Store conn.old))
        (state S.Store conn.old) (state S.Store conn.new) result }
    ensures crash { CrashMayLeave (Inserts crew_base_table (crew_base_row crew_base.now))
        (state S.Store conn.old) (state S.Store conn.new) }
{
    run(
        conn,
        "INSERT INTO crew_base (crew, base) VALUES (?1, ?2)",
        params![crew_base.crew.as_str(), crew_base.base.as_str()],
    )
}

/// Reads all records of the table, in any order.
pub fn load_crew_bases<S: Alter>(
    alloc: Global,
    conn: &mut Connection<S>,
) -> Result<Vec<CrewBaseRecord>, TableFault>
    requires { HoldsTable crew_base_table (state S.Store conn.old) }
    ensures loaded { Loaded crew_base_table IsCrewBaseRow (λ found. map crew_base_row found.items)
        (state S.Store conn.old) (state S.Store conn.new) result }
    ensures crash { CrashLeavesNoMore (state S.Store conn.old) (state S.Store conn.new) }
{
    load(
        alloc,
        conn,
        "SELECT rowid, crew, base FROM crew_base ORDER BY rowid",
    )
}

/// Reads the base of the member with this id.
pub fn crew_base_by_crew<S: Alter>(
    alloc: Global,
    conn: &mut Connection<S>,
    crew: &str,
) -> Result<Vec<CrewBaseRecord>, TableFault>
    requires { HoldsWhileOpen crew_base_table (state S.Store conn.old) }
    ensures read { Read crew_base_table (begins_with (value.Text crew.now ∷ [])) IsCrewBaseRow
        (λ found. map crew_base_row found.items) (state S.Store conn.old)
        (state S.Store conn.new) result }
    ensures crash { CrashLeavesNoMore (state S.Store conn.old) (state S.Store conn.new) }
{
    read_all(
        alloc,
        conn,
        "SELECT crew, base FROM crew_base WHERE crew = ?1",
        params![crew],
    )
}
