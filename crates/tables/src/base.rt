//! The table `base`: a row for each base.
//! Wrong bodies: `must-fail-more/`.

ghost use Rattle.std.specs.Prelude.{⊤, [], map, IfErr, IfOk, IsTrue, ◌↔◌, ◌≡◌};
ghost use Rattle.sqlite.specs.Held.{state};
ghost use Rattle.tables.specs.Schema.{base_table, IsTable};
ghost use Rattle.tables.specs.Rows.{Makes, Inserts, begins_with, IsTooBig};
ghost use Rattle.tables.specs.Records.{base_row, IsBaseRow};
ghost use Rattle.tables.specs.Calls.{HoldsTable, HoldsWhileOpen, Ran, RefusesHeld, CrashMayLeave, Read, Loaded, CrashLeavesNoMore, Faults, RefusesRow};
ghost use Rattle.tables.specs.declared.table_fault.TableFault.TheVariants as fault;

use crate::declared::is_there;
use crate::loading::load;
use crate::reading::{Record, column, has_width, read_all};
use crate::statement::run;
use crate::table_fault::TableFault;
use sqlite::{Alter, Connection, Row, params};
use std::alloc::Global;
use values::{MemoryFault, Text, TryClone};

/// A base, at which members live.
#[derive(Drop)]
pub struct BaseRecord {
    /// The base's id.
    pub id: Text,
    /// The rule text of its zone.
    pub zone: Text,
}

impl TryClone for BaseRecord {
    fn try_clone(&self, alloc: Global) -> Result<BaseRecord, MemoryFault> {
        Ok(BaseRecord {
            id: self.id.try_clone(alloc)?,
            zone: self.zone.try_clone(alloc)?,
        })
    }
}

impl Record for BaseRecord {
    ghost row = { base_row };

    ghost is_record = { IsBaseRow };

    ghost is_refused = { λ _. ⊥ };

    fn read(from: &Row, first: usize) -> Result<BaseRecord, TableFault> {
        if !has_width(from, first, 2) {
            return Err(TableFault::NotARecord);
        }
        Ok(BaseRecord {
            id: Text::new(column(from, first, 0)?),
            zone: Text::new(column(from, first, 1)?),
        })
    }
}

const CREATE: &str =
    "CREATE TABLE base (id TEXT NOT NULL, zone TEXT NOT NULL, PRIMARY KEY (id)) STRICT";

/// Returns whether the table is there as `create_base` declares it, in a tree of its own.
pub fn is_base_there<S: Alter>(alloc: Global, conn: &Connection<S>) -> Result<bool, TableFault>
    ensures there { IfOk result
        (λ yes. IsTrue yes ↔ IsTable base_table (state S.Store conn.now).now.schema) }
    ensures fault { IfErr result (λ e. e ≡ fault.Memory) }
{
    is_there(alloc, conn, CREATE)
}

/// Makes the table.
pub fn create_base<S: Alter>(conn: &mut Connection<S>) -> Result<(), TableFault>
    ensures ran { Ran (Makes base_table) (state S.Store conn.old)
        (state S.Store conn.new) result }
    ensures fault { Faults ⊥ ⊤ (state S.Store conn.old) (state S.Store conn.new) result }
    ensures crash { CrashMayLeave (Makes base_table) (state S.Store conn.old)
        (state S.Store conn.new) }
{
    run(conn, CREATE, &[])
}

/// Adds a base.
pub fn insert_base<S: Alter>(conn: &mut Connection<S>, base: &BaseRecord) -> Result<(), TableFault>
    requires { HoldsTable base_table (state S.Store conn.old) }
    ensures ran { Ran (Inserts base_table (base_row base.now)) (state S.Store conn.old)
        (state S.Store conn.new) result }
    ensures held { RefusesHeld base_table (base_row base.now) (state S.Store conn.old)
        (state S.Store conn.new) result }
    ensures fault { Faults
        (IsTooBig base_table (base_row base.now) (state S.Store conn.old).now)
        (RefusesRow base_table (base_row base.now) (state S.Store conn.old))
        (state S.Store conn.old) (state S.Store conn.new) result }
    ensures crash { CrashMayLeave (Inserts base_table (base_row base.now))
        (state S.Store conn.old) (state S.Store conn.new) }
{
    run(
        conn,
        "INSERT INTO base (id, zone) VALUES (?1, ?2)",
        params![base.id.as_str(), base.zone.as_str()],
    )
}

/// Reads all records of the table, in any order.
pub fn load_bases<S: Alter>(
    alloc: Global,
    conn: &mut Connection<S>,
) -> Result<Vec<BaseRecord>, TableFault>
    requires { HoldsTable base_table (state S.Store conn.old) }
    ensures loaded { Loaded base_table IsBaseRow (λ found. map base_row found.items)
        (state S.Store conn.old) (state S.Store conn.new) result }
    ensures crash { CrashLeavesNoMore (state S.Store conn.old) (state S.Store conn.new) }
{
    load(
        alloc,
        conn,
        "SELECT rowid, id, zone FROM base ORDER BY rowid",
    )
}

/// Reads all bases, in any order.
pub fn bases<S: Alter>(
    alloc: Global,
    conn: &mut Connection<S>,
) -> Result<Vec<BaseRecord>, TableFault>
    requires { HoldsWhileOpen base_table (state S.Store conn.old) }
    ensures read { Read base_table (begins_with []) IsBaseRow
        (λ found. map base_row found.items) (state S.Store conn.old)
        (state S.Store conn.new) result }
    ensures crash { CrashLeavesNoMore (state S.Store conn.old) (state S.Store conn.new) }
{
    read_all(alloc, conn, "SELECT id, zone FROM base", &[])
}
