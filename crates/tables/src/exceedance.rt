//! The table `exceedance`: a row for each exceedance.
//! Its rows, right and damaged: `tests/tables.py`. Wrong bodies: `must-fail-more/`.

ghost use Rattle.std.specs.Prelude.{⊤, [], map, IfErr, IfOk, IsTrue, ◌↔◌, ◌≡◌};
ghost use Rattle.sqlite.specs.Held.{state};
ghost use Rattle.tables.specs.Schema.{exceedance_table, IsTable};
ghost use Rattle.tables.specs.Rows.{Makes, Inserts, begins_with, FindsInOrder, HasNoRecord, IsTooBig};
ghost use Rattle.tables.specs.Records.{exceedance_row, IsExceedanceRow};
ghost use Rattle.tables.specs.Calls.{HoldsTable, Ran, RefusesHeld, CrashMayLeave, ReadAs, Loaded, CrashLeavesNoMore, Faults, RefusesRow, HasStepLimit};
ghost use Rattle.tables.specs.declared.table_fault.TableFault.TheVariants as fault;

use crate::declared::is_there;
use crate::loading::load;
use crate::reading::{Record, column, has_width, read_all};
use crate::statement::run;
use crate::table_fault::TableFault;
use sqlite::{Alter, Connection, Row, params};
use std::alloc::Global;
use values::{MemoryFault, Text, TryClone};

/// A limit that a flown period broke.
#[derive(Drop)]
pub struct ExceedanceRecord {
    /// With `part` the key of the actual.
    pub number: i64,
    /// The part of that key.
    pub part: u32,
    /// Whose limit it is.
    pub crew: Text,
    /// 1 to 8, in the order of the sections.
    pub section: u32,
    /// The id of the pairing in which it was.
    pub pairing: Text,
    /// The number of the period, from 1.
    pub period: u32,
}

impl TryClone for ExceedanceRecord {
    fn try_clone(&self, alloc: Global) -> Result<ExceedanceRecord, MemoryFault> {
        Ok(ExceedanceRecord {
            number: self.number,
            part: self.part,
            crew: self.crew.try_clone(alloc)?,
            section: self.section,
            pairing: self.pairing.try_clone(alloc)?,
            period: self.period,
        })
    }
}

impl Record for ExceedanceRecord {
    ghost row = { exceedance_row };

    ghost is_record = { IsExceedanceRow };

    ghost is_refused = { λ _. ⊥ };

    fn read(from: &Row, first: usize) -> Result<ExceedanceRecord, TableFault> {
        if !has_width(from, first, 6) {
            return Err(TableFault::NotARecord);
        }
        Ok(ExceedanceRecord {
            number: column(from, first, 0)?,
            part: column(from, first, 1)?,
            crew: Text::new(column(from, first, 2)?),
            section: column(from, first, 3)?,
            pairing: Text::new(column(from, first, 4)?),
            period: column(from, first, 5)?,
        })
    }
}

const CREATE: &str =
    "CREATE TABLE exceedance (number INTEGER NOT NULL, part INTEGER NOT NULL, crew TEXT NOT NULL, section INTEGER NOT NULL, pairing TEXT NOT NULL, period INTEGER NOT NULL, PRIMARY KEY (number, part, crew, section)) STRICT";

/// Returns whether the table is there as `create_exceedance` declares it, in a tree of its own.
pub fn is_exceedance_there<S: Alter>(
    alloc: Global,
    conn: &Connection<S>,
) -> Result<bool, TableFault>
    ensures there { IfOk result
        (λ yes. IsTrue yes ↔ IsTable exceedance_table (state S.Store conn.now).now.schema) }
    ensures fault { IfErr result (λ e. e ≡ fault.Memory) }
{
    is_there(alloc, conn, CREATE)
}

/// Makes the table.
pub fn create_exceedance<S: Alter>(conn: &mut Connection<S>) -> Result<(), TableFault>
    ensures ran { Ran (Makes exceedance_table) (state S.Store conn.old)
        (state S.Store conn.new) result }
    ensures fault { Faults ⊥ ⊤ (state S.Store conn.old) (state S.Store conn.new) result }
    ensures crash { CrashMayLeave (Makes exceedance_table) (state S.Store conn.old)
        (state S.Store conn.new) }
{
    run(conn, CREATE, &[])
}

/// Adds an exceedance.
pub fn insert_exceedance<S: Alter>(
    conn: &mut Connection<S>,
    exceedance: &ExceedanceRecord,
) -> Result<(), TableFault>
    requires { HoldsTable exceedance_table (state S.Store conn.old) }
    ensures ran { Ran (Inserts exceedance_table (exceedance_row exceedance.now))
        (state S.Store conn.old) (state S.Store conn.new) result }
    ensures held { RefusesHeld exceedance_table (exceedance_row exceedance.now)
        (state S.Store conn.old) (state S.Store conn.new) result }
    ensures fault { Faults
        (IsTooBig exceedance_table (exceedance_row exceedance.now) (state S.Store conn.old).now)
        (RefusesRow exceedance_table (exceedance_row exceedance.now) (state S.Store conn.old))
        (state S.Store conn.old) (state S.Store conn.new) result }
    ensures crash { CrashMayLeave (Inserts exceedance_table (exceedance_row exceedance.now))
        (state S.Store conn.old) (state S.Store conn.new) }
{
    run(
        conn,
        "INSERT INTO exceedance (number, part, crew, section, pairing, period) VALUES (?1, ?2, ?3, ?4, ?5, ?6)",
        params![
            &exceedance.number,
            exceedance.part,
            exceedance.crew.as_str(),
            exceedance.section,
            exceedance.pairing.as_str(),
            exceedance.period
        ],
    )
}

/// Reads all records of the table, in any order.
pub fn load_exceedances<S: Alter>(
    alloc: Global,
    conn: &mut Connection<S>,
) -> Result<Vec<ExceedanceRecord>, TableFault>
    requires { HoldsTable exceedance_table (state S.Store conn.old) }
    ensures loaded { Loaded exceedance_table IsExceedanceRow
        (λ found. map exceedance_row found.items) (state S.Store conn.old)
        (state S.Store conn.new) result }
    ensures crash { CrashLeavesNoMore (state S.Store conn.old) (state S.Store conn.new) }
{
    load(
        alloc,
        conn,
        "SELECT rowid, number, part, crew, section, pairing, period FROM exceedance ORDER BY rowid",
    )
}

/// Reads all exceedances, in the order of number, part, member and section.
pub fn exceedances<S: Alter>(
    alloc: Global,
    conn: &mut Connection<S>,
) -> Result<Vec<ExceedanceRecord>, TableFault>
    requires { HoldsTable exceedance_table (state S.Store conn.old) }
    ensures read { ReadAs
        (λ db found. FindsInOrder 4 exceedance_table db (map exceedance_row found.items))
        (HasNoRecord exceedance_table (begins_with []) IsExceedanceRow)
        (HasStepLimit (state S.Store conn.old)) (state S.Store conn.old)
        (state S.Store conn.new) result }
    ensures crash { CrashLeavesNoMore (state S.Store conn.old) (state S.Store conn.new) }
{
    read_all(
        alloc,
        conn,
        "SELECT number, part, crew, section, pairing, period FROM exceedance ORDER BY number, part, crew, section",
        &[],
    )
}
