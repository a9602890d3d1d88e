//! The table `outside_segment`: a row for each segment of an outside period.
//! Wrong bodies: `must-fail-more/`.

ghost use Rattle.std.specs.Prelude.{⊤, [], ◌∷◌, map, IfErr, IfOk, IsTrue, ◌↔◌, ◌≡◌};
ghost use Rattle.sqlite_value.specs.declared.value.Value.TheVariants as value;
ghost use Rattle.sqlite.specs.Held.{state};
ghost use Rattle.tables.specs.Schema.{outside_segment_table, IsTable};
ghost use Rattle.tables.specs.Rows.{Makes, Inserts, Deletes, begins_with, IsTooBig};
ghost use Rattle.tables.specs.Records.{outside_segment_row, IsOutsideSegmentRow};
ghost use Rattle.tables.specs.Calls.{HoldsTable, HoldsWhileOpen, HoldsUnreferenced, Ran, RefusesHeld, CrashMayLeave, Read, Loaded, CrashLeavesNoMore, Faults, HasStepLimit, RefusesRow};
ghost use Rattle.tables.specs.declared.table_fault.TableFault.TheVariants as fault;

use crate::declared::is_there;
use crate::loading::load;
use crate::reading::{Record, column, has_width, read_all};
use crate::statement::run;
use crate::table_fault::TableFault;
use sqlite::{Alter, Connection, Row, params};
use std::alloc::Global;
use values::{MemoryFault, Text, TryClone};

/// A flight segment of an outside period. Times are minutes since 2000-01-01T00:00Z.
#[derive(Drop)]
pub struct OutsideSegmentRecord {
    /// The id of its outside period.
    pub outside: Text,
    /// Counted from 1 in its outside period.
    pub number: u32,
    /// Block-out.
    pub out_at: u32,
    /// Block-in.
    pub in_at: u32,
}

impl TryClone for OutsideSegmentRecord {
    fn try_clone(&self, alloc: Global) -> Result<OutsideSegmentRecord, MemoryFault> {
        Ok(OutsideSegmentRecord {
            outside: self.outside.try_clone(alloc)?,
            number: self.number,
            out_at: self.out_at,
            in_at: self.in_at,
        })
    }
}

impl Record for OutsideSegmentRecord {
    ghost row = { outside_segment_row };

    ghost is_record = { IsOutsideSegmentRow };

    ghost is_refused = { λ _. ⊥ };

    fn read(from: &Row, first: usize) -> Result<OutsideSegmentRecord, TableFault> {
        if !has_width(from, first, 4) {
            return Err(TableFault::NotARecord);
        }
        Ok(OutsideSegmentRecord {
            outside: Text::new(column(from, first, 0)?),
            number: column(from, first, 1)?,
            out_at: column(from, first, 2)?,
            in_at: column(from, first, 3)?,
        })
    }
}

const CREATE: &str =
    "CREATE TABLE outside_segment (outside TEXT NOT NULL, number INTEGER NOT NULL, out_at INTEGER NOT NULL, in_at INTEGER NOT NULL, PRIMARY KEY (outside, number)) STRICT";

/// Returns whether the table is there as `create_outside_segment` declares it, in a tree of its own.
pub fn is_outside_segment_there<S: Alter>(
    alloc: Global,
    conn: &Connection<S>,
) -> Result<bool, TableFault>
    ensures there { IfOk result
        (λ yes. IsTrue yes ↔ IsTable outside_segment_table (state S.Store conn.now).now.schema) }
    ensures fault { IfErr result (λ e. e ≡ fault.Memory) }
{
    is_there(alloc, conn, CREATE)
}

/// Makes the table.
pub fn create_outside_segment<S: Alter>(conn: &mut Connection<S>) -> Result<(), TableFault>
    ensures ran { Ran (Makes outside_segment_table) (state S.Store conn.old)
        (state S.Store conn.new) result }
    ensures fault { Faults ⊥ ⊤ (state S.Store conn.old) (state S.Store conn.new) result }
    ensures crash { CrashMayLeave (Makes outside_segment_table) (state S.Store conn.old)
        (state S.Store conn.new) }
{
    run(conn, CREATE, &[])
}

/// Adds a segment of an outside period.
pub fn insert_outside_segment<S: Alter>(
    conn: &mut Connection<S>,
    segment: &OutsideSegmentRecord,
) -> Result<(), TableFault>
    requires { HoldsTable outside_segment_table (state S.Store conn.old) }
    ensures ran { Ran (Inserts outside_segment_table (outside_segment_row segment.now))
        (state S.Store conn.old) (state S.Store conn.new) result }
    ensures held { RefusesHeld outside_segment_table (outside_segment_row segment.now)
        (state S.Store conn.old) (state S.Store conn.new) result }
    ensures fault { Faults
        (IsTooBig outside_segment_table (outside_segment_row segment.now)
        (state S.Store conn.old).now)
        (RefusesRow outside_segment_table (outside_segment_row segment.now)
        (state S.Store conn.old))
        (state S.Store conn.old) (state S.Store conn.new) result }
    ensures crash { CrashMayLeave (Inserts outside_segment_table (outside_segment_row segment.now))
        (state S.Store conn.old) (state S.Store conn.new) }
{
    run(
        conn,
        "INSERT INTO outside_segment (outside, number, out_at, in_at) VALUES (?1, ?2, ?3, ?4)",
        params![
            segment.outside.as_str(),
            segment.number,
            segment.out_at,
            segment.in_at
        ],
    )
}

/// Reads all records of the table, in any order.
pub fn load_outside_segments<S: Alter>(
    alloc: Global,
    conn: &mut Connection<S>,
) -> Result<Vec<OutsideSegmentRecord>, TableFault>
    requires { HoldsTable outside_segment_table (state S.Store conn.old) }
    ensures loaded { Loaded outside_segment_table IsOutsideSegmentRow
        (λ found. map outside_segment_row found.items) (state S.Store conn.old)
        (state S.Store conn.new) result }
    ensures crash { CrashLeavesNoMore (state S.Store conn.old) (state S.Store conn.new) }
{
    load(
        alloc,
        conn,
        "SELECT rowid, outside, number, out_at, in_at FROM outside_segment ORDER BY rowid",
    )
}

/// Reads the segments of an outside period, in any order.
pub fn outside_segments_of<S: Alter>(
    alloc: Global,
    conn: &mut Connection<S>,
    outside: &str,
) -> Result<Vec<OutsideSegmentRecord>, TableFault>
    requires { HoldsWhileOpen outside_segment_table (state S.Store conn.old) }
    ensures read { Read outside_segment_table (begins_with (value.Text outside.now ∷ []))
        IsOutsideSegmentRow (λ found. map outside_segment_row found.items)
        (state S.Store conn.old) (state S.Store conn.new) result }
    ensures crash { CrashLeavesNoMore (state S.Store conn.old) (state S.Store conn.new) }
{
    read_all(
        alloc,
        conn,
        "SELECT outside, number, out_at, in_at FROM outside_segment WHERE outside = ?1",
        params![outside],
    )
}

/// Removes the segments of an outside period.
pub fn delete_outside_segments<S: Alter>(
    conn: &mut Connection<S>,
    outside: &str,
) -> Result<(), TableFault>
    requires there { HoldsTable outside_segment_table (state S.Store conn.old) }
    requires free { HoldsUnreferenced outside_segment_table (state S.Store conn.old) }
    ensures ran { Ran (Deletes outside_segment_table (begins_with (value.Text outside.now ∷ [])))
        (state S.Store conn.old) (state S.Store conn.new) result }
    ensures fault { Faults ⊥ (HasStepLimit (state S.Store conn.old)) (state S.Store conn.old)
        (state S.Store conn.new) result }
    ensures crash { CrashMayLeave
        (Deletes outside_segment_table (begins_with (value.Text outside.now ∷ [])))
        (state S.Store conn.old) (state S.Store conn.new) }
{
    run(
        conn,
        "DELETE FROM outside_segment WHERE outside = ?1",
        params![outside],
    )
}
