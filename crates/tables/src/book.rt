//! The table `book`: the one row that says what the file is.
//! Its rows, right and damaged: `tests/tables.py`. Wrong bodies: `must-fail-more/`.

ghost use Rattle.std.specs.Prelude.{⊤, [], ◌∷◌, map, pos, IfErr, IfOk, IsTrue, ◌↔◌, ◌≡◌};
ghost use Rattle.sqlite_value.specs.declared.value.Value.TheVariants as value;
ghost use Rattle.sqlite.specs.Held.{state};
ghost use Rattle.tables.specs.Schema.{book_table, IsTable};
ghost use Rattle.tables.specs.Rows.{Makes, Inserts, Updates, begins_with, IsTooBig, BecomesTooBig};
ghost use Rattle.tables.specs.Records.{book_row, IsBookRow, with_version};
ghost use Rattle.tables.specs.Calls.{HoldsTable, HoldsWhileOpen, HoldsUnreferenced, Ran, RefusesHeld, CrashMayLeave, Read, Loaded, CrashLeavesNoMore, Faults, RefusesRow};
ghost use Rattle.tables.specs.declared.table_fault.TableFault.TheVariants as fault;

use crate::declared::is_there;
use crate::loading::load;
use crate::reading::{Record, column, has_width, read_all};
use crate::statement::run;
use crate::table_fault::TableFault;
use sqlite::{Alter, Connection, Row, params};
use std::alloc::Global;
use values::{MemoryFault, Text, TryClone};

/// What the file is: the one row of the table `book`.
#[derive(Drop)]
pub struct BookRecord {
    /// Always 1.
    pub one: i64,
    /// The version of the tables: 1 or 2.
    pub version: i64,
    /// The rule text of the zone of the base `HOME`.
    pub zone: Text,
}

impl TryClone for BookRecord {
    fn try_clone(&self, alloc: Global) -> Result<BookRecord, MemoryFault> {
        Ok(BookRecord {
            one: self.one,
            version: self.version,
            zone: self.zone.try_clone(alloc)?,
        })
    }
}

impl Record for BookRecord {
    ghost row = { book_row };

    ghost is_record = { IsBookRow };

    ghost is_refused = { λ _. ⊥ };

    fn read(from: &Row, first: usize) -> Result<BookRecord, TableFault> {
        if !has_width(from, first, 3) {
            return Err(TableFault::NotARecord);
        }
        Ok(BookRecord {
            one: column(from, first, 0)?,
            version: column(from, first, 1)?,
            zone: Text::new(column(from, first, 2)?),
        })
    }
}

const CREATE: &str =
    "CREATE TABLE book (one INTEGER NOT NULL UNIQUE, version INTEGER NOT NULL, zone TEXT NOT NULL) STRICT";

/// Returns whether the table is there as `create_book` declares it, in a tree of its own.
pub fn is_book_there<S: Alter>(alloc: Global, conn: &Connection<S>) -> Result<bool, TableFault>
    ensures there { IfOk result
        (λ yes. IsTrue yes ↔ IsTable book_table (state S.Store conn.now).now.schema) }
    ensures fault { IfErr result (λ e. e ≡ fault.Memory) }
{
    is_there(alloc, conn, CREATE)
}

/// Makes the table.
pub fn create_book<S: Alter>(conn: &mut Connection<S>) -> Result<(), TableFault>
    ensures ran { Ran (Makes book_table) (state S.Store conn.old) (state S.Store conn.new) result }
    ensures fault { Faults ⊥ ⊤ (state S.Store conn.old) (state S.Store conn.new) result }
    ensures crash { CrashMayLeave (Makes book_table) (state S.Store conn.old)
        (state S.Store conn.new) }
{
    run(conn, CREATE, &[])
}

/// Adds the row of the book.
pub fn insert_book<S: Alter>(conn: &mut Connection<S>, book: &BookRecord) -> Result<(), TableFault>
    requires { HoldsTable book_table (state S.Store conn.old) }
    ensures ran { Ran (Inserts book_table (book_row book.now)) (state S.Store conn.old)
        (state S.Store conn.new) result }
    ensures held { RefusesHeld book_table (book_row book.now) (state S.Store conn.old)
        (state S.Store conn.new) result }
    ensures fault { Faults (IsTooBig book_table (book_row book.now) (state S.Store conn.old).now)
        (RefusesRow book_table (book_row book.now) (state S.Store conn.old))
        (state S.Store conn.old) (state S.Store conn.new) result }
    ensures crash { CrashMayLeave (Inserts book_table (book_row book.now)) (state S.Store conn.old)
        (state S.Store conn.new) }
{
    run(
        conn,
        "INSERT INTO book (one, version, zone) VALUES (?1, ?2, ?3)",
        params![&book.one, &book.version, book.zone.as_str()],
    )
}

/// Reads all records of the table, in any order.
pub fn load_book<S: Alter>(
    alloc: Global,
    conn: &mut Connection<S>,
) -> Result<Vec<BookRecord>, TableFault>
    requires { HoldsTable book_table (state S.Store conn.old) }
    ensures loaded { Loaded book_table IsBookRow (λ found. map book_row found.items)
        (state S.Store conn.old) (state S.Store conn.new) result }
    ensures crash { CrashLeavesNoMore (state S.Store conn.old) (state S.Store conn.new) }
{
    load(
        alloc,
        conn,
        "SELECT rowid, one, version, zone FROM book ORDER BY rowid",
    )
}

/// Reads the book's own record, of which there is one.
pub fn book_records<S: Alter>(
    alloc: Global,
    conn: &mut Connection<S>,
) -> Result<Vec<BookRecord>, TableFault>
    requires { HoldsWhileOpen book_table (state S.Store conn.old) }
    ensures read { Read book_table (begins_with []) IsBookRow (λ found. map book_row found.items)
        (state S.Store conn.old) (state S.Store conn.new) result }
    ensures crash { CrashLeavesNoMore (state S.Store conn.old) (state S.Store conn.new) }
{
    read_all(alloc, conn, "SELECT one, version, zone FROM book", &[])
}

/// Sets the version of the tables.
pub fn update_book<S: Alter>(conn: &mut Connection<S>, version: i64) -> Result<(), TableFault>
    requires there { HoldsTable book_table (state S.Store conn.old) }
    requires free { HoldsUnreferenced book_table (state S.Store conn.old) }
    ensures ran { Ran (Updates book_table (begins_with (value.Int (pos 1) ∷ []))
        (with_version version)) (state S.Store conn.old) (state S.Store conn.new) result }
    ensures fault { Faults (BecomesTooBig book_table (begins_with (value.Int (pos 1) ∷ []))
        (with_version version) (state S.Store conn.old).now) ⊤
        (state S.Store conn.old) (state S.Store conn.new) result }
    ensures crash { CrashMayLeave (Updates book_table (begins_with (value.Int (pos 1) ∷ []))
        (with_version version)) (state S.Store conn.old) (state S.Store conn.new) }
{
    run(
        conn,
        "UPDATE book SET version = ?1 WHERE one = 1",
        params![version],
    )
}
