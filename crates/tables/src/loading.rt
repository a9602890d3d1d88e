//! Whole tables, and that each of their rows is stored under a number of its own, which no clause of `sqlite` says.
//! Rows that are damaged: `tests/tables.py`. Wrong bodies: `must-fail-more/`.

ghost use Rattle.std.specs.Prelude.{◌≡◌, [], ◌∷◌, map, drop, Err, IfOk, IfErr, OnOk};
ghost use Rattle.sqlite_value.specs.declared.value.Value.TheVariants.{Int};
ghost use Rattle.sqlite.specs.State.{HasCleanDisk, IsUnchanged};
ghost use Rattle.sqlite.specs.Held.{state};
ghost use Rattle.sqlite.specs.Given.{IsPlain};
ghost use Rattle.sqlite.specs.Listing.{understood};
ghost use Rattle.tables.specs.Calls.{CrashLeavesNoMore};
ghost use Rattle.tables.specs.Texts.{HasInvalid, IsUnnumbered, ShowsNumbered, Unloaded, above};

use crate::reading::Record;
use crate::table_fault::TableFault;
use sqlite::{Alter, Connection, Row};
use std::alloc::Global;

/// A record, and the number that its row is stored under.
#[derive(Drop)]
pub(crate) struct Numbered<R> {
    number: i64,
    entry: R,
}

impl<R: Record> Record for Numbered<R> {
    ghost row = { λ it. Int it.number ∷ R.Record.row it.entry };

    ghost is_record = { λ values. R.Record.is_record (drop 1 values) };

    ghost is_refused = { IsUnnumbered R.Record.is_refused };

    fn read(from: &Row, first: usize) -> Result<Numbered<R>, TableFault> {
        if from.column_count() <= first {
            return Err(TableFault::Store);
        }
        Ok(Numbered {
            number: from.get(first)?,
            entry: R::read(from, first + 1)?,
        })
    }
}

/// Returns whether a number is above the one before it, if there is one.
fn is_above(number: i64, before: Option<i64>) -> bool
    ensures { result ≡ above before number }
{
    match before {
        Some(last) => number > last,
        None => true,
    }
}

/// Reads all records of the answer to a text that shows each row's number first, and orders the rows by it.
pub(crate) fn load<S: Alter, R: Record>(
    alloc: Global,
    conn: &mut Connection<S>,
    sql: &str,
) -> Result<Vec<R>, TableFault>
    // The text is understood, has no RETURNING, and does not read the time.
    requires { HasCleanDisk (state S.Store conn.old)
        → IsPlain (understood conn.old.schema sql.now) }

    // What is found, with nothing changed.
    ensures found { HasCleanDisk (state S.Store conn.new) → IfOk result (λ all. ShowsNumbered
        sql.now (state S.Store conn.old) (state S.Store conn.new) (map R.Record.row all.items)) }
    ensures same { HasCleanDisk (state S.Store conn.new)
        → OnOk result (IsUnchanged (state S.Store conn.old) (state S.Store conn.new)) }

    // A fault.
    ensures stops { HasCleanDisk (state S.Store conn.new) → IfErr result
        (Unloaded R.Record.is_refused sql.now (state S.Store conn.old) (state S.Store conn.new)) }
    ensures damaged { HasCleanDisk (state S.Store conn.new) → result ≡ Err TableFault.NotARecord
        → HasInvalid (λ values. R.Record.is_record (drop 1 values)) sql.now []
        (state S.Store conn.old) }

    // A crash meanwhile.
    ensures crash { CrashLeavesNoMore (state S.Store conn.old) (state S.Store conn.new) }
{
    let mut all = Vec::new(alloc);
    // (only the number of the last row is kept: a table can have hundreds of thousands of rows)
    let mut last = None;
    let mut do_rise = true;
    let mut rows = conn.query(sql, &[])?;
    'rows: for _ in 0..u64::MAX {
        let Some(row) = rows.next()? else {
            return if do_rise {
                Ok(all)
            } else {
                Err(TableFault::Store)
            };
        };
        let Numbered { number, entry } = Numbered::<R>::read(&row, 0)?;
        do_rise &= is_above(number, last);
        last = Some(number);
        all.push(entry)?;
    }
    Err(TableFault::Memory)
}
