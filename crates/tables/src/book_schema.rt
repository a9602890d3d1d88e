//! Whether a database has the tables of a book, as their texts declare them.
//! Files that lack a table, or have another: `tests/tables.py`. Wrong bodies: `must-fail-more/`.

ghost use Rattle.std.specs.Prelude.{◌≡◌, ◌↔◌, IfErr, IfOk, IsTrue, IsSome, None, bytes_eq, not};
ghost use Rattle.std.specs.List.{list_all, list_any};
ghost use Rattle.sqlite.specs.Held.{state};
ghost use Rattle.sqlite_schema.specs.Names.{same_name};
ghost use Rattle.tables.specs.Schema.{IsBook, IsOfBook, IsSpared, HasTables, NoneRefersTo, OnlyKeysGuard, table_found, empty_schema, first_tables, later_tables, book_table, crew_table, pairing_table, period_table, segment_table, seat_table, ground_table, exceedance_table, request_table, base_table, crew_base_table, outside_table, outside_segment_table};
ghost use Rattle.tables.specs.Declarations.{is_not_parent, is_of_key, only_keys_guard};
ghost use Rattle.tables.specs.declared.table_fault.TableFault.TheVariants as fault;

use crate::base::is_base_there;
use crate::book::is_book_there;
use crate::crew::is_crew_there;
use crate::crew_base::is_crew_base_there;
use crate::declared::table_named;
use crate::exceedance::is_exceedance_there;
use crate::ground::is_ground_there;
use crate::outside::is_outside_there;
use crate::outside_segment::is_outside_segment_there;
use crate::pairing::is_pairing_there;
use crate::period::is_period_there;
use crate::request::is_request_there;
use crate::seat::is_seat_there;
use crate::segment::is_segment_there;
use crate::table_fault::TableFault;
use sqlite::{Alter, Connection};
use sqlite_items::Items;
use sqlite_schema::names::same_name;
use sqlite_schema::schema::{Index, Reference, Table};
use std::alloc::Global;

/// Returns whether there is a table of this name, whatever its columns are. Letters of ASCII match in either case.
pub fn has_table<S: Alter>(conn: &Connection<S>, name: &str) -> bool
    ensures { IsTrue result ↔ IsSome (table_found (state S.Store conn.now).now.schema name.now) }
{
    conn.schema().table_named(name.as_bytes()).is_some()
}

/// Returns whether there is no table, index or view.
pub fn is_empty<S: Alter>(conn: &Connection<S>) -> bool
    ensures { IsTrue result ↔ ((state S.Store conn.now).now.schema ≡ empty_schema) }
{
    let schema = conn.schema();
    schema.tables.is_empty() && schema.indexes.is_empty() && schema.views.is_empty()
}

fn refer_elsewhere(references: &[Reference], name: &[u8]) -> bool
    ensures { result ≡ list_all (λ ref. not (same_name name.now ref.parent)) references.now }
{
    references
        .iter()
        .all(|reference| !same_name(name, reference.parent.as_slice()))
}

fn is_not_parent(tables: &[Table], name: &[u8]) -> bool
    ensures { result ≡ is_not_parent tables.now name.now }
{
    tables
        .iter()
        .all(|table| refer_elsewhere(table.references.as_slice(), name))
}

/// Returns whether no foreign key refers to a table of this name.
pub fn is_unreferenced<S: Alter>(conn: &Connection<S>, name: &str) -> bool
    ensures { IsTrue result ↔ NoneRefersTo name.now (state S.Store conn.now).now.schema }
{
    is_not_parent(conn.schema().tables.as_slice(), name.as_bytes())
}

/// Returns whether no table has this name, and no foreign key refers to one of this name.
pub fn is_name_free<S: Alter>(conn: &Connection<S>, name: &str) -> bool
    ensures { IsTrue result ↔ (table_found (state S.Store conn.now).now.schema name.now ≡ None)
        × NoneRefersTo name.now (state S.Store conn.now).now.schema }
{
    !has_table(conn, name) && is_unreferenced(conn, name)
}

fn is_key(keys: &[Items<usize>], columns: &[usize]) -> bool
    ensures { result ≡ list_any (λ key. bytes_eq key columns.now) keys.now }
{
    keys.iter().any(|key| key.as_slice() == columns)
}

/// Returns whether the index has the columns of one of the keys, and compares them as plain values.
fn is_of_key(keys: &[Items<usize>], index: &Index) -> bool
    ensures { result ≡ is_of_key keys.now index.now }
{
    index.order.digits == 0 && is_key(keys, index.columns.as_slice())
}

/// Returns whether each UNIQUE index on the table is one that the table's own keys call for.
fn only_keys_guard(table: &Table, indexes: &[Index]) -> bool
    ensures { result ≡ only_keys_guard table.now indexes.now }
{
    indexes.iter().all(|index| {
        !(index.is_unique && index.table == table.tree)
            || is_of_key(table.uniques.as_slice(), index)
    })
}

/// Returns whether each UNIQUE index on the table of this name is one that the table's own keys call for.
fn is_guarded_by_keys<S: Alter>(conn: &Connection<S>, name: &str) -> bool
    ensures { IsTrue result ↔ OnlyKeysGuard name.now (state S.Store conn.now).now.schema }
{
    match table_named(conn, name.as_bytes()) {
        Some(table) => only_keys_guard(table, conn.schema().indexes.as_slice()),
        None => true,
    }
}

/// Returns whether nothing of another hand binds the table of this name: no foreign key refers to it, and each UNIQUE
/// index on it is one that its own keys call for. Other indexes and views may be there.
pub fn is_spared<S: Alter>(conn: &Connection<S>, name: &str) -> bool
    ensures { IsTrue result ↔ IsSpared name.now (state S.Store conn.now).now.schema }
{
    is_unreferenced(conn, name) && is_guarded_by_keys(conn, name)
}

fn begins_as_book<S: Alter>(alloc: Global, conn: &Connection<S>) -> Result<bool, TableFault>
    ensures there { IfOk result
        (λ yes. IsTrue yes ↔ IsOfBook book_table (state S.Store conn.now).now.schema
        × IsOfBook crew_table (state S.Store conn.now).now.schema
        × IsOfBook pairing_table (state S.Store conn.now).now.schema) }
    ensures fault { IfErr result (λ e. e ≡ fault.Memory) }
{
    Ok(
        is_book_there(alloc, conn)?
            && is_spared(conn, "book")
            && is_crew_there(alloc, conn)?
            && is_spared(conn, "crew")
            && is_pairing_there(alloc, conn)?
            && is_spared(conn, "pairing"),
    )
}

fn goes_on_as_book<S: Alter>(alloc: Global, conn: &Connection<S>) -> Result<bool, TableFault>
    ensures there { IfOk result
        (λ yes. IsTrue yes ↔ IsOfBook period_table (state S.Store conn.now).now.schema
        × IsOfBook segment_table (state S.Store conn.now).now.schema
        × IsOfBook seat_table (state S.Store conn.now).now.schema) }
    ensures fault { IfErr result (λ e. e ≡ fault.Memory) }
{
    Ok(
        is_period_there(alloc, conn)?
            && is_spared(conn, "period")
            && is_segment_there(alloc, conn)?
            && is_spared(conn, "segment")
            && is_seat_there(alloc, conn)?
            && is_spared(conn, "seat"),
    )
}

fn ends_as_book<S: Alter>(alloc: Global, conn: &Connection<S>) -> Result<bool, TableFault>
    ensures there { IfOk result
        (λ yes. IsTrue yes ↔ IsOfBook ground_table (state S.Store conn.now).now.schema
        × IsOfBook exceedance_table (state S.Store conn.now).now.schema
        × IsOfBook request_table (state S.Store conn.now).now.schema) }
    ensures fault { IfErr result (λ e. e ≡ fault.Memory) }
{
    Ok(
        is_ground_there(alloc, conn)?
            && is_spared(conn, "ground")
            && is_exceedance_there(alloc, conn)?
            && is_spared(conn, "exceedance")
            && is_request_there(alloc, conn)?
            && is_spared(conn, "request"),
    )
}

fn has_bases<S: Alter>(alloc: Global, conn: &Connection<S>) -> Result<bool, TableFault>
    ensures there { IfOk result
        (λ yes. IsTrue yes ↔ IsOfBook base_table (state S.Store conn.now).now.schema
        × IsOfBook crew_base_table (state S.Store conn.now).now.schema) }
    ensures fault { IfErr result (λ e. e ≡ fault.Memory) }
{
    Ok(
        is_base_there(alloc, conn)?
            && is_spared(conn, "base")
            && is_crew_base_there(alloc, conn)?
            && is_spared(conn, "crew_base"),
    )
}

fn has_outside_tables<S: Alter>(alloc: Global, conn: &Connection<S>) -> Result<bool, TableFault>
    ensures there { IfOk result
        (λ yes. IsTrue yes ↔ IsOfBook outside_table (state S.Store conn.now).now.schema
        × IsOfBook outside_segment_table (state S.Store conn.now).now.schema) }
    ensures fault { IfErr result (λ e. e ≡ fault.Memory) }
{
    Ok(
        is_outside_there(alloc, conn)?
            && is_spared(conn, "outside")
            && is_outside_segment_there(alloc, conn)?
            && is_spared(conn, "outside_segment"),
    )
}

fn has_first_tables<S: Alter>(alloc: Global, conn: &Connection<S>) -> Result<bool, TableFault>
    ensures there { IfOk result
        (λ yes. IsTrue yes ↔ HasTables first_tables (state S.Store conn.now).now.schema) }
    ensures fault { IfErr result (λ e. e ≡ fault.Memory) }
{
    Ok(begins_as_book(alloc, conn)? && goes_on_as_book(alloc, conn)? && ends_as_book(alloc, conn)?)
}

fn has_later_tables<S: Alter>(alloc: Global, conn: &Connection<S>) -> Result<bool, TableFault>
    ensures there { IfOk result
        (λ yes. IsTrue yes ↔ HasTables later_tables (state S.Store conn.now).now.schema) }
    ensures fault { IfErr result (λ e. e ≡ fault.Memory) }
{
    Ok(has_bases(alloc, conn)? && has_outside_tables(alloc, conn)?)
}

/// Returns whether the thirteen tables of a book are there, each in a tree of its own, and no foreign key or UNIQUE index
/// of another hand binds them.
pub fn is_book<S: Alter>(alloc: Global, conn: &Connection<S>) -> Result<bool, TableFault>
    ensures is { IfOk result (λ yes. IsTrue yes ↔ IsBook (state S.Store conn.now).now.schema) }
    ensures fault { IfErr result (λ e. e ≡ fault.Memory) }
{
    Ok(has_first_tables(alloc, conn)? && has_later_tables(alloc, conn)?)
}
