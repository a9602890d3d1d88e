//! Whether a table is declared as its text declares it.
//! Tables that are declared otherwise: `tests/tables.py`. Wrong bodies: `must-fail-more/`.

ghost use Rattle.std.specs.Prelude.{◌≡◌, ◌↔◌, IfErr, IfOk, IsTrue, Ok, option_map};
ghost use Rattle.sqlite.specs.Held.{state};
ghost use Rattle.sqlite_resolve.specs.Compile.{table_defined_by};
ghost use Rattle.sqlite_schema.specs.declared.schema.Table.{Table as SqlTable};
ghost use Rattle.sqlite_value.specs.declared.value.Value.TheVariants as value;
ghost use Rattle.tables.specs.Schema.{BookTable, IsTable, table_found, table_of};
ghost use Rattle.tables.specs.Declarations.{IsSimple, IsLike, HaveNoDefault, StandsAs, DeclaresTable, is_own_tree};
ghost use Rattle.tables.specs.declared.table_fault.TableFault.TheVariants as fault;

use crate::table_fault::TableFault;
use sqlite::{Alter, Connection};
use sqlite_items::Items;
use sqlite_resolve::{CompileError, define_table};
use sqlite_schema::schema::{Column, Table};
use sqlite_value::keys::Order;
use sqlite_value::value::Value;
use std::alloc::Global;

fn is_same_column(a: &Column, b: &Column) -> bool
    ensures same { IsTrue result → a.now ≡ b.now }
    ensures all { a.now ≡ b.now → b.now.default ≡ value.Null → IsTrue result }
{
    a.name.as_slice() == b.name.as_slice()
        && a.kind == b.kind
        && a.is_strict == b.is_strict
        && a.not_null == b.not_null
        && matches!(a.default, Value::Null)
        && matches!(b.default, Value::Null)
        && a.collation == b.collation
}

fn are_same_columns(a: &[Column], b: &[Column]) -> bool
    ensures same { IsTrue result → a.now ≡ b.now }
    ensures all { a.now ≡ b.now → HaveNoDefault b.now → IsTrue result }
{
    if a.len() != b.len() {
        return false;
    }
    for at in 0..a.len() {
        if !is_same_column(&a[at], &b[at]) {
            return false;
        }
    }
    true
}

fn is_same_key(a: &Items<usize>, b: &Items<usize>) -> bool
    ensures { IsTrue result ↔ (a.now ≡ b.now) }
{
    a.as_slice() == b.as_slice()
}

fn are_same_keys(a: &[Items<usize>], b: &[Items<usize>]) -> bool
    ensures { IsTrue result ↔ (a.now ≡ b.now) }
{
    if a.len() != b.len() {
        return false;
    }
    for at in 0..a.len() {
        if !is_same_key(&a[at], &b[at]) {
            return false;
        }
    }
    true
}

fn are_same_orders(a: &[Order], b: &[Order]) -> bool
    ensures { IsTrue result ↔ (a.now ≡ b.now) }
{
    if a.len() != b.len() {
        return false;
    }
    for at in 0..a.len() {
        if a[at].digits != b[at].digits {
            return false;
        }
    }
    true
}

/// Returns whether no column is the row's number, and nothing is counted, checked, referred to or
/// computed.
fn is_simple(table: &Table) -> bool
    ensures { IsTrue result ↔ IsSimple table.now }
{
    table.key.is_none()
        && !table.is_counted
        && table.checks.roots.is_empty()
        && table.references.is_empty()
        && table.computed.is_empty()
        && table.stamps.places.is_empty()
        && table.stamps.terms.roots.is_empty()
        && table.stamps.formats.is_empty()
}

/// Returns whether two tables have the same name, columns, keys and orders of keys.
fn is_like(a: &Table, b: &Table) -> bool
    ensures same { IsTrue result → IsLike a.now b.now }
    ensures all { IsLike a.now b.now → HaveNoDefault b.now.columns → IsTrue result }
{
    a.name.as_slice() == b.name.as_slice()
        && are_same_columns(a.columns.as_slice(), b.columns.as_slice())
        && a.primary.as_slice() == b.primary.as_slice()
        && are_same_keys(a.uniques.as_slice(), b.uniques.as_slice())
        && are_same_orders(a.orders.as_slice(), b.orders.as_slice())
}

/// Returns whether two tables are declared alike.
#[tactic(auto, using(crate::proofs::Declaring::alike))]
fn is_alike(found: &Table, wanted: &Table) -> bool
    ensures same { IsTrue result → found.now ≡ record wanted.now { tree = found.now.tree } }
    ensures all { found.now ≡ record wanted.now { tree = found.now.tree } → IsSimple wanted.now
        → HaveNoDefault wanted.now.columns → IsTrue result }
{
    is_like(found, wanted) && is_simple(found) && is_simple(wanted)
}

fn is_own_tree(tables: &[Table], tree: u32, name: &[u8]) -> bool
    ensures { result ≡ is_own_tree tables.now tree name.now }
{
    tables.iter().all(|table| table.tree != tree || table.name.as_slice() == name)
}

fn define(alloc: Global, text: &str) -> Result<Table, TableFault>
    ensures ok { IfOk result (λ table. table_defined_by text.now ≡ Ok table) }
    ensures err { (table : SqlTable) → table_defined_by text.now ≡ Ok table
        → IfErr result (λ e. e ≡ fault.Memory) }
{
    match define_table(alloc, text.as_bytes()) {
        Ok(table) => Ok(table),
        Err(CompileError::OutOfMemory) => Err(TableFault::Memory),
        Err(_) => Err(TableFault::Store),
    }
}

/// Finds the table of a name.
pub(crate) fn table_named<'a, S: Alter>(conn: &'a Connection<S>, name: &[u8]) -> Option<&'a Table>
    ensures { option_map (λ table. table.now) result
        ≡ table_found (state S.Store conn.now).now.schema name.now }
{
    conn.schema()
        .tables
        .as_slice()
        .iter()
        .find(|table| table.is_named(name))
}

/// Returns whether the table that a name finds is declared as the wanted one, in a tree of its own.
fn stands_as(tables: &[Table], found: &Table, wanted: &Table) -> bool
    ensures same { IsTrue result → StandsAs tables.now found.now wanted.now }
    ensures all { StandsAs tables.now found.now wanted.now → IsSimple wanted.now
        → HaveNoDefault wanted.now.columns → IsTrue result }
{
    is_alike(found, wanted)
        && found.tree < 1 << 31
        && is_own_tree(tables, found.tree, wanted.name.as_slice())
}

/// Returns whether the wanted table is there, in a tree of its own.
fn is_there_as<S: Alter>(conn: &Connection<S>, wanted: &Table) -> bool
    ensures { (it : BookTable) → wanted.now ≡ table_of it 0 → HaveNoDefault it.columns
        → IsTrue result ↔ IsTable it (state S.Store conn.now).now.schema }
{
    match table_named(conn, wanted.name.as_slice()) {
        Some(found) => stands_as(conn.schema().tables.as_slice(), found, wanted),
        None => false,
    }
}

/// Returns whether the table is there as its text declares it, in a tree of its own.
pub(crate) fn is_there<S: Alter>(
    alloc: Global,
    conn: &Connection<S>,
    text: &str,
) -> Result<bool, TableFault>
    ensures there { (it : BookTable) → DeclaresTable it text.now
        → IfOk result (λ yes. IsTrue yes ↔ IsTable it (state S.Store conn.now).now.schema) }
    ensures fault { (it : BookTable) → DeclaresTable it text.now
        → IfErr result (λ e. e ≡ fault.Memory) }
{
    let wanted = define(alloc, text)?;
    Ok(is_there_as(conn, &wanted))
}
