//! The book's own row, as it is loaded. What is right is `IsBookRight` (`specs/Right.antt` of `entries`).
//! Files with such a damage: `tests/tables.py`. Wrong bodies: `must-fail-more/`.

ghost use Rattle.std.specs.Prelude.{◌≡◌, ◌↔◌, map, pos, true, IfOk, IsTrue, MatchOption, MatchResult};
ghost use Rattle.std.specs.Option.{option_copied};
ghost use Rattle.sqlite.specs.Held.{state};
ghost use Rattle.time117.specs.Local.{is_zone_text};
ghost use Rattle.roster.specs.Bases.{home_zone};
ghost use Rattle.roster.specs.State.{empty};
ghost use Rattle.tables.specs.Records.{book_row, IsBookRow};
ghost use Rattle.tables.specs.declared.book.BookRecord.{BookRecord as RecordOf};
ghost use Rattle.loading.specs.Loading.{Justifies};
ghost use Rattle.loading.specs.Reading.{AgreesIn, BlamesOrFails, BlamesBook, book_of, IsEditionNumber, IsOnly, ReadsAs, HasRows, IsUnreadable};
ghost use Rattle.state_rows.specs.Editions.{edition_number};
ghost use Rattle.state_rows.specs.Rows.{book};
ghost use Rattle.entries.specs.declared.fault.TableName.TheVariants as table_name;

use entries::{LoadFault, TableName};
use roster::Roster;
use sqlite::{Alter, Connection};
use state_rows::{Edition, StoreFault};
use std::alloc::Global;
use tables::book::{BookRecord, is_book_there, load_book};
use tables::book_schema::{has_table, is_spared};
use time117::{Zone, ZoneFault};

/// Reads the records of the table.
#[tactic(auto, using(crate::proofs::Telling::not_there, crate::proofs::Telling::no_memory))]
fn book_records<S: Alter>(
    alloc: Global,
    conn: &mut Connection<S>,
) -> Result<Vec<BookRecord>, LoadFault>
    ensures { ReadsAs (λ found. HasRows book (state S.Store conn.old).now
        (map book_row found.items))
        (BlamesOrFails table_name.Book (IsUnreadable book IsBookRow (state S.Store conn.old).now))
        (state S.Store conn.old) (state S.Store conn.new) result }
{
    if !is_book_there(alloc, conn)? || !is_spared(conn, "book") {
        return Err(LoadFault::Damaged(TableName::Book));
    }
    let loaded = load_book(alloc, conn);
    // The clause of this call says that an open connection shows a database.
    let _live = conn.schema();
    match loaded {
        Ok(records) => Ok(records),
        Err(fault) => Err(LoadFault::of_table(fault, TableName::Book)),
    }
}

/// Returns whether two records are the same.
#[tactic(auto, using(crate::proofs::ReadBook::same_record))]
fn is_same(first: &BookRecord, other: &BookRecord) -> bool
    ensures { IsTrue result ↔ (first.now ≡ other.now) }
{
    first.one == other.one && first.version == other.version && first.zone == other.zone
}

/// Finds the one record, if there is one, and no other. (Two of one row can't be: its number is
/// UNIQUE.)
#[tactic(auto, using(crate::proofs::ReadBook::nothing_only, crate::proofs::ReadBook::other_only, crate::proofs::ReadBook::is_only, crate::proofs::ReadBook::none_same, crate::proofs::ReadBook::next_same))]
fn only(records: &[BookRecord]) -> Option<&BookRecord>
    ensures { MatchOption (option_copied result)
        ((it : RecordOf) → IsOnly records.now it → ⊥) (IsOnly records.now) }
{
    let Some(first) = records.first() else {
        return None;
    };
    for other in records {
        if !is_same(other, first) {
            return None;
        }
    }
    Some(first)
}

/// Returns the version of this number, if there is one.
#[tactic(auto, using(crate::proofs::ReadBook::no_edition))]
fn edition_of(number: i64) -> Option<Edition>
    ensures { MatchOption result (IsEditionNumber number → ⊥)
        (λ edition. number ≡ pos (edition_number edition)) }
{
    if number == Edition::First.number() {
        return Some(Edition::First);
    }
    if number == Edition::Second.number() {
        return Some(Edition::Second);
    }
    None
}

/// Makes an empty roster of the zone that the one record names, and finds the version of the tables.
#[tactic(auto, using(crate::proofs::ReadBook::no_row, crate::proofs::ReadBook::other_number, crate::proofs::ReadBook::no_zone))]
fn begun_of(alloc: Global, records: &[BookRecord]) -> Result<(Roster, Edition), LoadFault>
    ensures { MatchResult result (λ r. (r.0 ≡ empty (home_zone r.0.bases))
        × IsOnly records.now (book_of r.1 (home_zone r.0.bases))
        × (is_zone_text (home_zone r.0.bases) ≡ true))
        (BlamesBook records.now) }
{
    let Some(book) = only(records) else {
        return Err(LoadFault::Damaged(TableName::Book));
    };
    let text = book.zone.as_str();
    let Some(edition) = edition_of(book.version) else {
        return Err(LoadFault::Version);
    };
    if book.one != 1 {
        return Err(LoadFault::Damaged(TableName::Book));
    }
    match Zone::read(alloc, text) {
        Ok(zone) => Ok((Roster::empty(alloc, zone)?, edition)),
        Err(ZoneFault::Memory) => Err(LoadFault::Fault(StoreFault::Memory)),
        Err(ZoneFault::ZoneText) => Err(LoadFault::Damaged(TableName::Book)),
    }
}

/// Reads what the book is: a roster of nothing but HOME, and the version of the tables.
#[tactic(auto, using(crate::proofs::ReadBook::no_book))]
pub(crate) fn read_book<S: Alter>(
    alloc: Global,
    conn: &mut Connection<S>,
) -> Result<(Roster, Edition), LoadFault>
    ensures read { ReadsAs (λ r. AgreesIn r.1 book r.0 (state S.Store conn.old).now)
        (λ fault. Justifies fault (state S.Store conn.old).now) (state S.Store conn.old)
        (state S.Store conn.new) result }
    ensures rest { IfOk result (λ r. r.0 ≡ empty (home_zone r.0.bases)) }
{
    if !has_table(conn, "book") {
        return Err(LoadFault::NotABook);
    }
    let records = book_records(alloc, conn)?;
    begun_of(alloc, &records)
}
