//! What the keys of one request hold, read by its number: a single command, or the pairings of an import.
//! Through the program: `tests/reports.py`. Wrong bodies: `must-fail-more/`.

ghost use Rattle.std.specs.Prelude.{◌≡◌, [], ◌∷◌, length, map, pos, IfErr, IfOk};
ghost use Rattle.std.specs.FinMap as fin;
ghost use Rattle.sqlite.specs.Held.{state};
ghost use Rattle.sqlite_value.specs.declared.value.Value.TheVariants as value;
ghost use Rattle.tables.specs.Records.{request_row};
ghost use Rattle.tables.specs.Rows.{begins_with};
ghost use Rattle.entries.specs.Mapping.{HasStranger};
ghost use Rattle.state_rows.specs.Outcomes.{IsOutside, IsOverBook};
ghost use Rattle.state_rows.specs.Rows.{request, row_of_request};
ghost use Rattle.lookup.specs.Reads.{ReadsByKey, ReadsRows};
ghost use Rattle.lookup.specs.Requests.{AreKept, CanBeKept, IsUnkept, TellsKept, has_number};

use crate::kept_request::logged_in;
use command::Key;
use entries::key_of;
use request::RequestNumber;
use roster::LoggedCommand;
use sqlite::{Alter, Connection};
use state_rows::StoreFault;
use std::alloc::Global;
use tables::request::{RequestRecord, requests_by_number};
use values::OrdMap;

/// What a record says that a key holds.
#[derive(Drop)]
struct FoundRequest {
    key: Key,
    kept: LoggedCommand,
}

/// Reads the records under a number.
#[tactic(auto, using(crate::proofs::ReadLemmas::was_read, crate::proofs::ReadLemmas::not_read, crate::proofs::ReadLemmas::holds_open))]
fn number_rows<S: Alter>(
    alloc: Global,
    conn: &mut Connection<S>,
    number: RequestNumber,
) -> Result<Vec<RequestRecord>, StoreFault>
    requires outside { IsOutside (state S.Store conn.old) }
    requires over { IsOverBook (state S.Store conn.old) }
    ensures { ReadsRows request (begins_with (value.Int (pos number) ∷ []))
        (λ found. map request_row found.items) (state S.Store conn.old)
        (state S.Store conn.new) result }
{
    // The clause of this call says that outside a transaction what is shown is committed.
    let _settled = conn.is_autocommit();
    match requests_by_number(alloc, conn, number.get() as i64) {
        Ok(records) => Ok(records),
        Err(fault) => Err(StoreFault::from(fault)),
    }
}

/// Returns what a record says that a key holds.
#[tactic(auto, using(crate::proofs::RequestLemmas::kept_is, crate::proofs::RequestLemmas::no_key, crate::proofs::RequestLemmas::no_texts))]
fn request_of_row(alloc: Global, row: &RequestRecord) -> Result<FoundRequest, StoreFault>
    ensures told { IfOk result (λ it. TellsKept row.now it.key it.kept) }
    ensures unread { IfErr result (λ fault. fault ≡ StoreFault.Store → IsUnkept row.now) }
{
    let Some(key) = key_of(row.number, row.part) else {
        return Err(StoreFault::Store);
    };
    let kept = logged_in(alloc, row)?;
    Ok(FoundRequest { key, kept })
}

/// Returns what the records say that keys hold.
#[tactic(auto, using(crate::proofs::RequestLemmas::stranger_at))]
fn requests_of_rows(
    alloc: Global,
    records: &[RequestRecord],
) -> Result<OrdMap<Key, LoggedCommand>, StoreFault>
    ensures told { IfOk result (AreKept records.now (length records.now)) }
    ensures unread { IfErr result (λ fault. fault ≡ StoreFault.Store
        → HasStranger row_of_request CanBeKept (map request_row records.now)) }
{
    let mut all = OrdMap::new(alloc);
    for row in records {
        let FoundRequest { key, kept } = request_of_row(alloc, row)?;
        all.insert(key, kept)?;
    }
    Ok(all)
}

/// Reads what the keys of a request hold.
#[tactic(auto, using(crate::proofs::Causes::not_told))]
pub fn requests_at<S: Alter>(
    alloc: Global,
    conn: &mut Connection<S>,
    number: RequestNumber,
) -> Result<OrdMap<Key, LoggedCommand>, StoreFault>
    requires outside { IsOutside (state S.Store conn.old) }
    requires over { IsOverBook (state S.Store conn.old) }
    ensures { ReadsByKey (λ s found. found ≡ fin.retain_keys s.requests (has_number number))
        (state S.Store conn.old) (state S.Store conn.new) result }
{
    let records = number_rows(alloc, conn, number)?;
    requests_of_rows(alloc, &records)
}
