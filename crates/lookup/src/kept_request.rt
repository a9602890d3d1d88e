//! What a key holds, read by key.
//! Through the program: `tests/answers.py`. Wrong bodies: `must-fail-more/`.

ghost use Rattle.std.specs.Prelude.{◌≡◌, IfErr, IfOk, [], ◌∷◌, map, pos};
ghost use Rattle.std.specs.FinMap as fin;
ghost use Rattle.sqlite.specs.Held.{state};
ghost use Rattle.sqlite_value.specs.declared.value.Value.TheVariants as value;
ghost use Rattle.command.specs.Keys.{key_name};
ghost use Rattle.tables.specs.Records.{request_row};
ghost use Rattle.tables.specs.Rows.{begins_with};
ghost use Rattle.state_rows.specs.Outcomes.{IsOutside, IsOverBook};
ghost use Rattle.state_rows.specs.Rows.{request};
ghost use Rattle.lookup.specs.Reads.{ReadsByKey, ReadsRows, HaveNone};
ghost use Rattle.lookup.specs.Entries.{HasFirstRequest, HasTexts};

use command::Key;
use entries::{command_of, reply_of};
use roster::LoggedCommand;
use sqlite::{Alter, Connection};
use state_rows::StoreFault;
use std::alloc::Global;
use tables::request::{RequestRecord, request_by_key};

/// Reads the records under a key.
#[tactic(auto, using(crate::proofs::ReadLemmas::was_read, crate::proofs::ReadLemmas::not_read, crate::proofs::ReadLemmas::holds_open))]
fn request_rows<S: Alter>(
    alloc: Global,
    conn: &mut Connection<S>,
    key: Key,
) -> Result<Vec<RequestRecord>, StoreFault>
    requires outside { IsOutside (state S.Store conn.old) }
    requires over { IsOverBook (state S.Store conn.old) }
    ensures { ReadsRows request
        (begins_with (value.Int (pos key.number) ∷ value.Int (pos key.part) ∷ []))
        (λ found. map request_row found.items) (state S.Store conn.old)
        (state S.Store conn.new) result }
{
    // The clause of this call says that outside a transaction what is shown is committed.
    let _settled = conn.is_autocommit();
    match request_by_key(
        alloc,
        conn,
        key.number().get() as i64,
        u32::from(key.part()),
    ) {
        Ok(records) => Ok(records),
        Err(fault) => Err(StoreFault::from(fault)),
    }
}

/// Returns the command and reply that a record gives.
#[tactic(auto, using(crate::proofs::RightEntries::no_command, crate::proofs::RightEntries::no_reply))]
pub(crate) fn logged_in(alloc: Global, row: &RequestRecord) -> Result<LoggedCommand, StoreFault>
    ensures told { IfOk result (HasTexts row.now) }
    ensures unread { IfErr result
        (λ fault. fault ≡ StoreFault.Store → HaveNone (HasTexts row.now)) }
{
    let Some(reply) = reply_of(alloc, row.reply.as_str())? else {
        return Err(StoreFault::Store);
    };
    let Some(command) = command_of(alloc, row.command.as_str())? else {
        return Err(StoreFault::Store);
    };
    Ok(LoggedCommand { command, reply })
}

/// Returns the command and reply that the first of some records gives.
#[tactic(auto, using(crate::proofs::RightEntries::no_first))]
fn first_request(
    alloc: Global,
    records: &[RequestRecord],
) -> Result<Option<LoggedCommand>, StoreFault>
    ensures told { IfOk result (HasFirstRequest records.now) }
    ensures unread { IfErr result
        (λ fault. fault ≡ StoreFault.Store → HaveNone (HasFirstRequest records.now)) }
{
    let Some(row) = records.first() else {
        return Ok(None);
    };
    Ok(Some(logged_in(alloc, row)?))
}

/// Reads what a key holds.
#[tactic(auto, using(crate::proofs::Causes::not_told))]
pub fn request_at<S: Alter>(
    alloc: Global,
    conn: &mut Connection<S>,
    key: Key,
) -> Result<Option<LoggedCommand>, StoreFault>
    requires outside { IsOutside (state S.Store conn.old) }
    requires over { IsOverBook (state S.Store conn.old) }
    ensures { ReadsByKey (λ s found. found ≡ fin.get s.requests (key_name key))
        (state S.Store conn.old)
        (state S.Store conn.new) result }
{
    let records = request_rows(alloc, conn, key)?;
    first_request(alloc, &records)
}
