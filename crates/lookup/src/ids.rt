//! The ids of all members, and of all pairings.
//! Through the program: `tests/reports.py`. Wrong bodies: `must-fail-more/`.

ghost use Rattle.std.specs.Prelude.{◌≡◌, [], IfOk, IsTrue, map};
ghost use Rattle.sqlite.specs.Held.{state};
ghost use Rattle.tables.specs.Records.{crew_row, pairing_row};
ghost use Rattle.tables.specs.Rows.{begins_with};
ghost use Rattle.state_rows.specs.Outcomes.{IsOutside, IsOverBook};
ghost use Rattle.state_rows.specs.Rows.{crew, pairing};
ghost use Rattle.roster.specs.Holding.{AreJust};
ghost use Rattle.roster.specs.Refusals.{is_member, is_pairing};
ghost use Rattle.lookup.specs.Ids.{members_in, pairings_in};
ghost use Rattle.lookup.specs.Reads.{ReadsByKey, ReadsRows};

use duty::{CrewId, PairingId};
use sqlite::{Alter, Connection};
use state_rows::StoreFault;
use std::alloc::Global;
use tables::crew::{CrewRecord, members};
use tables::pairing::{PairingRecord, pairings};
use values::{MemoryFault, TryClone};

/// Reads the records of all members.
#[tactic(auto, using(crate::proofs::ReadLemmas::was_read, crate::proofs::ReadLemmas::not_read, crate::proofs::ReadLemmas::holds_open))]
fn crew_rows<S: Alter>(
    alloc: Global,
    conn: &mut Connection<S>,
) -> Result<Vec<CrewRecord>, StoreFault>
    requires outside { IsOutside (state S.Store conn.old) }
    requires over { IsOverBook (state S.Store conn.old) }
    ensures { ReadsRows crew (begins_with []) (λ found. map crew_row found.items)
        (state S.Store conn.old) (state S.Store conn.new) result }
{
    // The clause of this call says that outside a transaction what is shown is committed.
    let _settled = conn.is_autocommit();
    match members(alloc, conn) {
        Ok(records) => Ok(records),
        Err(fault) => Err(StoreFault::from(fault)),
    }
}

/// Reads the records of all pairings.
#[tactic(auto, using(crate::proofs::ReadLemmas::was_read, crate::proofs::ReadLemmas::not_read, crate::proofs::ReadLemmas::holds_open))]
fn pairing_rows<S: Alter>(
    alloc: Global,
    conn: &mut Connection<S>,
) -> Result<Vec<PairingRecord>, StoreFault>
    requires outside { IsOutside (state S.Store conn.old) }
    requires over { IsOverBook (state S.Store conn.old) }
    ensures { ReadsRows pairing (begins_with []) (λ found. map pairing_row found.items)
        (state S.Store conn.old) (state S.Store conn.new) result }
{
    // The clause of this call says that outside a transaction what is shown is committed.
    let _settled = conn.is_autocommit();
    match pairings(alloc, conn) {
        Ok(records) => Ok(records),
        Err(fault) => Err(StoreFault::from(fault)),
    }
}

/// Returns the ids of the members that the records give.
fn members_in(alloc: Global, records: &[CrewRecord]) -> Result<Vec<CrewId>, MemoryFault>
    ensures { IfOk result (λ ids. ids.items ≡ members_in records.now) }
{
    let mut ids = Vec::new(alloc);
    for row in records {
        ids.push(CrewId::new(row.id.try_clone(alloc)?))?;
    }
    Ok(ids)
}

/// Returns the ids of the pairings that the records give.
fn pairings_in(alloc: Global, records: &[PairingRecord]) -> Result<Vec<PairingId>, MemoryFault>
    ensures { IfOk result (λ ids. ids.items ≡ pairings_in records.now) }
{
    let mut ids = Vec::new(alloc);
    for row in records {
        ids.push(PairingId::new(row.id.try_clone(alloc)?))?;
    }
    Ok(ids)
}

/// Reads the ids of all members.
#[tactic(auto, using(crate::proofs::Causes::not_told, crate::proofs::Causes::no_memory))]
pub fn crew_ids_at<S: Alter>(
    alloc: Global,
    conn: &mut Connection<S>,
) -> Result<Vec<CrewId>, StoreFault>
    requires outside { IsOutside (state S.Store conn.old) }
    requires over { IsOverBook (state S.Store conn.old) }
    ensures { ReadsByKey (λ s found. AreJust (λ id. IsTrue (is_member s id)) found.items)
        (state S.Store conn.old) (state S.Store conn.new) result }
{
    let records = crew_rows(alloc, conn)?;
    match members_in(alloc, &records) {
        Ok(ids) => Ok(ids),
        Err(_) => Err(StoreFault::Memory),
    }
}

/// Reads the ids of all pairings.
#[tactic(auto, using(crate::proofs::Causes::not_told, crate::proofs::Causes::no_memory))]
pub fn pairing_ids_at<S: Alter>(
    alloc: Global,
    conn: &mut Connection<S>,
) -> Result<Vec<PairingId>, StoreFault>
    requires outside { IsOutside (state S.Store conn.old) }
    requires over { IsOverBook (state S.Store conn.old) }
    ensures { ReadsByKey (λ s found. AreJust (λ id. IsTrue (is_pairing s id)) found.items)
        (state S.Store conn.old) (state S.Store conn.new) result }
{
    let records = pairing_rows(alloc, conn)?;
    match pairings_in(alloc, &records) {
        Ok(ids) => Ok(ids),
        Err(_) => Err(StoreFault::Memory),
    }
}
