//! The pairings that a member holds.
//! Through the program: `tests/answers.py`. Wrong bodies: `must-fail-more/`.

ghost use Rattle.std.specs.Prelude.{◌≡◌, IfOk, map};
ghost use Rattle.sqlite.specs.Held.{state};
ghost use Rattle.sqlite_value.specs.declared.value.Value.TheVariants as value;
ghost use Rattle.tables.specs.Records.{seat_row};
ghost use Rattle.tables.specs.Rows.{equals_at};
ghost use Rattle.state_rows.specs.Outcomes.{IsOutside, IsOverBook};
ghost use Rattle.state_rows.specs.Rows.{seat};
ghost use Rattle.roster.specs.Holding.{AreJust, IsHeldBy};
ghost use Rattle.lookup.specs.Reads.{ReadsByKey, ReadsRows, ids_in};

use duty::{CrewId, PairingId};
use sqlite::{Alter, Connection};
use state_rows::StoreFault;
use std::alloc::Global;
use tables::seat::{SeatRecord, seats_by_crew};
use values::{MemoryFault, TryClone};

/// Reads the records of the seats that a member holds.
#[tactic(auto, using(crate::proofs::ReadLemmas::was_read, crate::proofs::ReadLemmas::not_read, crate::proofs::ReadLemmas::holds_open))]
fn seat_rows<S: Alter>(
    alloc: Global,
    conn: &mut Connection<S>,
    who: &str,
) -> Result<Vec<SeatRecord>, StoreFault>
    requires outside { IsOutside (state S.Store conn.old) }
    requires over { IsOverBook (state S.Store conn.old) }
    ensures { ReadsRows seat (equals_at 2 (value.Text who.now)) (λ found. map seat_row found.items)
        (state S.Store conn.old) (state S.Store conn.new) result }
{
    // The clause of this call says that outside a transaction what is shown is committed.
    let _settled = conn.is_autocommit();
    match seats_by_crew(alloc, conn, who) {
        Ok(records) => Ok(records),
        Err(fault) => Err(StoreFault::from(fault)),
    }
}

/// Returns the ids of the pairings that the records name.
fn ids_in(alloc: Global, records: &[SeatRecord]) -> Result<Vec<PairingId>, MemoryFault>
    ensures { IfOk result (λ ids. ids.items ≡ ids_in records.now) }
{
    let mut ids = Vec::new(alloc);
    for row in records {
        ids.push(PairingId::new(row.pairing.try_clone(alloc)?))?;
    }
    Ok(ids)
}

/// Reads the ids of the pairings that a member holds.
#[tactic(auto, using(crate::proofs::Causes::not_told, crate::proofs::Causes::no_memory))]
pub fn pairings_held_at<S: Alter>(
    alloc: Global,
    conn: &mut Connection<S>,
    who: &CrewId,
) -> Result<Vec<PairingId>, StoreFault>
    requires outside { IsOutside (state S.Store conn.old) }
    requires over { IsOverBook (state S.Store conn.old) }
    ensures { ReadsByKey (λ s found. AreJust (IsHeldBy s who.now) found.items)
        (state S.Store conn.old)
        (state S.Store conn.new) result }
{
    let records = seat_rows(alloc, conn, who.as_str())?;
    match ids_in(alloc, &records) {
        Ok(ids) => Ok(ids),
        Err(_) => Err(StoreFault::Memory),
    }
}
