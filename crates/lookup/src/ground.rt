//! Ground duties, read by id and by member.
//! Through the program: `tests/answers.py`. Wrong bodies: `must-fail-more/`.

ghost use Rattle.std.specs.Prelude.{◌≡◌, IfErr, IfOk, [], ◌∷◌, map};
ghost use Rattle.std.specs.FinMap as fin;
ghost use Rattle.sqlite.specs.Held.{state};
ghost use Rattle.sqlite_value.specs.declared.value.Value.TheVariants as value;
ghost use Rattle.tables.specs.Records.{ground_row};
ghost use Rattle.tables.specs.Rows.{begins_with, equals_at};
ghost use Rattle.state_rows.specs.Outcomes.{IsOutside, IsOverBook};
ghost use Rattle.state_rows.specs.Rows.{ground_duty};
ghost use Rattle.roster.specs.Holding.{AreJust, IsGroundOf};
ghost use Rattle.lookup.specs.Reads.{ReadsByKey, ReadsRows, HaveNone};
ghost use Rattle.lookup.specs.Entries.{HasFirstGround, ground_ids_in};

use duty::{CrewId, Ground, GroundId};
use sqlite::{Alter, Connection};
use state_rows::StoreFault;
use std::alloc::Global;
use tables::ground::{GroundRecord, ground_by_id, grounds_by_crew};
use time117::Minute;
use values::{MemoryFault, TryClone};

/// Reads the records of the ground duties with this id.
#[tactic(auto, using(crate::proofs::ReadLemmas::was_read, crate::proofs::ReadLemmas::not_read, crate::proofs::ReadLemmas::holds_open))]
fn ground_rows<S: Alter>(
    alloc: Global,
    conn: &mut Connection<S>,
    id: &str,
) -> Result<Vec<GroundRecord>, StoreFault>
    requires outside { IsOutside (state S.Store conn.old) }
    requires over { IsOverBook (state S.Store conn.old) }
    ensures { ReadsRows ground_duty (begins_with (value.Text id.now ∷ []))
        (λ found. map ground_row found.items) (state S.Store conn.old)
        (state S.Store conn.new) result }
{
    // The clause of this call says that outside a transaction what is shown is committed.
    let _settled = conn.is_autocommit();
    match ground_by_id(alloc, conn, id) {
        Ok(records) => Ok(records),
        Err(fault) => Err(StoreFault::from(fault)),
    }
}

/// Reads the records of a member's ground duties.
#[tactic(auto, using(crate::proofs::ReadLemmas::was_read, crate::proofs::ReadLemmas::not_read, crate::proofs::ReadLemmas::holds_open))]
fn crew_ground_rows<S: Alter>(
    alloc: Global,
    conn: &mut Connection<S>,
    who: &str,
) -> Result<Vec<GroundRecord>, StoreFault>
    requires outside { IsOutside (state S.Store conn.old) }
    requires over { IsOverBook (state S.Store conn.old) }
    ensures { ReadsRows ground_duty (equals_at 1 (value.Text who.now))
        (λ found. map ground_row found.items) (state S.Store conn.old)
        (state S.Store conn.new) result }
{
    // The clause of this call says that outside a transaction what is shown is committed.
    let _settled = conn.is_autocommit();
    match grounds_by_crew(alloc, conn, who) {
        Ok(records) => Ok(records),
        Err(fault) => Err(StoreFault::from(fault)),
    }
}

/// Returns the ground duty that the first of some records gives.
#[tactic(auto, using(crate::proofs::RightEntries::no_begin, crate::proofs::RightEntries::no_end, crate::proofs::RightEntries::no_ground))]
fn first_ground(alloc: Global, records: &[GroundRecord]) -> Result<Option<Ground>, StoreFault>
    ensures told { IfOk result (HasFirstGround records.now) }
    ensures unread { IfErr result
        (λ fault. fault ≡ StoreFault.Store → HaveNone (HasFirstGround records.now)) }
{
    let Some(row) = records.first() else {
        return Ok(None);
    };
    let Some(begin) = Minute::from_number(row.begin_at) else {
        return Err(StoreFault::Store);
    };
    let Some(end) = Minute::from_number(row.end_at) else {
        return Err(StoreFault::Store);
    };
    let id = GroundId::new(row.id.try_clone(alloc)?);
    let crew = CrewId::new(row.crew.try_clone(alloc)?);
    let task = row.task.try_clone(alloc)?;
    match Ground::new(id, crew, begin, end, task) {
        Ok(ground) => Ok(Some(ground)),
        Err(_) => Err(StoreFault::Store),
    }
}

/// Returns the ids of the ground duties that the records name.
fn ids_in(alloc: Global, records: &[GroundRecord]) -> Result<Vec<GroundId>, MemoryFault>
    ensures { IfOk result (λ ids. ids.items ≡ ground_ids_in records.now) }
{
    let mut ids = Vec::new(alloc);
    for row in records {
        ids.push(GroundId::new(row.id.try_clone(alloc)?))?;
    }
    Ok(ids)
}

/// Reads the ground duty of an id.
#[tactic(auto, using(crate::proofs::Causes::not_told))]
pub fn ground_at<S: Alter>(
    alloc: Global,
    conn: &mut Connection<S>,
    id: &GroundId,
) -> Result<Option<Ground>, StoreFault>
    requires outside { IsOutside (state S.Store conn.old) }
    requires over { IsOverBook (state S.Store conn.old) }
    ensures { ReadsByKey (λ s found. found ≡ fin.get s.grounds id.now) (state S.Store conn.old)
        (state S.Store conn.new) result }
{
    let records = ground_rows(alloc, conn, id.as_str())?;
    first_ground(alloc, &records)
}

/// Reads the ids of a member's ground duties.
#[tactic(auto, using(crate::proofs::Causes::not_told, crate::proofs::Causes::no_memory))]
pub fn grounds_held_at<S: Alter>(
    alloc: Global,
    conn: &mut Connection<S>,
    who: &CrewId,
) -> Result<Vec<GroundId>, StoreFault>
    requires outside { IsOutside (state S.Store conn.old) }
    requires over { IsOverBook (state S.Store conn.old) }
    ensures { ReadsByKey (λ s found. AreJust (IsGroundOf s who.now) found.items)
        (state S.Store conn.old)
        (state S.Store conn.new) result }
{
    let records = crew_ground_rows(alloc, conn, who.as_str())?;
    match ids_in(alloc, &records) {
        Ok(ids) => Ok(ids),
        Err(_) => Err(StoreFault::Memory),
    }
}
