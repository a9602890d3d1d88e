//! Outside periods, read by id and by member.
//! Through the program: `tests/answers.py`. Wrong bodies: `must-fail-more/`.

ghost use Rattle.std.specs.Prelude.{◌≡◌, IfErr, IfOk, map};
ghost use Rattle.std.specs.FinMap as fin;
ghost use Rattle.sqlite.specs.Held.{state};
ghost use Rattle.sqlite_value.specs.declared.value.Value.TheVariants as value;
ghost use Rattle.tables.specs.Records.{outside_row};
ghost use Rattle.tables.specs.Rows.{equals_at};
ghost use Rattle.state_rows.specs.Outcomes.{IsOutside, IsOverBook};
ghost use Rattle.state_rows.specs.Rows.{outside};
ghost use Rattle.roster.specs.Holding.{AreJust, IsOutsideOf};
ghost use Rattle.lookup.specs.Reads.{ReadsByKey, ReadsRows, HaveNone};
ghost use Rattle.lookup.specs.Outsides.{HasFirstOutside, ReadsOutside, outside_ids_in};

use crate::pairing::as_store_fault;
use duty::{CrewId, OutsideId};
use entries::outside_of_records;
use roster::OutsideEntry;
use sqlite::{Alter, Connection};
use state_rows::StoreFault;
use std::alloc::Global;
use tables::outside::{OutsideRecord, outside_by_id, outsides_by_crew};
use tables::outside_segment::{OutsideSegmentRecord, outside_segments_of};
use values::{MemoryFault, TryClone};

/// The records of one outside period; of one that isn't there, none.
#[derive(Drop)]
pub(crate) struct OutsideRecords {
    pub(crate) periods: Vec<OutsideRecord>,
    pub(crate) segments: Vec<OutsideSegmentRecord>,
}

/// Reads the records of a member's outside periods.
#[tactic(auto, using(crate::proofs::ReadLemmas::was_read, crate::proofs::ReadLemmas::not_read, crate::proofs::ReadLemmas::holds_open))]
fn crew_outside_rows<S: Alter>(
    alloc: Global,
    conn: &mut Connection<S>,
    who: &str,
) -> Result<Vec<OutsideRecord>, StoreFault>
    requires outside { IsOutside (state S.Store conn.old) }
    requires over { IsOverBook (state S.Store conn.old) }
    ensures { ReadsRows outside (equals_at 1 (value.Text who.now))
        (λ found. map outside_row found.items) (state S.Store conn.old)
        (state S.Store conn.new) result }
{
    // The clause of this call says that outside a transaction what is shown is committed.
    let _settled = conn.is_autocommit();
    match outsides_by_crew(alloc, conn, who) {
        Ok(records) => Ok(records),
        Err(fault) => Err(StoreFault::from(fault)),
    }
}

/// Reads the records of an outside period and of its segments. Without a record of `outside` there is no such period, and
/// nothing more is read.
#[tactic(auto, using(crate::proofs::ReadLemmas::holds_open))]
fn outside_rows<S: Alter>(
    alloc: Global,
    conn: &mut Connection<S>,
    id: &str,
) -> Result<OutsideRecords, StoreFault>
    requires outside { IsOutside (state S.Store conn.old) }
    requires over { IsOverBook (state S.Store conn.old) }
    ensures { ReadsOutside id.now (state S.Store conn.old) (state S.Store conn.new) result }
{
    // The clause of this call says that outside a transaction what is shown is committed.
    let _settled = conn.is_autocommit();
    let periods = outside_by_id(alloc, conn, id)?;
    if periods.is_empty() {
        return Ok(OutsideRecords {
            periods,
            segments: Vec::new(alloc),
        });
    }
    let segments = outside_segments_of(alloc, conn, id)?;
    Ok(OutsideRecords { periods, segments })
}

/// Returns the outside period that the first of some records gives, with the segments of some others.
#[tactic(auto, using(crate::proofs::OutsideLemmas::none_told, crate::proofs::OutsideLemmas::first_told, crate::proofs::OutsideLemmas::not_told))]
fn first_outside(
    alloc: Global,
    records: &[OutsideRecord],
    segments: &[OutsideSegmentRecord],
) -> Result<Option<OutsideEntry>, StoreFault>
    ensures told { IfOk result (HasFirstOutside records.now segments.now) }
    ensures unread { IfErr result
        (λ fault. fault ≡ StoreFault.Store → HaveNone (HasFirstOutside records.now segments.now)) }
{
    let Some(row) = records.first() else {
        return Ok(None);
    };
    match outside_of_records(alloc, row, segments) {
        Ok(outside) => Ok(Some(outside)),
        Err(fault) => Err(as_store_fault(fault)),
    }
}

/// Returns the ids of the outside periods that the records name.
fn ids_in(alloc: Global, records: &[OutsideRecord]) -> Result<Vec<OutsideId>, MemoryFault>
    ensures { IfOk result (λ ids. ids.items ≡ outside_ids_in records.now) }
{
    let mut ids = Vec::new(alloc);
    for row in records {
        ids.push(OutsideId::new(row.id.try_clone(alloc)?))?;
    }
    Ok(ids)
}

/// Reads the outside period of an id.
#[tactic(auto, using(crate::proofs::Causes::not_told))]
pub fn outside_at<S: Alter>(
    alloc: Global,
    conn: &mut Connection<S>,
    id: &OutsideId,
) -> Result<Option<OutsideEntry>, StoreFault>
    requires outside { IsOutside (state S.Store conn.old) }
    requires over { IsOverBook (state S.Store conn.old) }
    ensures { ReadsByKey (λ s found. found ≡ fin.get s.outsides id.now) (state S.Store conn.old)
        (state S.Store conn.new) result }
{
    let rows = outside_rows(alloc, conn, id.as_str())?;
    first_outside(alloc, &rows.periods, &rows.segments)
}

/// Reads the ids of a member's outside periods.
#[tactic(auto, using(crate::proofs::Causes::not_told, crate::proofs::Causes::no_memory))]
pub fn outsides_held_at<S: Alter>(
    alloc: Global,
    conn: &mut Connection<S>,
    who: &CrewId,
) -> Result<Vec<OutsideId>, StoreFault>
    requires outside { IsOutside (state S.Store conn.old) }
    requires over { IsOverBook (state S.Store conn.old) }
    ensures { ReadsByKey (λ s found. AreJust (IsOutsideOf s who.now) found.items)
        (state S.Store conn.old)
        (state S.Store conn.new) result }
{
    let records = crew_outside_rows(alloc, conn, who.as_str())?;
    match ids_in(alloc, &records) {
        Ok(ids) => Ok(ids),
        Err(_) => Err(StoreFault::Memory),
    }
}
