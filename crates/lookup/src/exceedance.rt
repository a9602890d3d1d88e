//! The exceedances of the book.
//! Through the program: `tests/reports.py`. Wrong bodies: `must-fail-more/`.

ghost use Rattle.std.specs.Prelude.{◌≡◌, [], length, map, IfErr, IfOk};
ghost use Rattle.sqlite.specs.Held.{state};
ghost use Rattle.tables.specs.Records.{exceedance_row};
ghost use Rattle.tables.specs.Rows.{begins_with};
ghost use Rattle.entries.specs.Mapping.{HasStranger};
ghost use Rattle.entries.specs.Exceedances.{row_of_recorded};
ghost use Rattle.state_rows.specs.Outcomes.{IsOutside};
ghost use Rattle.state_rows.specs.Rows.{exceedance};
ghost use Rattle.lookup.specs.Reads.{ReadsByKey, ReadsRows};
ghost use Rattle.lookup.specs.Recorded.{AreRead, AreInRange, IsStrange, TellsRecorded};

use duty::CrewId;
use entries::{duty_of, key_of, section_of};
use roster::{DutyId, ExceedanceId};
use sqlite::{Alter, Connection};
use state_rows::StoreFault;
use std::alloc::Global;
use tables::exceedance::{ExceedanceRecord, exceedances, is_exceedance_there};
use values::{OrdMap, TryClone};

/// An exceedance that a record gives.
#[derive(Drop)]
struct FoundExceedance {
    id: ExceedanceId,
    named: DutyId,
}

/// Reads the records of the table.
#[tactic(auto, using(crate::proofs::RecordedLemmas::was_ordered, crate::proofs::RecordedLemmas::not_ordered, crate::proofs::RecordedLemmas::not_tried, crate::proofs::RecordedLemmas::not_there))]
fn exceedance_rows<S: Alter>(
    alloc: Global,
    conn: &mut Connection<S>,
) -> Result<Vec<ExceedanceRecord>, StoreFault>
    requires { IsOutside (state S.Store conn.old) }
    ensures { ReadsRows exceedance (begins_with []) (λ found. map exceedance_row found.items)
        (state S.Store conn.old) (state S.Store conn.new) result }
{
    // The clause of this call says that outside a transaction what is shown is committed.
    let _settled = conn.is_autocommit();
    if !is_exceedance_there(alloc, conn)? {
        return Err(StoreFault::Store);
    }
    match exceedances(alloc, conn) {
        Ok(records) => Ok(records),
        Err(fault) => Err(StoreFault::from(fault)),
    }
}

/// Returns the exceedance that a record gives.
#[tactic(auto, using(crate::proofs::RecordedLemmas::row_is, crate::proofs::RecordedLemmas::no_key, crate::proofs::RecordedLemmas::no_section, crate::proofs::RecordedLemmas::no_duty))]
fn exceedance_of_row(alloc: Global, row: &ExceedanceRecord) -> Result<FoundExceedance, StoreFault>
    ensures told { IfOk result (λ it. TellsRecorded row.now it.id it.named) }
    ensures unread { IfErr result (λ fault. fault ≡ StoreFault.Store → IsStrange row.now) }
{
    let Some(key) = key_of(row.number, row.part) else {
        return Err(StoreFault::Store);
    };
    let Some(section) = section_of(row.section) else {
        return Err(StoreFault::Store);
    };
    let Some(named) = duty_of(alloc, &row.pairing, row.period)? else {
        return Err(StoreFault::Store);
    };
    let crew = CrewId::new(row.crew.try_clone(alloc)?);
    Ok(FoundExceedance {
        id: ExceedanceId { key, crew, section },
        named,
    })
}

/// Returns the exceedances that the records give.
#[tactic(auto, using(crate::proofs::RecordedLemmas::stranger_at))]
fn exceedances_of_rows(
    alloc: Global,
    records: &[ExceedanceRecord],
) -> Result<OrdMap<ExceedanceId, DutyId>, StoreFault>
    ensures told { IfOk result (AreRead records.now (length records.now)) }
    ensures unread { IfErr result (λ fault. fault ≡ StoreFault.Store
        → HasStranger row_of_recorded AreInRange (map exceedance_row records.now)) }
{
    let mut all = OrdMap::new(alloc);
    for row in records {
        let FoundExceedance { id, named } = exceedance_of_row(alloc, row)?;
        all.insert(id, named)?;
    }
    Ok(all)
}

/// Reads all exceedances.
#[tactic(auto, using(crate::proofs::Causes::not_told))]
pub fn exceedances_at<S: Alter>(
    alloc: Global,
    conn: &mut Connection<S>,
) -> Result<OrdMap<ExceedanceId, DutyId>, StoreFault>
    requires { IsOutside (state S.Store conn.old) }
    ensures { ReadsByKey (λ s found. found ≡ s.exceedances) (state S.Store conn.old)
        (state S.Store conn.new) result }
{
    let records = exceedance_rows(alloc, conn)?;
    exceedances_of_rows(alloc, &records)
}
