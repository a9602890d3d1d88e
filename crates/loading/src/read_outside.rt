//! The table `outside`, as it is loaded from a file of version 2. What is right is `IsOutsideRight`
//! (`specs/Right.antt` of `entries`).
//! Files with such a damage: `tests/tables.py`. Wrong bodies: `must-fail-more/`.

ghost use Rattle.std.specs.Prelude.{◌≡◌, ◌↔◌, length, map, true, IfOk, IsTrue, MatchResult};
ghost use Rattle.sqlite.specs.Held.{state};
ghost use Rattle.sqlite.specs.State.{HasCleanDisk};
ghost use Rattle.stored_json.specs.Instants.{is_instant};
ghost use Rattle.tables.specs.Records.{outside_row, IsOutsideRow};
ghost use Rattle.loading.specs.Loading.{Justifies};
ghost use Rattle.loading.specs.OutsideTables.{AreNoOutsides, AreOutsidesRead, AreRecorded, HasOutsides, IsKeyedOutside, OutsidesRead, is_there, row_of_keyed_outside};
ghost use Rattle.loading.specs.Reading.{AgreesIn, BlamesOrFails, HasRows, IsUnreadable, ReadsAs};
ghost use Rattle.entries.specs.Faults.{Blames};
ghost use Rattle.entries.specs.Mapping.{HasStranger, TellsOf};
ghost use Rattle.state_rows.specs.Requests.{Requests, with_requests};
ghost use Rattle.state_rows.specs.Rows.{crew_base, outside};
ghost use Rattle.state_rows.specs.declared.edition.Edition.TheVariants.{Second};
ghost use Rattle.entries.specs.declared.fault.TableName.TheVariants as table_name;

use duty::{CrewId, OutsideId};
use entries::{LoadFault, TableName};
use roster::{DutyId, Roster};
use sqlite::{Alter, Connection};
use std::alloc::Global;
use tables::book_schema::is_spared;
use tables::outside::{OutsideRecord, is_outside_there, load_outsides};
use time117::Minute;
use values::{MemoryFault, OrdMap, TryClone};

/// Reads the records of the table.
#[tactic(auto, using(crate::proofs::Telling::not_there, crate::proofs::Telling::no_memory))]
fn outside_records<S: Alter>(
    alloc: Global,
    conn: &mut Connection<S>,
) -> Result<Vec<OutsideRecord>, LoadFault>
    ensures { ReadsAs (λ found. HasRows outside (state S.Store conn.old).now
        (map outside_row found.items))
        (BlamesOrFails table_name.Outside (IsUnreadable outside IsOutsideRow
        (state S.Store conn.old).now))
        (state S.Store conn.old) (state S.Store conn.new) result }
{
    if !is_outside_there(alloc, conn)? || !is_spared(conn, "outside") {
        return Err(LoadFault::Damaged(TableName::Outside));
    }
    let loaded = load_outsides(alloc, conn);
    // The clause of this call says that an open connection shows a database.
    let _live = conn.schema();
    match loaded {
        Ok(records) => Ok(records),
        Err(fault) => Err(LoadFault::of_table(fault, TableName::Outside)),
    }
}

/// Returns whether a number is that of an instant.
fn is_minute(number: u32) -> bool
    ensures { IsTrue result ↔ (is_instant number ≡ true) }
{
    Minute::from_number(number).is_some()
}

/// Returns the id of a record that is at instants and of a member.
#[tactic(auto, using(crate::proofs::ReadOutside::bad_id, crate::proofs::ReadOutside::bad_report, crate::proofs::ReadOutside::bad_release, crate::proofs::ReadOutside::no_member))]
fn id_of(
    alloc: Global,
    roster: &Roster,
    row: &OutsideRecord,
) -> Result<Option<OutsideId>, MemoryFault>
    ensures { IfOk result (TellsOf (λ id it found. (found ≡ id) × (it ≡ row.now))
        row_of_keyed_outside (IsKeyedOutside roster.now.crew) (outside_row row.now)) }
{
    let id = OutsideId::new(row.id.try_clone(alloc)?);
    if !id.has_shape() {
        return Ok(None);
    }
    if !is_minute(row.report_at) {
        return Ok(None);
    }
    if !is_minute(row.release_at) {
        return Ok(None);
    }
    let crew = CrewId::new(row.crew.try_clone(alloc)?);
    if !roster.crew.contains(&crew) {
        return Ok(None);
    }
    Ok(Some(id))
}

/// Puts the records under their ids.
fn by_ids(
    alloc: Global,
    roster: &Roster,
    records: &[OutsideRecord],
) -> Result<OrdMap<OutsideId, OutsideRecord>, LoadFault>
    ensures { MatchResult result (OutsidesRead roster.now.crew records.now (length records.now))
        (Blames table_name.Outside (HasStranger row_of_keyed_outside
        (IsKeyedOutside roster.now.crew) (map outside_row records.now))) }
{
    let mut outsides = OrdMap::new(alloc);
    for row in records {
        let Some(id) = id_of(alloc, roster, row)? else {
            return Err(LoadFault::Damaged(TableName::Outside));
        };
        outsides.insert(id, row.try_clone(alloc)?)?;
    }
    Ok(outsides)
}

/// Returns whether there is a record of the duty, if it is an outside period.
fn is_there(outsides: &OrdMap<OutsideId, OutsideRecord>, named: &DutyId) -> bool
    ensures { result ≡ is_there outsides.now named.now }
{
    match named {
        DutyId::Period(_) => true,
        DutyId::Outside(id) => outsides.contains(id),
    }
}

/// Returns whether there is a record of each outside period that an exceedance names.
fn are_recorded(roster: &Roster, outsides: &OrdMap<OutsideId, OutsideRecord>) -> bool
    ensures { IsTrue result ↔ AreRecorded roster.now outsides.now }
{
    roster
        .exceedances
        .iter()
        .all(|(_, named)| is_there(outsides, named))
}

/// Puts the records under their ids, where each outside period that an exceedance names has one.
#[tactic(auto, using(crate::proofs::ReadOutside::outside_stranger, crate::proofs::ReadOutside::not_all_recorded))]
fn all_by_ids(
    alloc: Global,
    roster: &Roster,
    records: &[OutsideRecord],
) -> Result<OrdMap<OutsideId, OutsideRecord>, LoadFault>
    ensures { MatchResult result (AreOutsidesRead roster.now records.now)
        (Blames table_name.Outside (AreNoOutsides roster.now records.now)) }
{
    let outsides = by_ids(alloc, roster, records)?;
    if !are_recorded(roster, &outsides) {
        return Err(LoadFault::Damaged(TableName::Outside));
    }
    Ok(outsides)
}

/// Reads the records of the outside periods of a roster that has the members and exceedances.
pub(crate) fn read_outside<S: Alter>(
    alloc: Global,
    conn: &mut Connection<S>,
    roster: &Roster,
) -> Result<OrdMap<OutsideId, OutsideRecord>, LoadFault>
    requires { (kept : Requests) × (HasCleanDisk (state S.Store conn.old)
        → AgreesIn Second crew_base (with_requests kept roster.now) (state S.Store conn.old).now) }
    ensures { (kept : Requests) × ReadsAs (λ found. AgreesIn Second outside
        (with_requests kept roster.now) (state S.Store conn.old).now
        × HasOutsides roster.now (state S.Store conn.old).now found)
        (λ fault. Justifies fault (state S.Store conn.old).now) (state S.Store conn.old)
        (state S.Store conn.new) result }
{
    let records = outside_records(alloc, conn)?;
    all_by_ids(alloc, roster, &records)
}
