//! The table `outside_segment`, as it is loaded from a file of version 2, and the outside periods that it gives with the
//! table `outside`. What is right is `IsOutsideSegmentRight` (`specs/Right.antt` of `entries`).
//! Files with such a damage: `tests/tables.py`. Wrong bodies: `must-fail-more/`.

ghost use Rattle.std.specs.Prelude.{map, MatchResult};
ghost use Rattle.sqlite.specs.Held.{state};
ghost use Rattle.sqlite.specs.State.{HasCleanDisk};
ghost use Rattle.tables.specs.Records.{outside_segment_row, IsOutsideSegmentRow};
ghost use Rattle.loading.specs.Loading.{Justifies};
ghost use Rattle.loading.specs.OutsideTables.{AreOutsidesSet, AreOutsidesUnset, HasOutsides};
ghost use Rattle.loading.specs.Reading.{AgreesIn, BlamesOrFails, HasRows, IsUnreadable, ReadsAs};
ghost use Rattle.entries.specs.Faults.{Blames};
ghost use Rattle.state_rows.specs.Requests.{Requests, with_requests};
ghost use Rattle.state_rows.specs.Rows.{outside, outside_segment};
ghost use Rattle.state_rows.specs.declared.edition.Edition.TheVariants.{Second};
ghost use Rattle.entries.specs.declared.fault.TableName.TheVariants as table_name;

use crate::given_back::given_back;
use duty::OutsideId;
use entries::outside_segments::{all_by_keys, make_all};
use entries::{LoadFault, TableName};
use roster::Roster;
use sqlite::{Alter, Connection};
use std::alloc::Global;
use tables::book_schema::is_spared;
use tables::outside::OutsideRecord;
use tables::outside_segment::{
    OutsideSegmentRecord, is_outside_segment_there, load_outside_segments,
};
use values::OrdMap;

/// Reads the records of the table.
#[tactic(auto, using(crate::proofs::Telling::not_there, crate::proofs::Telling::no_memory))]
fn outside_segment_records<S: Alter>(
    alloc: Global,
    conn: &mut Connection<S>,
) -> Result<Vec<OutsideSegmentRecord>, LoadFault>
    ensures { ReadsAs (λ found. HasRows outside_segment (state S.Store conn.old).now
        (map outside_segment_row found.items))
        (BlamesOrFails table_name.OutsideSegment (IsUnreadable outside_segment IsOutsideSegmentRow
        (state S.Store conn.old).now))
        (state S.Store conn.old) (state S.Store conn.new) result }
{
    if !is_outside_segment_there(alloc, conn)? || !is_spared(conn, "outside_segment") {
        return Err(LoadFault::Damaged(TableName::OutsideSegment));
    }
    let loaded = load_outside_segments(alloc, conn);
    // The clause of this call says that an open connection shows a database.
    let _live = conn.schema();
    match loaded {
        Ok(records) => Ok(records),
        Err(fault) => Err(LoadFault::of_table(fault, TableName::OutsideSegment)),
    }
}

/// Sets the outside periods that their records and those of their segments give.
fn set_outsides(
    alloc: Global,
    roster: &mut Roster,
    outsides: &OrdMap<OutsideId, OutsideRecord>,
    records: &[OutsideSegmentRecord],
) -> Result<(), LoadFault>
    ensures { MatchResult result
        (λ _. AreOutsidesSet outsides.now records.now roster.old roster.new)
        (Blames table_name.OutsideSegment (AreOutsidesUnset outsides.now records.now)) }
{
    let segments = all_by_keys(alloc, outsides, records)?;
    let made = make_all(alloc, outsides, &segments)?;
    roster.outsides = made;
    Ok(())
}

/// Reads the outside periods into a roster, by their records, which were read.
pub(crate) fn read_outside_segment<S: Alter>(
    alloc: Global,
    conn: &mut Connection<S>,
    roster: Roster,
    outsides: &OrdMap<OutsideId, OutsideRecord>,
) -> Result<Roster, LoadFault>
    requires above { (kept : Requests) × (HasCleanDisk (state S.Store conn.old)
        → AgreesIn Second outside (with_requests kept roster) (state S.Store conn.old).now) }
    requires found { HasCleanDisk (state S.Store conn.old)
        → HasOutsides roster (state S.Store conn.old).now outsides.now }
    ensures { (kept : Requests) × ReadsAs (λ r. AgreesIn Second outside_segment
        (with_requests kept r) (state S.Store conn.old).now)
        (λ fault. Justifies fault (state S.Store conn.old).now) (state S.Store conn.old)
        (state S.Store conn.new) result }
{
    let records = outside_segment_records(alloc, conn)?;
    let mut roster = roster;
    let done = set_outsides(alloc, &mut roster, outsides, &records);
    given_back(roster, done)
}
