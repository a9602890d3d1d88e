//! The table `pairing`, as it is loaded, with what the tables `period` and `segment` say of each pairing.
//! Files with such a damage: `tests/tables.py`. Wrong bodies: `must-fail-more/`.

ghost use Rattle.std.specs.Prelude.{◌≡◌, length, map, IfOk, MatchResult};
ghost use Rattle.std.specs.FinMap as fin;
ghost use Rattle.sqlite.specs.Held.{state};
ghost use Rattle.sqlite.specs.State.{HasCleanDisk};
ghost use Rattle.tables.specs.Records.{pairing_row, IsPairingRow};
ghost use Rattle.loading.specs.PlanTables.{AreIds, HasIds, HasUntold, IdsRead, IsId, PairingsRead, row_of_id};
ghost use Rattle.loading.specs.Loading.{Justifies};
ghost use Rattle.entries.specs.PlanRows.{AreUngapped, HasNoGaps};
ghost use Rattle.loading.specs.Reading.{HaveNoHolders, ReadsAs, HasRows, IsUnreadable, BlamesOrFails, AgreesThrough};
ghost use Rattle.entries.specs.Faults.{Blames};
ghost use Rattle.entries.specs.Mapping.{HasStranger};
ghost use Rattle.state_rows.specs.Rows.{crew, pairing, segment};
ghost use Rattle.entries.specs.declared.fault.TableName.TheVariants as table_name;

use crate::given_back::given_back;
use crate::read_periods::read_periods;
use crate::read_segments::read_segments;
use duty::PairingId;
use entries::{LoadFault, PlanRows, TableName, pairing_of};
use roster::{Entry, Roster};
use sqlite::{Alter, Connection};
use std::alloc::Global;
use tables::book_schema::is_spared;
use tables::pairing::{PairingRecord, is_pairing_there, load_pairings};
use values::{OrdMap, TryClone};

/// Reads the records of the table.
#[tactic(auto, using(crate::proofs::Telling::not_there, crate::proofs::Telling::no_memory))]
fn pairing_records<S: Alter>(
    alloc: Global,
    conn: &mut Connection<S>,
) -> Result<Vec<PairingRecord>, LoadFault>
    ensures { ReadsAs
        (λ found. HasRows pairing (state S.Store conn.old).now (map pairing_row found.items))
        (BlamesOrFails table_name.Pairing
        (IsUnreadable pairing IsPairingRow (state S.Store conn.old).now))
        (state S.Store conn.old) (state S.Store conn.new) result }
{
    if !is_pairing_there(alloc, conn)? || !is_spared(conn, "pairing") {
        return Err(LoadFault::Damaged(TableName::Pairing));
    }
    let loaded = load_pairings(alloc, conn);
    // The clause of this call says that an open connection shows a database.
    let _live = conn.schema();
    match loaded {
        Ok(records) => Ok(records),
        Err(fault) => Err(LoadFault::of_table(fault, TableName::Pairing)),
    }
}

/// Collects the ids of the records, each of which has to have its shape.
fn ids_of(alloc: Global, records: &[PairingRecord]) -> Result<OrdMap<PairingId, ()>, LoadFault>
    ensures { MatchResult result (IdsRead records.now (length records.now))
        (Blames table_name.Pairing (HasStranger row_of_id IsId (map pairing_row records.now))) }
{
    let mut ids = OrdMap::new(alloc);
    for row in records {
        let id = PairingId::new(row.id.try_clone(alloc)?);
        if !id.has_shape() {
            return Err(LoadFault::Damaged(TableName::Pairing));
        }
        ids.insert(id, ())?;
    }
    Ok(ids)
}

/// Reads the ids of the pairings.
fn read_ids<S: Alter>(
    alloc: Global,
    conn: &mut Connection<S>,
) -> Result<OrdMap<PairingId, ()>, LoadFault>
    ensures { ReadsAs (HasIds (state S.Store conn.old).now)
        (BlamesOrFails table_name.Pairing (AreIds (state S.Store conn.old).now → ⊥))
        (state S.Store conn.old) (state S.Store conn.new) result }
{
    let records = pairing_records(alloc, conn)?;
    ids_of(alloc, &records)
}

/// Sets the pairings of these ids, as the rows give them.
fn add_pairings(
    alloc: Global,
    roster: &mut Roster,
    ids: &OrdMap<PairingId, ()>,
    rows: &PlanRows,
) -> Result<(), LoadFault>
    requires none { roster.old.pairings ≡ fin.empty }
    requires periods { AreUngapped rows.now.periods }
    requires segments { HasNoGaps rows.now.segments }
    ensures { MatchResult result
        (λ _. PairingsRead ids.now rows.now.periods rows.now.segments roster.old roster.new)
        (Blames table_name.Segment (HasUntold ids.now rows.now.periods rows.now.segments)) }
{
    for (id, _) in ids.iter() {
        let pairing = pairing_of(alloc, rows, id)?;
        roster.put(alloc, Entry::Pairing(pairing))?;
    }
    Ok(())
}

/// Reads the pairings, with their periods and segments, into a roster that has none. No seat of theirs is held.
pub(crate) fn read_pairings<S: Alter>(
    alloc: Global,
    conn: &mut Connection<S>,
    roster: Roster,
) -> Result<Roster, LoadFault>
    requires none { roster.pairings ≡ fin.empty }
    requires above { HasCleanDisk (state S.Store conn.old)
        → AgreesThrough crew roster (state S.Store conn.old).now }
    ensures read { ReadsAs (λ r. AgreesThrough segment r (state S.Store conn.old).now
        × (r ≡ record roster { pairings = r.pairings }) × HaveNoHolders r)
        (λ fault. Justifies fault (state S.Store conn.old).now) (state S.Store conn.old)
        (state S.Store conn.new) result }
    ensures rest { IfOk result (λ r. r ≡ record roster { pairings = r.pairings }) }
    ensures free { IfOk result HaveNoHolders }
{
    let ids = read_ids(alloc, conn)?;
    let periods = read_periods(alloc, conn, &ids)?;
    let segments = read_segments(alloc, conn, &periods)?;
    let mut roster = roster;
    let done = add_pairings(alloc, &mut roster, &ids, &PlanRows { periods, segments });
    given_back(roster, done)
}
