//! The pairings of a member that are near some spans. The records of their periods alone say which these are.
//! Through the program: `tests/answers.py`. Wrong bodies: `must-fail-more/`.

ghost use Rattle.std.specs.Prelude.{◌≡◌, ◌++◌, ◌∷◌, [], IfErr, IfOk, IsPermutation, MatchOption, OnOk, map};
ghost use Rattle.sqlite.specs.Held.{state};
ghost use Rattle.sqlite_value.specs.declared.value.Value.TheVariants as value;
ghost use Rattle.tables.specs.Records.{period_row, segment_row};
ghost use Rattle.tables.specs.Rows.{begins_with};
ghost use Rattle.state_rows.specs.Outcomes.{IsOutside, IsOverBook};
ghost use Rattle.state_rows.specs.Rows.{segment};
ghost use Rattle.entries.specs.Keyed.{AtInstants};
ghost use Rattle.roster.specs.Near.{AreHeldNear, with_free_seats};
ghost use Rattle.lookup.specs.Near as spec;
ghost use Rattle.lookup.specs.Near.{AreKnownSo, AreWithoutHolders, AreByPairing, HasPeriodRows, HavePeriodRows, IsWithoutHolders, ReadsHeld, ReadsKnown};
ghost use Rattle.lookup.specs.Reads.{ReadsByKey, ReadsRows};

use crate::pairing::as_store_fault;
use duty::{CrewId, PairingId, Span};
use entries::pairing_of_records;
use limits::is_reached;
use roster::PairingEntry;
use sqlite::{Alter, Connection};
use state_rows::StoreFault;
use std::alloc::Global;
use tables::period::{PeriodRecord, periods_held_by};
use tables::segment::{SegmentRecord, segments_of};
use time117::Minute;
use values::{MemoryFault, OrdMap, TryClone};

/// Reads the records of the periods of the pairings that a member holds.
#[tactic(auto, using(crate::proofs::NearReads::was_read, crate::proofs::NearReads::not_read, crate::proofs::ReadLemmas::holds_open))]
fn held_rows<S: Alter>(
    alloc: Global,
    conn: &mut Connection<S>,
    who: &str,
) -> Result<Vec<PeriodRecord>, StoreFault>
    requires outside { IsOutside (state S.Store conn.old) }
    requires over { IsOverBook (state S.Store conn.old) }
    ensures { ReadsHeld who.now (λ found. map period_row found.items) (state S.Store conn.old)
        (state S.Store conn.new) result }
{
    // The clause of this call says that outside a transaction what is shown is committed.
    let _settled = conn.is_autocommit();
    match periods_held_by(alloc, conn, who) {
        Ok(records) => Ok(records),
        Err(fault) => Err(StoreFault::from(fault)),
    }
}

/// Returns the times in force of a period, as flown or else as planned, if they are instants.
fn times_in_force(row: &PeriodRecord) -> Option<Span>
    ensures { MatchOption result (AtInstants row.now → ⊥)
        (λ times. times ≡ spec.times_in_force row.now) }
{
    let report = row.act_report.unwrap_or(row.report_at);
    let release = row.act_release.unwrap_or(row.release_at);
    Some(Span {
        from: Minute::from_number(report)?,
        to: Minute::from_number(release)?,
    })
}

/// Adds the id of a period's pairing to a list.
fn add_id(alloc: Global, ids: &mut Vec<PairingId>, row: &PeriodRecord) -> Result<(), MemoryFault>
    ensures { OnOk result (ids.new.items ≡ ids.old.items ++ row.now.pairing ∷ []) }
{
    ids.push(PairingId::new(row.pairing.try_clone(alloc)?))?;
    Ok(())
}

/// Returns the ids of the pairings of the periods that are near: a window may have a minute of one of the spans and of the
/// period. Times that are no instants are a fault of the store.
fn ids_near(
    alloc: Global,
    records: &[PeriodRecord],
    spans: &[Span],
) -> Result<Vec<PairingId>, StoreFault>
    ensures told { IfOk result (λ ids. ids.items ≡ spec.ids_near spans.now records.now) }
    ensures untold { IfErr result (λ fault. fault ≡ StoreFault.Store
        → spec.HasNoInstants records.now) }
{
    let mut ids = Vec::new(alloc);
    for row in records {
        let Some(times) = times_in_force(row) else {
            return Err(StoreFault::Store);
        };
        if is_reached(spans, times) {
            add_id(alloc, &mut ids, row)?;
        }
    }
    Ok(ids)
}

/// Puts records in the order of their pairings.
fn in_order(mut records: Vec<PeriodRecord>) -> Vec<PeriodRecord>
    ensures same { IsPermutation records.items result.items }
    ensures ordered { AreByPairing result.items }
{
    records.sort_unstable_by(|a, b| a.pairing.cmp(&b.pairing));
    records
}

/// Returns the records of a pairing among some in the order of their pairings.
fn records_of<'a>(records: &'a [PeriodRecord], id: &str) -> &'a [PeriodRecord]
    requires { AreByPairing records.now }
    ensures { result.now ≡ spec.records_of id.now records.now }
{
    let first = records.partition_point(|row| row.pairing.as_str() < id);
    let rest = &records[first..];
    let count = rest.partition_point(|row| row.pairing.as_str() <= id);
    &rest[..count]
}

/// Reads the records of the segments of a pairing.
#[tactic(auto, using(crate::proofs::ReadLemmas::was_read, crate::proofs::ReadLemmas::holds_open))]
fn segment_rows<S: Alter>(
    alloc: Global,
    conn: &mut Connection<S>,
    id: &str,
) -> Result<Vec<SegmentRecord>, StoreFault>
    requires outside { IsOutside (state S.Store conn.old) }
    requires over { IsOverBook (state S.Store conn.old) }
    ensures { ReadsRows segment (begins_with (value.Text id.now ∷ []))
        (λ found. map segment_row found.items) (state S.Store conn.old)
        (state S.Store conn.new) result }
{
    // The clause of this call says that outside a transaction what is shown is committed.
    let _settled = conn.is_autocommit();
    Ok(segments_of(alloc, conn, id)?)
}

/// Reads the pairing of an id, with its seats free. The records of its periods are at hand, and those of its segments are read.
#[tactic(auto, using(crate::proofs::NearPairings::not_free))]
fn free_pairing<S: Alter>(
    alloc: Global,
    conn: &mut Connection<S>,
    id: &PairingId,
    periods: &[PeriodRecord],
) -> Result<PairingEntry, StoreFault>
    requires outside { IsOutside (state S.Store conn.old) }
    requires over { IsOverBook (state S.Store conn.old) }
    ensures { ReadsKnown (λ s. HasPeriodRows s id.now periods.now) (λ s. IsWithoutHolders s id.now)
        (state S.Store conn.old) (state S.Store conn.new) result }
{
    let segments = segment_rows(alloc, conn, id.as_str())?;
    match pairing_of_records(alloc, id, periods, &segments) {
        Ok(free) => Ok(free),
        Err(fault) => Err(as_store_fault(fault)),
    }
}

/// Copies a pairing with its seats free.
fn without_holders(alloc: Global, pairing: &PairingEntry) -> Result<PairingEntry, MemoryFault>
    ensures { IfOk result (λ free. free ≡ with_free_seats pairing.now) }
{
    Ok(PairingEntry {
        plan: pairing.plan.try_clone(alloc)?,
        actuals: pairing.actuals.try_clone(alloc)?,
        captain: None,
        first_officer: None,
    })
}

/// Returns the pairing of an id with its seats free: a copy, if it is known, or else as it is read.
fn known_or_read<S: Alter>(
    alloc: Global,
    conn: &mut Connection<S>,
    known: &OrdMap<PairingId, PairingEntry>,
    id: &PairingId,
    periods: &[PeriodRecord],
) -> Result<PairingEntry, StoreFault>
    requires outside { IsOutside (state S.Store conn.old) }
    requires over { IsOverBook (state S.Store conn.old) }
    ensures { ReadsKnown (λ s. HasPeriodRows s id.now periods.now)
        (λ s free. AreKnownSo s known.now → IsWithoutHolders s id.now free)
        (state S.Store conn.old) (state S.Store conn.new) result }
{
    match known.get(id) {
        Some(pairing) => Ok(without_holders(alloc, pairing)?),
        None => free_pairing(alloc, conn, id, periods),
    }
}

/// Adds a pairing to a list.
fn add_pairing(found: &mut Vec<PairingEntry>, free: PairingEntry) -> Result<(), MemoryFault>
    ensures { OnOk result (found.new.items ≡ found.old.items ++ free ∷ []) }
{
    Ok(found.push(free)?)
}

/// Lists the pairings of some ids, each with its seats free; what is known isn't read. The records of their periods are among
/// some in the order of their pairings.
fn free_pairings<S: Alter>(
    alloc: Global,
    conn: &mut Connection<S>,
    known: &OrdMap<PairingId, PairingEntry>,
    ids: &[PairingId],
    records: &[PeriodRecord],
) -> Result<Vec<PairingEntry>, StoreFault>
    requires outside { IsOutside (state S.Store conn.old) }
    requires over { IsOverBook (state S.Store conn.old) }
    requires ordered { AreByPairing records.now }
    ensures { ReadsKnown (λ s. HavePeriodRows s ids.now records.now)
        (λ s found. AreKnownSo s known.now → AreWithoutHolders s ids.now found.items)
        (state S.Store conn.old)
        (state S.Store conn.new) result }
{
    let mut found = Vec::new(alloc);
    for id in ids {
        let periods = records_of(records, id.as_str());
        let free = known_or_read(alloc, conn, known, id, periods)?;
        add_pairing(&mut found, free)?;
    }
    Ok(found)
}

/// Lists the pairings that a member holds and that are near some spans, each with its seats free: a window may have a minute of
/// one of the spans and of one of the pairing's periods. Of a pairing that is far from them no more is read than its periods, and
/// of a near one its segments besides, unless it is known.
#[tactic(auto, using(crate::proofs::Causes::not_told))]
pub fn pairings_near_at<S: Alter>(
    alloc: Global,
    conn: &mut Connection<S>,
    who: &CrewId,
    spans: &[Span],
    known: &OrdMap<PairingId, PairingEntry>,
) -> Result<Vec<PairingEntry>, StoreFault>
    requires outside { IsOutside (state S.Store conn.old) }
    requires over { IsOverBook (state S.Store conn.old) }
    ensures { ReadsByKey (λ s found. AreKnownSo s known.now
        → AreHeldNear s spans.now who.now found.items)
        (state S.Store conn.old) (state S.Store conn.new) result }
{
    let records = in_order(held_rows(alloc, conn, who.as_str())?);
    let mut ids = ids_near(alloc, &records, spans)?;
    // The id of a pairing stands here once for each of its near periods, one beside the other.
    ids.dedup();
    free_pairings(alloc, conn, known, &ids, &records)
}
