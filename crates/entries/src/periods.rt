//! The records of the table `period` by their keys.
//! Files with such a damage: `tests/tables.py`. Wrong bodies: `must-fail-more/`.

ghost use Rattle.std.specs.Prelude.{◌≡◌, ◌↔◌, length, map, true, IfOk, IsTrue, MatchResult};
ghost use Rattle.std.specs.FinMap as fin;
ghost use Rattle.stored_json.specs.Instants.{is_instant};
ghost use Rattle.tables.specs.Records.{period_row};
ghost use Rattle.entries.specs.Keyed.{ArePeriodsWanting, ArePeriodsWhole, AtInstants, Follows, IsKeyedPeriod, PeriodsRead, row_of_keyed_period};
ghost use Rattle.entries.specs.Right.{IsInstantIfAny};
ghost use Rattle.entries.specs.PlanRows.{period_name, AreUngapped};
ghost use Rattle.entries.specs.Faults.{Blames};
ghost use Rattle.entries.specs.Mapping.{TellsOf, HasStranger};
ghost use Rattle.entries.specs.declared.fault.TableName.TheVariants as table_name;

use crate::fault::{LoadFault, TableName};
use crate::plan_rows::PeriodKey;
use duty::PairingId;
use std::alloc::Global;
use tables::period::PeriodRecord;
use time117::Minute;
use values::{MemoryFault, OrdMap, TryClone};

/// Returns whether a number is that of an instant.
fn is_minute(number: u32) -> bool
    ensures { IsTrue result ↔ (is_instant number ≡ true) }
{
    Minute::from_number(number).is_some()
}

/// Returns whether a number is that of an instant, if it is there.
fn is_minute_if_any(number: Option<u32>) -> bool
    ensures { IsTrue result ↔ IsInstantIfAny number }
{
    match number {
        Some(number) => is_minute(number),
        None => true,
    }
}

/// Returns whether the times of a period are instants.
fn is_at_instants(row: &PeriodRecord) -> bool
    ensures { IsTrue result ↔ AtInstants row.now }
{
    is_minute(row.report_at)
        && is_minute(row.release_at)
        && is_minute_if_any(row.act_report)
        && is_minute_if_any(row.act_release)
}

#[tactic(auto, using(crate::proofs::KeyedPeriods::not_at_instants, crate::proofs::KeyedPeriods::no_pairing))]
/// Returns the key of a record that is at instants and of one of these pairings.
fn key_of(
    alloc: Global,
    ids: &OrdMap<PairingId, ()>,
    row: &PeriodRecord,
) -> Result<Option<PeriodKey>, MemoryFault>
    ensures { IfOk result (TellsOf (λ key it found. (found ≡ key) × (it ≡ row.now))
        row_of_keyed_period (IsKeyedPeriod ids.now) (period_row row.now)) }
{
    let pairing = PairingId::new(row.pairing.try_clone(alloc)?);
    let number = row.number;
    if !is_at_instants(row) || !ids.contains(&pairing) {
        return Ok(None);
    }
    Ok(Some(PeriodKey { pairing, number }))
}

/// Puts the records under their keys.
fn by_keys(
    alloc: Global,
    ids: &OrdMap<PairingId, ()>,
    records: &[PeriodRecord],
) -> Result<OrdMap<PeriodKey, PeriodRecord>, LoadFault>
    ensures { MatchResult result (PeriodsRead ids.now records.now (length records.now))
        (Blames table_name.Period
        (HasStranger row_of_keyed_period (IsKeyedPeriod ids.now) (map period_row records.now))) }
{
    let mut periods = OrdMap::new(alloc);
    for row in records {
        let Some(key) = key_of(alloc, ids, row)? else {
            return Err(LoadFault::Damaged(TableName::Period));
        };
        periods.insert(key, row.try_clone(alloc)?)?;
    }
    Ok(periods)
}

/// Returns whether a period is the first of its pairing, or the one before it is there.
fn follows(
    alloc: Global,
    periods: &OrdMap<PeriodKey, PeriodRecord>,
    key: &PeriodKey,
) -> Result<bool, MemoryFault>
    ensures { IfOk result (λ yes. IsTrue yes ↔ Follows
        (λ number. fin.get periods.now (period_name key.now.pairing number)) key.now.number) }
{
    match key.number {
        0 => Ok(false),
        1 => Ok(true),
        number => {
            let before = PeriodKey {
                pairing: key.pairing.try_clone(alloc)?,
                number: number - 1,
            };
            Ok(periods.contains(&before))
        }
    }
}

/// Returns whether the periods of each pairing are numbered from 1 without a gap.
fn are_ungapped(
    alloc: Global,
    periods: &OrdMap<PeriodKey, PeriodRecord>,
) -> Result<bool, MemoryFault>
    ensures { IfOk result (λ yes. IsTrue yes ↔ AreUngapped periods.now) }
{
    for (key, _) in periods.iter() {
        if !follows(alloc, periods, key)? {
            return Ok(false);
        }
    }
    Ok(true)
}

/// Puts the records under their keys, numbered without a gap.
pub fn all_by_keys(
    alloc: Global,
    ids: &OrdMap<PairingId, ()>,
    records: &[PeriodRecord],
) -> Result<OrdMap<PeriodKey, PeriodRecord>, LoadFault>
    ensures { MatchResult result (ArePeriodsWhole ids.now records.now (length records.now))
        (Blames table_name.Period (ArePeriodsWanting ids.now records.now (length records.now))) }
{
    let periods = by_keys(alloc, ids, records)?;
    if !are_ungapped(alloc, &periods)? {
        return Err(LoadFault::Damaged(TableName::Period));
    }
    Ok(periods)
}
