//! Entries that are set in a roster, as one who reads it from a file does.

use crate::allocation::machine::{empty, last_state};
use crate::allocation::reports::MemoryReports;
use crate::allocation::same::are_rosters_same;
use crate::fault::Fault;
use crate::rows::Row;
use roster::{Entry, Roster};
use std::alloc::Global;
use values::{OrdMap, TryClone};

/// Sets an entry. A roster that finds no memory has to be as the other one, which is behind.
fn set(
    alloc: Global,
    reports: &mut MemoryReports,
    roster: &mut Roster,
    other: &mut Roster,
    entry: &Entry,
) -> Result<(), Fault> {
    if roster.put(alloc, entry.try_clone(alloc)?).is_err() {
        reports.memory = true;
        if !are_rosters_same(roster, other) {
            return Err(Fault::Changed);
        }
        roster.put(alloc, entry.try_clone(alloc)?)?;
    }
    Ok(other.put(alloc, entry.try_clone(alloc)?)?)
}

/// Sets an entry for each row of a table; how many there are.
fn set_all<K: Row>(
    alloc: Global,
    reports: &mut MemoryReports,
    roster: &mut Roster,
    other: &mut Roster,
    table: &OrdMap<K, K::Value>,
) -> Result<usize, Fault> {
    for (key, value) in table.iter() {
        let entry = key.try_clone(alloc)?.entry(value.try_clone(alloc)?);
        let done = set(alloc, reports, roster, other, &entry);
        drop(entry);
        done?;
    }
    Ok(table.len())
}

/// Sets an entry for the base of each member.
fn set_bases(
    alloc: Global,
    reports: &mut MemoryReports,
    roster: &mut Roster,
    other: &mut Roster,
    source: &Roster,
) -> Result<(), Fault> {
    for (who, member) in source.crew.iter() {
        let zone = source.zone_of(who).try_clone(alloc)?;
        let entry = Entry::Base(member.base.try_clone(alloc)?, zone);
        let done = set(alloc, reports, roster, other, &entry);
        drop(entry);
        done?;
    }
    Ok(())
}

/// Sets an entry for each row of a roster. A base is set after its members, so that it is compared.
fn put_all(
    alloc: Global,
    reports: &mut MemoryReports,
    roster: &mut Roster,
    other: &mut Roster,
    source: &Roster,
) -> Result<String, Fault> {
    let crew = set_all(alloc, reports, roster, other, &source.crew)?;
    set_bases(alloc, reports, roster, other, source)?;
    let pairings = set_all(alloc, reports, roster, other, &source.pairings)?;
    let grounds = set_all(alloc, reports, roster, other, &source.grounds)?;
    let outsides = set_all(alloc, reports, roster, other, &source.outsides)?;
    let exceedances = set_all(alloc, reports, roster, other, &source.exceedances)?;
    let requests = set_all(alloc, reports, roster, other, &source.requests)?;
    if !are_rosters_same(roster, source) {
        return Err(Fault::Otherwise);
    }
    Ok(format!(in alloc;
        "{crew} members, each with its base, {pairings} pairings, {grounds} ground duty, {outsides} outside period, {exceedances} exceedances, {requests} requests"
    )?)
}

/// The same in a new roster, which another new one follows.
fn put_with(
    alloc: Global,
    reports: &mut MemoryReports,
    roster: &mut Roster,
    source: &Roster,
) -> Result<String, Fault> {
    let mut other = empty(alloc)?;
    let text = put_all(alloc, reports, roster, &mut other, source);
    drop(other);
    text
}

fn put_of(alloc: Global, reports: &mut MemoryReports, source: &Roster) -> Result<String, Fault> {
    let mut roster = empty(alloc)?;
    let text = put_with(alloc, reports, &mut roster, source);
    drop(roster);
    text
}

/// Sets the entries of a roster in an empty one.
pub fn put(alloc: Global, reports: &mut MemoryReports) -> Result<String, Fault> {
    let source = last_state(alloc)?;
    let text = put_of(alloc, reports, &source);
    drop(source);
    text
}
