//! The entries of a roster, and the history of its duties.

use crate::rows::Row;
use duty::{BaseId, Duty, History};
use roster::{Entry, Roster};
use std::alloc::Global;
use std::test::Fail;
use time117::Zone;
use values::{OrdMap, TryClone};

/// Adds an entry for each row of a table.
fn add_all<K: Row>(
    alloc: Global,
    table: &OrdMap<K, K::Value>,
    entries: &mut Vec<Entry>,
) -> Result<(), Fail> {
    for (key, value) in table.iter() {
        entries.push(key.try_clone(alloc)?.entry(value.try_clone(alloc)?))?;
    }
    Ok(())
}

/// Adds an entry for `HOME`, and one for the base of each member who belongs to another one.
fn add_bases(alloc: Global, roster: &Roster, entries: &mut Vec<Entry>) -> Result<(), Fail> {
    let home = roster.bases.home().try_clone(alloc)?;
    entries.push(Entry::Base(BaseId::home(alloc)?, home))?;
    for (who, member) in roster.crew.iter() {
        if !member.base.is_home() {
            let zone = roster.zone_of(who).try_clone(alloc)?;
            entries.push(Entry::Base(member.base.try_clone(alloc)?, zone))?;
        }
    }
    Ok(())
}

/// An entry for each row, of copies of what stands in it.
pub fn entries(alloc: Global, roster: &Roster) -> Result<Vec<Entry>, Fail> {
    let mut entries = Vec::new(alloc);
    add_bases(alloc, roster, &mut entries)?;
    add_all(alloc, &roster.crew, &mut entries)?;
    add_all(alloc, &roster.pairings, &mut entries)?;
    add_all(alloc, &roster.grounds, &mut entries)?;
    add_all(alloc, &roster.outsides, &mut entries)?;
    add_all(alloc, &roster.exceedances, &mut entries)?;
    add_all(alloc, &roster.requests, &mut entries)?;
    Ok(entries)
}

/// The duty of an entry, where it is one: the first period of a pairing, a ground duty, or an outside period.
fn duty_of(alloc: Global, entry: &Entry) -> Result<Option<Duty>, Fail> {
    match entry {
        Entry::Pairing(entry) => match entry.plan.periods().first() {
            Some(period) => Ok(Some(Duty::Fdp(period.try_clone(alloc)?))),
            None => Ok(None),
        },
        Entry::Ground(ground) => Ok(Some(Duty::Ground(ground.try_clone(alloc)?))),
        Entry::Outside(outside) => Ok(Some(Duty::Outside(outside.period.try_clone(alloc)?))),
        _ => Ok(None),
    }
}

/// Adds a copy of the duty of an entry, where it is one.
fn add_duty(alloc: Global, history: &mut History, entry: &Entry, zone: &Zone) -> Result<(), Fail> {
    if let Some(duty) = duty_of(alloc, entry)? {
        let copy = duty.try_clone(alloc);
        drop(duty);
        history.insert(alloc, copy?, zone)?;
    }
    Ok(())
}

/// The history of copies of the duties that are among entries.
pub fn history(alloc: Global, entries: &[Entry], zone: &Zone) -> Result<History, Fail> {
    let mut history = History::empty(alloc);
    for entry in entries {
        add_duty(alloc, &mut history, entry, zone)?;
    }
    Ok(history)
}
