//! What no clause of the crates from `values` to `roster` says and no run of the program shows: that with ample memory a copy is
//! made of verdicts, of entries, of the bases, of duties and of a history, and that a verdict and an entry are equal to their copies
//! and to no other one of theirs. Making these copies makes one of each type that they are made of.

mod entries;
mod played;

use crate::copies::entries::{entries, history};
use crate::copies::played::asked_all;
use command::Member;
use duty::CrewId;
use roster::{Bases, Roster, Verdict};
use std::alloc::Global;
use std::test::Fail;
use values::{OrdMap, TryClone};

/// Whether a copy is made, and is equal.
fn is_copied<T: TryClone + PartialEq>(alloc: Global, value: &T) -> bool {
    match value.try_clone(alloc) {
        Ok(copy) => copy == *value,
        Err(_) => false,
    }
}

/// Whether the value is equal to the one at its place in a list, and to no other one there.
fn is_alone<T: PartialEq>(list: &[T], place: usize, value: &T) -> bool {
    list.iter().enumerate().all(|(other_place, other)| (*other == *value) == (other_place == place))
}

/// Whether each of these is copied, and all differ.
fn all_are_copied<T: TryClone + PartialEq>(alloc: Global, list: &[T]) -> bool {
    for (place, value) in list.iter().enumerate() {
        if !is_copied(alloc, value) || !is_alone(list, place, value) {
            return false;
        }
    }
    true
}

/// A mark for each verdict that accepts (`+`) or repeats (`=`), each refusal's number, and whether all are copied.
fn marks_of(alloc: Global, verdicts: &[Verdict]) -> Result<String, Fail> {
    let mut text = String::new(alloc);
    for verdict in verdicts {
        match verdict {
            Verdict::Accept(_, _) => text.push_str("+")?,
            Verdict::Repeat(_) => text.push_str("=")?,
            Verdict::Refuse(refusal) => {
                let number = format!(in alloc; " {}", refusal.number())?;
                text.push_str(number.as_str())?;
            }
        }
    }
    text.push_str(if all_are_copied(alloc, verdicts) {
        ", copied"
    } else {
        ", not copied"
    })?;
    Ok(text)
}

/// How many entries a roster has, where all are copied.
fn copied_entries(alloc: Global, roster: &Roster) -> Result<usize, Fail> {
    let entries = entries(alloc, roster)?;
    if !all_are_copied(alloc, &entries) {
        return Err(Fail::from("an entry is not copied"));
    }
    Ok(entries.len())
}

/// How many duties are in a copy of the history of copies of a roster's duties.
fn copied_duties(alloc: Global, roster: &Roster) -> Result<usize, Fail> {
    let history = history(alloc, &entries(alloc, roster)?, roster.bases.home())?;
    Ok(history.try_clone(alloc)?.duties().len())
}

/// The zones at `HOME` and at the other bases of the members.
fn zones_of(alloc: Global, bases: &Bases, crew: &OrdMap<CrewId, Member>) -> Result<String, Fail> {
    let mut zones = String::from_str(alloc, bases.home().text())?;
    for (_who, member) in crew.iter() {
        if !member.base.is_home() {
            zones.push_str(" ")?;
            zones.push_str(bases.zone_at(&member.base).text())?;
        }
    }
    Ok(zones)
}

/// The zones of the members' bases in a copy of the bases.
fn copied_zones(alloc: Global, roster: &Roster) -> Result<String, Fail> {
    let bases = roster.bases.try_clone(alloc)?;
    zones_of(alloc, &bases, &roster.crew)
}

#[test]
fn verdicts_are_copied(rt: HostRuntime) -> Result<(), Fail> {
    let played = asked_all(rt.alloc())?;
    assert_eq!(rt;
        marks_of(rt.alloc(), &played.verdicts)?.as_str(),
        "+++++++++++++++++++++++== 1 2 3 4 5 6 7 8 9 10 11 12 13 14 15 19 20 21 22, copied"
    );
    Ok(())
}

#[test]
fn entries_are_copied(rt: HostRuntime) -> Result<(), Fail> {
    let played = asked_all(rt.alloc())?;
    assert_eq!(rt; copied_entries(rt.alloc(), &played.roster)?, 40);
    Ok(())
}

#[test]
fn duties_and_histories_are_copied(rt: HostRuntime) -> Result<(), Fail> {
    let played = asked_all(rt.alloc())?;
    assert_eq!(rt; copied_duties(rt.alloc(), &played.roster)?, 6);
    Ok(())
}

#[test]
fn bases_are_copied(rt: HostRuntime) -> Result<(), Fail> {
    let played = asked_all(rt.alloc())?;
    assert_eq!(rt;
        copied_zones(rt.alloc(), &played.roster)?.as_str(),
        "EST5EDT,M3.2.0,M11.1.0 MST7MDT,M3.2.0,M11.1.0"
    );
    Ok(())
}
