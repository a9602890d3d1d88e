//! Entries of a source under some ids. Wrong bodies: `must-fail-more/`.

ghost use Rattle.std.specs.Prelude.{◌≡◌, IfErr, OnOk};
ghost use Rattle.std.specs.FinMap as fin;
ghost use Rattle.std.specs.Option.{option_map_or};
ghost use Rattle.command.specs.Keys.{key_name};
ghost use Rattle.part.specs.Sources.{IsCauseOfGathering, IsPartOf, TellsOfState, picked, pick};

use crate::source::Source;
use command::{Key, Member};
use duty::{CrewId, Ground, GroundId, OutsideId, PairingId};
use roster::{LoggedCommand, OutsideEntry, PairingEntry};
use std::alloc::Global;
use values::{MemoryFault, OrdKey, OrdMap, TryClone};

/// Sets what was found under an id, if anything was.
pub(crate) fn put_found<K: OrdKey + TryClone, V: Drop>(
    alloc: Global,
    map: &mut OrdMap<K, V>,
    id: &K,
    found: Option<V>,
) -> Result<(), MemoryFault>
    ensures { OnOk result (map.new
        ≡ option_map_or (λ value. fin.insert map.old (K.name id.now) value) found map.old) }
{
    if let Some(value) = found {
        map.insert(id.try_clone(alloc)?, value)?;
    }
    Ok(())
}

/// Sets what the source has under a key.
pub(crate) fn pick_request<S: Source>(
    alloc: Global,
    source: &mut S,
    key: Key,
    requests: &mut OrdMap<Key, LoggedCommand>,
) -> Result<(), S::Fault>
    ensures told { TellsOfState S.is_clean S.shows
        (λ s _. requests.new ≡ pick s.requests requests.old (key_name key))
        source.old source.new result }
    ensures left { S.stays source.old source.new }
    ensures caused { IfErr result
        (IsCauseOfGathering S.fails S.Fault.from_gives source.old source.new) }
    ensures serves { OnOk result (S.serves source.old source.new) }
    ensures there { OnOk result (S.is_there source.new) }
{
    if let Some(request) = source.request(alloc, key)? {
        requests.insert(key, request)?;
    }
    Ok(())
}

/// Sets what the source has under these ids. What is there already isn't read again.
pub(crate) fn pick_pairings<S: Source>(
    alloc: Global,
    source: &mut S,
    ids: &[PairingId],
    pairings: &mut OrdMap<PairingId, PairingEntry>,
) -> Result<(), S::Fault>
    ensures told { TellsOfState S.is_clean S.shows (λ s _. IsPartOf pairings.old s.pairings
        → pairings.new ≡ picked s.pairings pairings.old ids.now) source.old source.new result }
    ensures left { S.stays source.old source.new }
    ensures caused { IfErr result
        (IsCauseOfGathering S.fails S.Fault.from_gives source.old source.new) }
    ensures serves { OnOk result (S.serves source.old source.new) }
{
    for id in ids {
        if pairings.contains(id) {
            continue;
        }
        let found = source.pairing(alloc, id)?;
        put_found(alloc, pairings, id, found)?;
    }
    Ok(())
}

/// Sets what the source has under these ids. What is there already isn't read again.
pub(crate) fn pick_grounds<S: Source>(
    alloc: Global,
    source: &mut S,
    ids: &[GroundId],
    grounds: &mut OrdMap<GroundId, Ground>,
) -> Result<(), S::Fault>
    ensures told { TellsOfState S.is_clean S.shows (λ s _. IsPartOf grounds.old s.grounds
        → grounds.new ≡ picked s.grounds grounds.old ids.now) source.old source.new result }
    ensures left { S.stays source.old source.new }
    ensures caused { IfErr result
        (IsCauseOfGathering S.fails S.Fault.from_gives source.old source.new) }
    ensures serves { OnOk result (S.serves source.old source.new) }
{
    for id in ids {
        if grounds.contains(id) {
            continue;
        }
        let found = source.ground(alloc, id)?;
        put_found(alloc, grounds, id, found)?;
    }
    Ok(())
}

/// Sets what the source has under these ids. What is there already isn't read again.
pub(crate) fn pick_outsides<S: Source>(
    alloc: Global,
    source: &mut S,
    ids: &[OutsideId],
    outsides: &mut OrdMap<OutsideId, OutsideEntry>,
) -> Result<(), S::Fault>
    ensures told { TellsOfState S.is_clean S.shows (λ s _. IsPartOf outsides.old s.outsides
        → outsides.new ≡ picked s.outsides outsides.old ids.now) source.old source.new result }
    ensures left { S.stays source.old source.new }
    ensures caused { IfErr result
        (IsCauseOfGathering S.fails S.Fault.from_gives source.old source.new) }
    ensures serves { OnOk result (S.serves source.old source.new) }
{
    for id in ids {
        if outsides.contains(id) {
            continue;
        }
        let found = source.outside(alloc, id)?;
        put_found(alloc, outsides, id, found)?;
    }
    Ok(())
}

/// Sets what the source has under these ids. Who is there already isn't read again.
pub(crate) fn pick_members<S: Source>(
    alloc: Global,
    source: &mut S,
    ids: &[CrewId],
    crew: &mut OrdMap<CrewId, Member>,
) -> Result<(), S::Fault>
    ensures told { TellsOfState S.is_clean S.shows (λ s _. IsPartOf crew.old s.crew
        → crew.new ≡ picked s.crew crew.old ids.now) source.old source.new result }
    ensures left { S.stays source.old source.new }
    ensures caused { IfErr result
        (IsCauseOfGathering S.fails S.Fault.from_gives source.old source.new) }
    ensures serves { OnOk result (S.serves source.old source.new) }
{
    for id in ids {
        if crew.contains(id) {
            continue;
        }
        let found = source.member(alloc, id)?;
        put_found(alloc, crew, id, found)?;
    }
    Ok(())
}
