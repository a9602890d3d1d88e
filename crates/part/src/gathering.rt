//! The part of a state, gathered from a source. Its definition is `Part` (`specs/Part.antt`).
//! Through the program: `tests/answers.py`. Wrong bodies: `must-fail-more/`.

ghost use Rattle.std.specs.Prelude.{◌≡◌, ◌++◌, IfErr, OnOk};
ghost use Rattle.command.specs.Keys.{KeyParts};
ghost use Rattle.part.specs.Part.{NamedPart, Part};
ghost use Rattle.roster.specs.Holding.{AreJust};
ghost use Rattle.part.specs.Sources.{HasOtherDuties, IsCauseOfGathering, IsGroundOfOne, IsHeldByOne, IsOutsideOfOne, TellsOfState, bases_part, key_part};

use crate::named::{ids_named, judged_in, members_wanted};
use crate::pick::{pick_grounds, pick_members, pick_outsides, pick_pairings, pick_request};
use crate::source::Source;
use command::{Command, Instruction, Key};
use duty::{CrewId, GroundId, OutsideId, PairingId};
use roster::Roster;
use std::alloc::Global;
use values::{MemoryFault, OrdMap};

/// Adds all values of a list to another.
fn add_all<T: Drop>(list: &mut Vec<T>, other: Vec<T>) -> Result<(), MemoryFault>
    ensures { OnOk result (list.new.items ≡ list.old.items ++ other.items) }
{
    let mut other = other;
    list.append(&mut other)?;
    Ok(())
}

/// Reads the ids of the pairings that some members hold.
fn held_by_one<S: Source>(
    alloc: Global,
    source: &mut S,
    judged: &[CrewId],
) -> Result<Vec<PairingId>, S::Fault>
    ensures told { TellsOfState S.is_clean S.shows
        (λ s found. AreJust (IsHeldByOne s judged.now) found.items) source.old source.new result }
    ensures left { S.stays source.old source.new }
    ensures caused { IfErr result
        (IsCauseOfGathering S.fails S.Fault.from_gives source.old source.new) }
    ensures serves { OnOk result (S.serves source.old source.new) }
{
    let mut all = Vec::new(alloc);
    for who in judged {
        let held = source.pairings_of(alloc, who)?;
        add_all(&mut all, held)?;
    }
    Ok(all)
}

/// Reads the ids of some members' ground duties.
pub(crate) fn grounds_of_one<S: Source>(
    alloc: Global,
    source: &mut S,
    judged: &[CrewId],
) -> Result<Vec<GroundId>, S::Fault>
    ensures told { TellsOfState S.is_clean S.shows
        (λ s found. AreJust (IsGroundOfOne s judged.now) found.items) source.old source.new result }
    ensures left { S.stays source.old source.new }
    ensures caused { IfErr result
        (IsCauseOfGathering S.fails S.Fault.from_gives source.old source.new) }
    ensures serves { OnOk result (S.serves source.old source.new) }
{
    let mut all = Vec::new(alloc);
    for who in judged {
        let theirs = source.grounds_of(alloc, who)?;
        add_all(&mut all, theirs)?;
    }
    Ok(all)
}

/// Reads the ids of some members' outside periods.
pub(crate) fn outsides_of_one<S: Source>(
    alloc: Global,
    source: &mut S,
    judged: &[CrewId],
) -> Result<Vec<OutsideId>, S::Fault>
    ensures told { TellsOfState S.is_clean S.shows
        (λ s found. AreJust (IsOutsideOfOne s judged.now) found.items)
        source.old source.new result }
    ensures left { S.stays source.old source.new }
    ensures caused { IfErr result
        (IsCauseOfGathering S.fails S.Fault.from_gives source.old source.new) }
    ensures serves { OnOk result (S.serves source.old source.new) }
{
    let mut all = Vec::new(alloc);
    for who in judged {
        let theirs = source.outsides_of(alloc, who)?;
        add_all(&mut all, theirs)?;
    }
    Ok(all)
}

/// Gathers all bases, and nothing else.
pub(crate) fn gather_bases<S: Source>(alloc: Global, source: &mut S) -> Result<Roster, S::Fault>
    ensures told { TellsOfState S.is_clean S.shows (λ s it. it ≡ bases_part s)
        source.old source.new result }
    ensures left { S.stays source.old source.new }
    ensures caused { IfErr result
        (IsCauseOfGathering S.fails S.Fault.from_gives source.old source.new) }
    ensures serves { OnOk result (S.serves source.old source.new) }
    ensures there { OnOk result (S.is_there source.new) }
{
    let bases = source.bases(alloc)?;
    Ok(Roster {
        bases,
        crew: OrdMap::new(alloc),
        pairings: OrdMap::new(alloc),
        grounds: OrdMap::new(alloc),
        outsides: OrdMap::new(alloc),
        exceedances: OrdMap::new(alloc),
        requests: OrdMap::new(alloc),
    })
}

/// Adds what an instruction names to the bases and what a key holds.
pub(crate) fn add_named<S: Source>(
    alloc: Global,
    source: &mut S,
    instruction: &Instruction,
    part: &mut Roster,
) -> Result<(), S::Fault>
    ensures told { TellsOfState S.is_clean S.shows (λ s _. (key : KeyParts)
        → part.old ≡ key_part s key → part.new ≡ NamedPart s key instruction.now)
        source.old source.new result }
    ensures left { S.stays source.old source.new }
    ensures caused { IfErr result
        (IsCauseOfGathering S.fails S.Fault.from_gives source.old source.new) }
    ensures serves { OnOk result (S.serves source.old source.new) }
{
    let ids = ids_named(alloc, instruction)?;
    pick_members(alloc, source, &ids.members, &mut part.crew)?;
    pick_pairings(alloc, source, &ids.pairings, &mut part.pairings)?;
    pick_grounds(alloc, source, &ids.grounds, &mut part.grounds)?;
    pick_outsides(alloc, source, &ids.outsides, &mut part.outsides)?;
    Ok(())
}

/// Adds the ground duties and the outside periods of judged members to those that an instruction names.
pub(crate) fn add_other_duties<S: Source>(
    alloc: Global,
    source: &mut S,
    judged: &[CrewId],
    part: &mut Roster,
) -> Result<(), S::Fault>
    ensures told { TellsOfState S.is_clean S.shows
        (λ s _. HasOtherDuties s judged.now part.old part.new) source.old source.new result }
    ensures left { S.stays source.old source.new }
    ensures caused { IfErr result
        (IsCauseOfGathering S.fails S.Fault.from_gives source.old source.new) }
    ensures serves { OnOk result (S.serves source.old source.new) }
{
    let theirs = grounds_of_one(alloc, source, judged)?;
    pick_grounds(alloc, source, &theirs, &mut part.grounds)?;
    let flown = outsides_of_one(alloc, source, judged)?;
    pick_outsides(alloc, source, &flown, &mut part.outsides)?;
    Ok(())
}

/// Adds the histories by which an instruction is judged to what it names.
fn add_histories<S: Source>(
    alloc: Global,
    source: &mut S,
    instruction: &Instruction,
    part: &mut Roster,
) -> Result<(), S::Fault>
    ensures told { TellsOfState S.is_clean S.shows (λ s _. (key : KeyParts)
        → part.old ≡ NamedPart s key instruction.now → part.new ≡ Part s key instruction.now)
        source.old source.new result }
    ensures left { S.stays source.old source.new }
    ensures caused { IfErr result
        (IsCauseOfGathering S.fails S.Fault.from_gives source.old source.new) }
    ensures serves { OnOk result (S.serves source.old source.new) }
{
    let judged = judged_in(alloc, instruction, &part.pairings)?;
    let held = held_by_one(alloc, source, &judged)?;
    pick_pairings(alloc, source, &held, &mut part.pairings)?;
    add_other_duties(alloc, source, &judged, part)?;
    let wanted = members_wanted(
        alloc,
        instruction,
        &part.pairings,
        &part.grounds,
        &part.outsides,
    )?;
    pick_members(alloc, source, &wanted, &mut part.crew)?;
    Ok(())
}

/// Adds to the bases what a command needs to be answered under its key.
fn add_needed<S: Source>(
    alloc: Global,
    source: &mut S,
    key: Key,
    command: &Command,
    part: &mut Roster,
) -> Result<(), S::Fault>
    ensures told { TellsOfState S.is_clean S.shows
        (λ s _. part.old ≡ bases_part s → part.new ≡ Part s key command.now)
        source.old source.new result }
    ensures left { S.stays source.old source.new }
    ensures caused { IfErr result
        (IsCauseOfGathering S.fails S.Fault.from_gives source.old source.new) }
    ensures serves { OnOk result (S.serves source.old source.new) }
{
    let instruction = command.instruction();
    pick_request(alloc, source, key, &mut part.requests)?;
    add_named(alloc, source, instruction, part)?;
    add_histories(alloc, source, instruction, part)?;
    Ok(())
}

/// Gathers what a command needs to be answered under its key.
pub fn gather<S: Source>(
    alloc: Global,
    source: &mut S,
    key: Key,
    command: &Command,
) -> Result<Roster, S::Fault>
    ensures told { TellsOfState S.is_clean S.shows
        (λ s it. it ≡ Part s key command.now) source.old source.new result }
    ensures left { S.stays source.old source.new }
    ensures caused { IfErr result
        (IsCauseOfGathering S.fails S.Fault.from_gives source.old source.new) }
    ensures serves { OnOk result (S.serves source.old source.new) }
    ensures there { OnOk result (S.is_there source.new) }
{
    let mut part = gather_bases(alloc, source)?;
    add_needed(alloc, source, key, command, &mut part)?;
    Ok(part)
}
