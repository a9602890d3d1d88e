//! What is shown of a member, of a member's limits, of a pairing, of all members, pairings or exceedances, of the board of
//! some days, or of a request, gathered from a source. Its definition is `shown_part` (`specs/Shown.antt`).
//! Through the program: `tests/reports.py`. Wrong bodies: `must-fail-more/`.

ghost use Rattle.std.specs.Prelude.{◌≡◌, IfErr, OnOk};
ghost use Rattle.std.specs.FinMap as fin;
ghost use Rattle.std.specs.Option.{option_copied};
ghost use Rattle.std.specs.Str.{bytes_eq};
ghost use Rattle.roster.specs.Holding.{AreJust, IsGroundOf, IsHeldBy, IsOutsideOf};
ghost use Rattle.part.specs.Shown.{crew_part, exceedances_part, limits_part, member_part, pairing_part, pairings_part, request_part, shown_part};
ghost use Rattle.part.specs.Sources.{IsCauseOfGathering, TellsOfState, pick_named};

use crate::in_days::gather_board;
use crate::pick::{pick_grounds, pick_members, pick_outsides, pick_pairings, put_found};
use crate::source::Source;
use command::Member;
use duty::{CrewId, GroundId, OutsideId, PairingId};
use request::{RequestNumber, Subject};
use roster::{PairingEntry, Roster};
use std::alloc::Global;
use values::OrdMap;

/// The ids of what a member holds.
#[derive(Drop)]
struct HeldIds {
    pairings: Vec<PairingId>,
    grounds: Vec<GroundId>,
    outsides: Vec<OutsideId>,
}

/// Reads the ids of the pairings that a member holds, and of the member's ground duties and outside periods.
fn ids_held<S: Source>(alloc: Global, source: &mut S, who: &CrewId) -> Result<HeldIds, S::Fault>
    ensures told { TellsOfState S.is_clean S.shows
        (λ s ids. AreJust (IsHeldBy s who.now) ids.pairings.items
        × AreJust (IsGroundOf s who.now) ids.grounds.items
        × AreJust (IsOutsideOf s who.now) ids.outsides.items) source.old source.new result }
    ensures left { S.stays source.old source.new }
    ensures caused { IfErr result
        (IsCauseOfGathering S.fails S.Fault.from_gives source.old source.new) }
    ensures serves { OnOk result (S.serves source.old source.new) }
{
    let pairings = source.pairings_of(alloc, who)?;
    let grounds = source.grounds_of(alloc, who)?;
    let outsides = source.outsides_of(alloc, who)?;
    Ok(HeldIds {
        pairings,
        grounds,
        outsides,
    })
}

/// Gathers the member of an id, if there is one.
fn one_member<S: Source>(
    alloc: Global,
    source: &mut S,
    who: &CrewId,
) -> Result<OrdMap<CrewId, Member>, S::Fault>
    ensures told { TellsOfState S.is_clean S.shows
        (λ s it. it ≡ fin.retain_keys s.crew (bytes_eq who.now)) source.old source.new result }
    ensures left { S.stays source.old source.new }
    ensures caused { IfErr result
        (IsCauseOfGathering S.fails S.Fault.from_gives source.old source.new) }
    ensures serves { OnOk result (S.serves source.old source.new) }
{
    let found = source.member(alloc, who)?;
    let mut crew = OrdMap::new(alloc);
    put_found(alloc, &mut crew, who, found)?;
    Ok(crew)
}

/// Gathers the pairing of an id, if there is one.
fn one_pairing<S: Source>(
    alloc: Global,
    source: &mut S,
    id: &PairingId,
) -> Result<OrdMap<PairingId, PairingEntry>, S::Fault>
    ensures told { TellsOfState S.is_clean S.shows
        (λ s it. it ≡ fin.retain_keys s.pairings (bytes_eq id.now)) source.old source.new result }
    ensures left { S.stays source.old source.new }
    ensures caused { IfErr result
        (IsCauseOfGathering S.fails S.Fault.from_gives source.old source.new) }
    ensures serves { OnOk result (S.serves source.old source.new) }
{
    let found = source.pairing(alloc, id)?;
    let mut pairings = OrdMap::new(alloc);
    put_found(alloc, &mut pairings, id, found)?;
    Ok(pairings)
}

/// Gathers a member, with the pairings that the member holds, and the member's ground duties and outside periods.
fn gather_member<S: Source>(alloc: Global, source: &mut S, who: &CrewId) -> Result<Roster, S::Fault>
    ensures told { TellsOfState S.is_clean S.shows
        (λ s it. it ≡ member_part s who.now) source.old source.new result }
    ensures left { S.stays source.old source.new }
    ensures caused { IfErr result
        (IsCauseOfGathering S.fails S.Fault.from_gives source.old source.new) }
    ensures serves { OnOk result (S.serves source.old source.new) }
    ensures there { OnOk result (S.is_there source.new) }
{
    let crew = one_member(alloc, source, who)?;
    let ids = ids_held(alloc, source, who)?;
    let mut pairings = OrdMap::new(alloc);
    pick_pairings(alloc, source, &ids.pairings, &mut pairings)?;
    let mut grounds = OrdMap::new(alloc);
    pick_grounds(alloc, source, &ids.grounds, &mut grounds)?;
    let mut outsides = OrdMap::new(alloc);
    pick_outsides(alloc, source, &ids.outsides, &mut outsides)?;
    Ok(Roster {
        bases: source.bases(alloc)?,
        crew,
        pairings,
        grounds,
        outsides,
        exceedances: OrdMap::new(alloc),
        requests: OrdMap::new(alloc),
    })
}

/// Adds what the source has under the id that is named, if one is.
fn add_named_pairing<S: Source>(
    alloc: Global,
    source: &mut S,
    named: Option<&PairingId>,
    pairings: &mut OrdMap<PairingId, PairingEntry>,
) -> Result<(), S::Fault>
    ensures told { TellsOfState S.is_clean S.shows (λ s _.
        pairings.new ≡ pick_named s.pairings (option_copied named.entry) pairings.old)
        source.old source.new result }
    ensures left { S.stays source.old source.new }
    ensures caused { IfErr result
        (IsCauseOfGathering S.fails S.Fault.from_gives source.old source.new) }
    ensures serves { OnOk result (S.serves source.old source.new) }
{
    if let Some(id) = named {
        let found = source.pairing(alloc, id)?;
        put_found(alloc, pairings, id, found)?;
    }
    Ok(())
}

/// Gathers what the limits of a member need: the member as `gather_member` does, and the pairing that is named, if one
/// is.
fn gather_limits<S: Source>(
    alloc: Global,
    source: &mut S,
    who: &CrewId,
    named: Option<&PairingId>,
) -> Result<Roster, S::Fault>
    ensures told { TellsOfState S.is_clean S.shows
        (λ s it. it ≡ limits_part s who.now (option_copied named.entry))
        source.old source.new result }
    ensures left { S.stays source.old source.new }
    ensures caused { IfErr result
        (IsCauseOfGathering S.fails S.Fault.from_gives source.old source.new) }
    ensures serves { OnOk result (S.serves source.old source.new) }
    ensures there { OnOk result (S.is_there source.new) }
{
    let mut roster = gather_member(alloc, source, who)?;
    add_named_pairing(alloc, source, named, &mut roster.pairings)?;
    Ok(roster)
}

/// Gathers a pairing alone.
fn gather_pairing<S: Source>(
    alloc: Global,
    source: &mut S,
    id: &PairingId,
) -> Result<Roster, S::Fault>
    ensures told { TellsOfState S.is_clean S.shows
        (λ s it. it ≡ pairing_part s id.now) source.old source.new result }
    ensures left { S.stays source.old source.new }
    ensures caused { IfErr result
        (IsCauseOfGathering S.fails S.Fault.from_gives source.old source.new) }
    ensures serves { OnOk result (S.serves source.old source.new) }
    ensures there { OnOk result (S.is_there source.new) }
{
    let pairings = one_pairing(alloc, source, id)?;
    let bases = source.bases(alloc)?;
    Ok(Roster {
        bases,
        crew: OrdMap::new(alloc),
        pairings,
        grounds: OrdMap::new(alloc),
        outsides: OrdMap::new(alloc),
        exceedances: OrdMap::new(alloc),
        requests: OrdMap::new(alloc),
    })
}

/// Gathers what is kept under the number of a request alone.
fn gather_request<S: Source>(
    alloc: Global,
    source: &mut S,
    number: RequestNumber,
) -> Result<Roster, S::Fault>
    ensures told { TellsOfState S.is_clean S.shows
        (λ s it. it ≡ request_part s number) source.old source.new result }
    ensures left { S.stays source.old source.new }
    ensures caused { IfErr result
        (IsCauseOfGathering S.fails S.Fault.from_gives source.old source.new) }
    ensures serves { OnOk result (S.serves source.old source.new) }
    ensures there { OnOk result (S.is_there source.new) }
{
    let requests = source.requests_of(alloc, number)?;
    let bases = source.bases(alloc)?;
    Ok(Roster {
        bases,
        crew: OrdMap::new(alloc),
        pairings: OrdMap::new(alloc),
        grounds: OrdMap::new(alloc),
        outsides: OrdMap::new(alloc),
        exceedances: OrdMap::new(alloc),
        requests,
    })
}

/// Gathers all members alone.
fn gather_crew<S: Source>(alloc: Global, source: &mut S) -> Result<Roster, S::Fault>
    ensures told { TellsOfState S.is_clean S.shows
        (λ s it. it ≡ crew_part s) source.old source.new result }
    ensures left { S.stays source.old source.new }
    ensures caused { IfErr result
        (IsCauseOfGathering S.fails S.Fault.from_gives source.old source.new) }
    ensures serves { OnOk result (S.serves source.old source.new) }
    ensures there { OnOk result (S.is_there source.new) }
{
    let ids = source.crew_ids(alloc)?;
    let mut crew = OrdMap::new(alloc);
    pick_members(alloc, source, &ids, &mut crew)?;
    let bases = source.bases(alloc)?;
    Ok(Roster {
        bases,
        crew,
        pairings: OrdMap::new(alloc),
        grounds: OrdMap::new(alloc),
        outsides: OrdMap::new(alloc),
        exceedances: OrdMap::new(alloc),
        requests: OrdMap::new(alloc),
    })
}

/// Gathers all pairings alone.
fn gather_pairings<S: Source>(alloc: Global, source: &mut S) -> Result<Roster, S::Fault>
    ensures told { TellsOfState S.is_clean S.shows
        (λ s it. it ≡ pairings_part s) source.old source.new result }
    ensures left { S.stays source.old source.new }
    ensures caused { IfErr result
        (IsCauseOfGathering S.fails S.Fault.from_gives source.old source.new) }
    ensures serves { OnOk result (S.serves source.old source.new) }
    ensures there { OnOk result (S.is_there source.new) }
{
    let ids = source.pairing_ids(alloc)?;
    let mut pairings = OrdMap::new(alloc);
    pick_pairings(alloc, source, &ids, &mut pairings)?;
    let bases = source.bases(alloc)?;
    Ok(Roster {
        bases,
        crew: OrdMap::new(alloc),
        pairings,
        grounds: OrdMap::new(alloc),
        outsides: OrdMap::new(alloc),
        exceedances: OrdMap::new(alloc),
        requests: OrdMap::new(alloc),
    })
}

/// Gathers the exceedances alone.
fn gather_exceedances<S: Source>(alloc: Global, source: &mut S) -> Result<Roster, S::Fault>
    ensures told { TellsOfState S.is_clean S.shows
        (λ s it. it ≡ exceedances_part s) source.old source.new result }
    ensures left { S.stays source.old source.new }
    ensures caused { IfErr result
        (IsCauseOfGathering S.fails S.Fault.from_gives source.old source.new) }
    ensures serves { OnOk result (S.serves source.old source.new) }
    ensures there { OnOk result (S.is_there source.new) }
{
    let bases = source.bases(alloc)?;
    let exceedances = source.exceedances(alloc)?;
    Ok(Roster {
        bases,
        crew: OrdMap::new(alloc),
        pairings: OrdMap::new(alloc),
        grounds: OrdMap::new(alloc),
        outsides: OrdMap::new(alloc),
        exceedances,
        requests: OrdMap::new(alloc),
    })
}

/// Gathers what the text of this subject needs, and no more.
pub fn gather_shown<S: Source>(
    alloc: Global,
    source: &mut S,
    what: &Subject<CrewId, PairingId>,
) -> Result<Roster, S::Fault>
    ensures told { TellsOfState S.is_clean S.shows
        (λ s it. it ≡ shown_part s what.now) source.old source.new result }
    ensures left { S.stays source.old source.new }
    ensures caused { IfErr result
        (IsCauseOfGathering S.fails S.Fault.from_gives source.old source.new) }
    ensures serves { OnOk result (S.serves source.old source.new) }
    ensures there { OnOk result (S.is_there source.new) }
{
    match what {
        Subject::Crew(who) => gather_member(alloc, source, who),
        Subject::Limits { crew, with } => gather_limits(alloc, source, crew, with.as_ref()),
        Subject::Pairing(id) => gather_pairing(alloc, source, id),
        Subject::Exceedances => gather_exceedances(alloc, source),
        Subject::Members => gather_crew(alloc, source),
        Subject::Pairings(_) => gather_pairings(alloc, source),
        Subject::Board(days) => gather_board(alloc, source, *days),
        Subject::Request(number) => gather_request(alloc, source, *number),
    }
}
