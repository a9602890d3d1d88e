//! What has a minute in some days, gathered from a source. Its definition is `board_part` (`specs/Shown.antt`).
//! Through the program: `tests/reports.py`, `tests/report_json.py`. Wrong bodies: `must-fail-more/`.

ghost use Rattle.std.specs.Prelude.{◌≡◌, IfErr, IfOk, OnOk};
ghost use Rattle.std.specs.FinMap as fin;
ghost use Rattle.report.specs.Board as board;
ghost use Rattle.part.specs.Shown.{board_part, is_ground_in, is_outside_in, is_pairing_in};
ghost use Rattle.part.specs.Sources.{IsCauseOfGathering, TellsOfState, if_passes, picked_where};

use crate::gathering::{grounds_of_one, outsides_of_one};
use crate::pick::{pick_members, put_found};
use crate::source::Source;
use command::Member;
use duty::{CrewId, Ground, GroundId, OutsideId, PairingId};
use report::{ground_meets, has_period_in, outside_meets};
use request::Days;
use roster::{OutsideEntry, PairingEntry, Roster};
use std::alloc::Global;
use values::{MemoryFault, OrdMap};

/// Gathers all members, what of their duties meets the days, all pairings that do, and all exceedances.
pub(crate) fn gather_board<S: Source>(
    alloc: Global,
    source: &mut S,
    days: Days,
) -> Result<Roster, S::Fault>
    ensures told { TellsOfState S.is_clean S.shows
        (λ s it. it ≡ board_part s days) source.old source.new result }
    ensures left { S.stays source.old source.new }
    ensures caused { IfErr result
        (IsCauseOfGathering S.fails S.Fault.from_gives source.old source.new) }
    ensures serves { OnOk result (S.serves source.old source.new) }
    ensures there { OnOk result (S.is_there source.new) }
{
    let crew = all_members(alloc, source)?;
    let pairings = pairings_in(alloc, source, days)?;
    let grounds = grounds_in(alloc, source, days)?;
    let outsides = outsides_in(alloc, source, days)?;
    let exceedances = source.exceedances(alloc)?;
    let bases = source.bases(alloc)?;
    Ok(Roster {
        bases,
        crew,
        pairings,
        grounds,
        outsides,
        exceedances,
        requests: OrdMap::new(alloc),
    })
}

/// Gathers all members.
pub(crate) fn all_members<S: Source>(
    alloc: Global,
    source: &mut S,
) -> Result<OrdMap<CrewId, Member>, S::Fault>
    ensures told { TellsOfState S.is_clean S.shows (λ s it. it ≡ s.crew)
        source.old source.new result }
    ensures left { S.stays source.old source.new }
    ensures caused { IfErr result
        (IsCauseOfGathering S.fails S.Fault.from_gives source.old source.new) }
    ensures serves { OnOk result (S.serves source.old source.new) }
{
    let ids = source.crew_ids(alloc)?;
    let mut crew = OrdMap::new(alloc);
    pick_members(alloc, source, &ids, &mut crew)?;
    Ok(crew)
}

/// Gathers the pairings of which a period meets the days. The others are dropped as they are read.
fn pairings_in<S: Source>(
    alloc: Global,
    source: &mut S,
    days: Days,
) -> Result<OrdMap<PairingId, PairingEntry>, S::Fault>
    ensures told { TellsOfState S.is_clean S.shows
        (λ s it. it ≡ fin.retain_keys s.pairings (is_pairing_in s days))
        source.old source.new result }
    ensures left { S.stays source.old source.new }
    ensures caused { IfErr result
        (IsCauseOfGathering S.fails S.Fault.from_gives source.old source.new) }
    ensures serves { OnOk result (S.serves source.old source.new) }
{
    let ids = source.pairing_ids(alloc)?;
    let mut pairings = OrdMap::new(alloc);
    pick_pairings_in(alloc, source, &ids, days, &mut pairings)?;
    Ok(pairings)
}

/// Gathers the members' ground duties that meet the days.
fn grounds_in<S: Source>(
    alloc: Global,
    source: &mut S,
    days: Days,
) -> Result<OrdMap<GroundId, Ground>, S::Fault>
    ensures told { TellsOfState S.is_clean S.shows
        (λ s it. it ≡ fin.retain_keys s.grounds (is_ground_in s days))
        source.old source.new result }
    ensures left { S.stays source.old source.new }
    ensures caused { IfErr result
        (IsCauseOfGathering S.fails S.Fault.from_gives source.old source.new) }
    ensures serves { OnOk result (S.serves source.old source.new) }
{
    let members = source.crew_ids(alloc)?;
    let ids = grounds_of_one(alloc, source, &members)?;
    let mut grounds = OrdMap::new(alloc);
    pick_grounds_in(alloc, source, &ids, days, &mut grounds)?;
    Ok(grounds)
}

/// Gathers the members' outside periods that meet the days.
fn outsides_in<S: Source>(
    alloc: Global,
    source: &mut S,
    days: Days,
) -> Result<OrdMap<OutsideId, OutsideEntry>, S::Fault>
    ensures told { TellsOfState S.is_clean S.shows
        (λ s it. it ≡ fin.retain_keys s.outsides (is_outside_in s days))
        source.old source.new result }
    ensures left { S.stays source.old source.new }
    ensures caused { IfErr result
        (IsCauseOfGathering S.fails S.Fault.from_gives source.old source.new) }
    ensures serves { OnOk result (S.serves source.old source.new) }
{
    let members = source.crew_ids(alloc)?;
    let ids = outsides_of_one(alloc, source, &members)?;
    let mut outsides = OrdMap::new(alloc);
    pick_outsides_in(alloc, source, &ids, days, &mut outsides)?;
    Ok(outsides)
}

/// Sets what the source has under these ids, of what meets the days.
fn pick_pairings_in<S: Source>(
    alloc: Global,
    source: &mut S,
    ids: &[PairingId],
    days: Days,
    pairings: &mut OrdMap<PairingId, PairingEntry>,
) -> Result<(), S::Fault>
    ensures told { TellsOfState S.is_clean S.shows (λ s _. pairings.new
        ≡ picked_where (board.has_period_in days) s.pairings pairings.old ids.now)
        source.old source.new result }
    ensures left { S.stays source.old source.new }
    ensures caused { IfErr result
        (IsCauseOfGathering S.fails S.Fault.from_gives source.old source.new) }
    ensures serves { OnOk result (S.serves source.old source.new) }
{
    for id in ids {
        let found = source.pairing(alloc, id)?;
        let kept = pairing_if_in(alloc, days, found)?;
        put_found(alloc, pairings, id, kept)?;
    }
    Ok(())
}

/// Sets what the source has under these ids, of what meets the days.
fn pick_grounds_in<S: Source>(
    alloc: Global,
    source: &mut S,
    ids: &[GroundId],
    days: Days,
    grounds: &mut OrdMap<GroundId, Ground>,
) -> Result<(), S::Fault>
    ensures told { TellsOfState S.is_clean S.shows (λ s _. grounds.new
        ≡ picked_where (board.ground_meets days) s.grounds grounds.old ids.now)
        source.old source.new result }
    ensures left { S.stays source.old source.new }
    ensures caused { IfErr result
        (IsCauseOfGathering S.fails S.Fault.from_gives source.old source.new) }
    ensures serves { OnOk result (S.serves source.old source.new) }
{
    for id in ids {
        let found = source.ground(alloc, id)?;
        let kept = ground_if_in(days, found);
        put_found(alloc, grounds, id, kept)?;
    }
    Ok(())
}

/// Sets what the source has under these ids, of what meets the days.
fn pick_outsides_in<S: Source>(
    alloc: Global,
    source: &mut S,
    ids: &[OutsideId],
    days: Days,
    outsides: &mut OrdMap<OutsideId, OutsideEntry>,
) -> Result<(), S::Fault>
    ensures told { TellsOfState S.is_clean S.shows (λ s _. outsides.new
        ≡ picked_where (board.outside_meets days) s.outsides outsides.old ids.now)
        source.old source.new result }
    ensures left { S.stays source.old source.new }
    ensures caused { IfErr result
        (IsCauseOfGathering S.fails S.Fault.from_gives source.old source.new) }
    ensures serves { OnOk result (S.serves source.old source.new) }
{
    for id in ids {
        let found = source.outside(alloc, id)?;
        let kept = outside_if_in(days, found);
        put_found(alloc, outsides, id, kept)?;
    }
    Ok(())
}

/// Keeps a pairing of which a period meets the days.
fn pairing_if_in(
    alloc: Global,
    days: Days,
    found: Option<PairingEntry>,
) -> Result<Option<PairingEntry>, MemoryFault>
    ensures { IfOk result (λ kept. kept ≡ if_passes (board.has_period_in days) found) }
{
    match found {
        Some(entry) if has_period_in(alloc, days, &entry)? => Ok(Some(entry)),
        _ => Ok(None),
    }
}

/// Keeps a ground duty that meets the days.
fn ground_if_in(days: Days, found: Option<Ground>) -> Option<Ground>
    ensures { result ≡ if_passes (board.ground_meets days) found }
{
    found.filter(|duty| ground_meets(days, duty))
}

/// Keeps an outside period that meets the days.
fn outside_if_in(days: Days, found: Option<OutsideEntry>) -> Option<OutsideEntry>
    ensures { result ≡ if_passes (board.outside_meets days) found }
{
    found.filter(|outside| outside_meets(days, outside))
}
