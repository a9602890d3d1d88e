//! The part of a state that a command is judged by, gathered from a source. Its definition is `IsNearPart` (`specs/Near.antt`).
//! Through the program: `tests/answers.py`. Wrong bodies: `must-fail-more/`.

ghost use Rattle.std.specs.Prelude.{◌≡◌, ◌++◌, ◌∷◌, [], ℕ, IfErr, IfOk, List, OnOk, map};
ghost use Rattle.std.specs.FinMap as fin;
ghost use Rattle.std.specs.List.{Contains, fold};
ghost use Rattle.std.specs.Option.{option_map_or};
ghost use Rattle.command.specs.Keys.{KeyParts};
ghost use Rattle.part.specs.Near.{AreSo, IsNearPart, new_times_in};
ghost use Rattle.roster.specs.Near.{period_times};
ghost use Rattle.part.specs.Part.{NamedPart};
ghost use Rattle.part.specs.Sources.{AddsNear, FliesIn, IsCauseOfGathering, TellsOfState, with_held};

use crate::gathering::add_other_duties;
use crate::named::judged_in;
use crate::pick::pick_members;
use crate::source::Source;
use command::{Instruction, Member, Seat};
use duty::{CrewId, Fdp, PairingId, Span};
use roster::{PairingEntry, Roster, Seated};
use std::alloc::Global;
use values::{MemoryFault, OrdMap, TryClone};

/// Adds the times of some periods, from report to release.
fn add_spans(fdps: &[Fdp], list: &mut Vec<Span>) -> Result<(), MemoryFault>
    ensures { OnOk result (list.new.items
        ≡ list.old.items ++ map (λ f. record { from = f.report; to = f.release }) fdps.now) }
{
    for fdp in fdps {
        list.push(Span {
            from: fdp.report,
            to: fdp.release,
        })?;
    }
    Ok(())
}

/// Adds the times of a pairing's periods, if the pairing is there.
fn add_times(
    alloc: Global,
    pairings: &OrdMap<PairingId, PairingEntry>,
    id: &PairingId,
    list: &mut Vec<Span>,
) -> Result<(), MemoryFault>
    ensures { OnOk result (list.new.items
        ≡ list.old.items ++ option_map_or period_times (fin.get pairings.now id.now) []) }
{
    if let Some(entry) = pairings.get(id) {
        let fdps = entry.periods_in_force(alloc)?;
        add_spans(&fdps, list)?;
    }
    Ok(())
}

/// Lists the times of an instruction's new duties.
fn new_times(
    alloc: Global,
    instruction: &Instruction,
    pairings: &OrdMap<PairingId, PairingEntry>,
) -> Result<Vec<Span>, MemoryFault>
    ensures { IfOk result (λ spans. spans.items ≡ new_times_in pairings.now instruction.now) }
{
    let mut spans = Vec::new(alloc);
    match instruction {
        Instruction::Assign(id, _) => add_times(alloc, pairings, id, &mut spans)?,
        Instruction::Swap(swap) => {
            add_times(alloc, pairings, &swap.pairing, &mut spans)?;
            add_times(alloc, pairings, &swap.other_pairing, &mut spans)?;
        }
        Instruction::AddGround(ground) => spans.push(Span {
            from: ground.begin(),
            to: ground.end(),
        })?,
        Instruction::Actual(_, actual) => spans.push(Span {
            from: actual.report(),
            to: actual.release(),
        })?,
        Instruction::RecordOutside(_, outside) => spans.push(Span {
            from: outside.report(),
            to: outside.release(),
        })?,
        Instruction::AddBase(..)
        | Instruction::AddCrew(..)
        | Instruction::AddPairing(_)
        | Instruction::CancelPairing(_)
        | Instruction::Release(..)
        | Instruction::CancelGround(_) => {}
    }
    Ok(spans)
}

/// Adds a pairing whose seats are free, if it isn't there, and then puts a member into a seat of it.
fn add_held(
    alloc: Global,
    free: PairingEntry,
    seat: Seat,
    who: &CrewId,
    pairings: &mut OrdMap<PairingId, PairingEntry>,
) -> Result<(), MemoryFault>
    ensures { OnOk result (pairings.new ≡ with_held seat who.now free pairings.old) }
{
    let id = free.plan.id().try_clone(alloc)?;
    let holder = Some(who.try_clone(alloc)?);
    if !pairings.contains(&id) {
        pairings.insert(id.try_clone(alloc)?, free)?;
    }
    pairings.edit(&id, Seated { seat, holder });
    Ok(())
}

/// Adds some pairings whose seats are free, each with a member in a seat.
fn add_all_held(
    alloc: Global,
    found: Vec<PairingEntry>,
    seat: Seat,
    who: &CrewId,
    pairings: &mut OrdMap<PairingId, PairingEntry>,
) -> Result<(), MemoryFault>
    ensures { OnOk result (pairings.new
        ≡ fold (λ some free. with_held seat who.now free some) pairings.old found.items) }
{
    for free in found {
        add_held(alloc, free, seat, who, pairings)?;
    }
    Ok(())
}

/// Adds the pairings that a member holds and that are near some spans, with the member in the seat in which the member flies.
fn add_near_of<S: Source>(
    alloc: Global,
    source: &mut S,
    who: &CrewId,
    seat: Seat,
    spans: &[Span],
    pairings: &mut OrdMap<PairingId, PairingEntry>,
) -> Result<(), S::Fault>
    ensures told { TellsOfState S.is_clean S.shows (λ s _. FliesIn s seat who.now
        → AreSo s pairings.old → AddsNear s spans.now (who.now ∷ []) pairings.old pairings.new)
        source.old source.new result }
    ensures left { S.stays source.old source.new }
    ensures caused { IfErr result
        (IsCauseOfGathering S.fails S.Fault.from_gives source.old source.new) }
    ensures serves { OnOk result (S.serves source.old source.new) }
{
    let found = source.pairings_near(alloc, who, spans, pairings)?;
    add_all_held(alloc, found, seat, who, pairings)?;
    Ok(())
}

/// Adds the pairings that some of these members hold and that are near some spans. Who is no member holds none.
fn add_near_of_all<S: Source>(
    alloc: Global,
    source: &mut S,
    judged: &[CrewId],
    spans: &[Span],
    crew: &OrdMap<CrewId, Member>,
    pairings: &mut OrdMap<PairingId, PairingEntry>,
) -> Result<(), S::Fault>
    ensures told { TellsOfState S.is_clean S.shows (λ s _.
        ((who : List ℕ) → Contains judged.now who → fin.get crew.now who ≡ fin.get s.crew who)
        → AreSo s pairings.old → AddsNear s spans.now judged.now pairings.old pairings.new)
        source.old source.new result }
    ensures left { S.stays source.old source.new }
    ensures caused { IfErr result
        (IsCauseOfGathering S.fails S.Fault.from_gives source.old source.new) }
    ensures serves { OnOk result (S.serves source.old source.new) }
{
    for who in judged {
        if let Some(member) = crew.get(who) {
            add_near_of(alloc, source, who, member.seat, spans, pairings)?;
        }
    }
    Ok(())
}

/// Adds to what an instruction names what else it is judged by.
pub(crate) fn add_near<S: Source>(
    alloc: Global,
    source: &mut S,
    instruction: &Instruction,
    part: &mut Roster,
) -> Result<(), S::Fault>
    ensures told { TellsOfState S.is_clean S.shows (λ s _. (key : KeyParts)
        → part.old ≡ NamedPart s key instruction.now
        → IsNearPart s key instruction.now part.new)
        source.old source.new result }
    ensures left { S.stays source.old source.new }
    ensures caused { IfErr result
        (IsCauseOfGathering S.fails S.Fault.from_gives source.old source.new) }
    ensures serves { OnOk result (S.serves source.old source.new) }
{
    let judged = judged_in(alloc, instruction, &part.pairings)?;
    let spans = new_times(alloc, instruction, &part.pairings)?;
    pick_members(alloc, source, &judged, &mut part.crew)?;
    add_near_of_all(
        alloc,
        source,
        &judged,
        &spans,
        &part.crew,
        &mut part.pairings,
    )?;
    add_other_duties(alloc, source, &judged, part)?;
    Ok(())
}
