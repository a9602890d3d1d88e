//! How near a member's duties are to each limit, as a text. Its definition is `IsLimitsText` (`specs/LimitsText.antt`).
//! Wrong bodies: `must-fail-more/`.
ghost use Rattle.std.specs.Prelude.{◌≡◌, ◌↔◌, ◌⊎◌, ◌++◌, IsSome, Err, None, IfOk, IfErr, string_bytes};
ghost use Rattle.std.specs.FinMap as fin;
ghost use Rattle.std.specs.List.{flat_map};
ghost use Rattle.std.specs.Option.{option_copied};
ghost use Rattle.limits_report.specs.LimitsText as spec;
ghost use Rattle.limits_report.specs.NearestLimits.{judged_duties};

use crate::lines::lines;
use crate::nearest::{NearestLimit, nearest_limits};
use command::Member;
use duty::{CrewId, PairingId};
use report::ReportFault;
use roster::Roster;
use std::alloc::Global;
use values::MemoryFault;

/// Writes how near a member's duties are to each of the eight limits: a first line with the member, and then a line for
/// each section, with what is nearest to its limit and the word `exceeds` or `within`. Without a pairing all of the
/// member's duties are judged. With a pairing its periods are judged beside the member's other duties, as if the member
/// held it, so that the lines with `exceeds` are the sections with which its assignment is refused. Refused is a member
/// who isn't there (2), then a pairing that isn't there (4), and out of memory (91).
pub fn limits_text(
    alloc: Global,
    roster: &Roster,
    who: &CrewId,
    with: Option<&PairingId>,
) -> Result<String, ReportFault>
    ensures text { IfOk result (λ text.
        spec.IsLimitsText roster.now who.now (option_copied with.entry) (string_bytes text)) }
    ensures absent { (result ≡ Err ReportFault.NoSuchCrew)
        ↔ (fin.get roster.now.crew who.now ≡ None) }
    ensures no_pairing { (result ≡ Err ReportFault.NoSuchPairing)
        ↔ (IsSome (fin.get roster.now.crew who.now)
        × (judged_duties roster.now who.now (option_copied with.entry) ≡ None)) }
    ensures refused { IfErr result (λ fault. (fault ≡ ReportFault.NoSuchCrew)
        ⊎ ((fault ≡ ReportFault.NoSuchPairing) ⊎ (fault ≡ ReportFault.Memory))) }
{
    let Some(member) = roster.crew.get(who) else {
        return Err(ReportFault::NoSuchCrew);
    };
    match nearest_limits(alloc, roster, who, with) {
        Ok(limits) => Ok(text_of(alloc, who, member, with, &limits)?),
        Err(fault) => Err(fault),
    }
}

/// Writes the first line, and a line for each limit.
fn text_of(
    alloc: Global,
    who: &CrewId,
    member: &Member,
    with: Option<&PairingId>,
    limits: &[NearestLimit],
) -> Result<String, MemoryFault>
    ensures { IfOk result (λ text. string_bytes text
        ≡ spec.header who.now member.now (option_copied with.entry)
        ++ flat_map spec.limit_line limits.now) }
{
    let first = header(alloc, who, member, with)?;
    lines(alloc, first, limits)
}

/// Writes the first line: the member's id, seat and name, and the pairing.
fn header(
    alloc: Global,
    who: &CrewId,
    member: &Member,
    with: Option<&PairingId>,
) -> Result<String, MemoryFault>
    ensures { IfOk result (λ text.
        string_bytes text ≡ spec.header who.now member.now (option_copied with.entry)) }
{
    let mut text = member_text(alloc, who, member)?;
    if let Some(id) = with {
        text.push_str(&format!(in alloc; " with {}", id.as_str())?)?;
    }
    text.push_str("\n")?;
    Ok(text)
}

/// Writes the member's id, seat and name, which begin the first line.
fn member_text(alloc: Global, who: &CrewId, member: &Member) -> Result<String, MemoryFault>
    ensures { IfOk result (λ text. string_bytes text ≡ spec.member_text who.now member.now) }
{
    let mut text = format!(in alloc; "LIMITS {} {}", who.as_str(), member.seat)?;
    text.push_str(&format!(in alloc; " {}", member.name.as_str())?)?;
    Ok(text)
}
