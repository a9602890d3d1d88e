//! A member's roster as JSON. The definition is `roster_json` (`specs/RosterJson.antt`).
//! Worked texts: `tests/report_json.py`. Wrong bodies: `must-fail/`.
ghost use Rattle.std.specs.Prelude.{◌≡◌, ◌↔◌, ◌⊎◌, Err, None, Some, IfErr, IfOk, string_bytes};
ghost use Rattle.std.specs.FinMap as fin;
ghost use Rattle.std.specs.Option.{option_map};
ghost use Rattle.serde_json.specs.View.{view};
ghost use Rattle.report_json.specs.Objects.{json_text};
ghost use Rattle.report_json.specs.RosterJson as spec;

use crate::duties::duties_of;
use crate::objects::{with, written};
use command::Member;
use duty::CrewId;
use report::ReportFault;
use roster::Roster;
use serde_json::Value;
use std::alloc::Global;
use stored_json::{Scalar, object_of};
use values::MemoryFault;

/// Writes a member's roster: the member with the zone of the base, and each duty, with its planned times, those as flown,
/// and its lengths in minutes. Refused is a member who isn't there (2), and out of memory (91).
pub fn roster_json(alloc: Global, roster: &Roster, who: &CrewId) -> Result<String, ReportFault>
    ensures text { IfOk result (λ text. option_map json_text (spec.roster_json roster.now who.now)
        ≡ Some (string_bytes text)) }
    ensures absent { (result ≡ Err ReportFault.NoSuchCrew)
        ↔ (fin.get roster.now.crew who.now ≡ None) }
    ensures refused { IfErr result
        (λ fault. (fault ≡ ReportFault.NoSuchCrew) ⊎ (fault ≡ ReportFault.Memory)) }
{
    let Some(member) = roster.crew.get(who) else {
        return Err(ReportFault::NoSuchCrew);
    };
    Ok(member_text(alloc, roster, who, member)?)
}

fn member_text(
    alloc: Global,
    roster: &Roster,
    who: &CrewId,
    member: &Member,
) -> Result<String, MemoryFault>
    ensures { IfOk result (λ text.
        string_bytes text ≡ json_text (spec.member_roster_json roster.now who.now member.now)) }
{
    written(alloc, member_value(alloc, roster, who, member)?)
}

fn member_value<'a>(
    alloc: Global,
    roster: &'a Roster,
    who: &'a CrewId,
    member: &'a Member,
) -> Result<Value, MemoryFault>
    ensures { IfOk result (λ value.
        view value ≡ spec.member_roster_json roster.now who.now member.now) }
{
    let zone = roster.bases.zone_at(&member.base);
    let members = [
        ("base", Scalar::Text(member.base.as_str())),
        ("crew", Scalar::Text(who.as_str())),
        ("name", Scalar::Text(member.name.as_str())),
        ("seat", Scalar::Seat(member.seat)),
        ("zone", Scalar::Text(zone.text())),
    ];
    let object = object_of(alloc, &members)?;
    let duties = duties_of(alloc, roster, who)?;
    with(alloc, object, "duties", Value::Array(duties))
}
