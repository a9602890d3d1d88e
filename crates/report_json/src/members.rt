//! The bases and the members of the crew as JSON. The definition is `members_json` (`specs/MembersJson.antt`).
//! Worked texts: `tests/report_json.py`. Wrong bodies: `must-fail-more/`.
ghost use Rattle.std.specs.Prelude.{◌≡◌, IfOk, map, string_bytes};
ghost use Rattle.serde_json.specs.View.{view};
ghost use Rattle.report_json.specs.MembersJson as spec;
ghost use Rattle.report_json.specs.Objects.{json_text};

use crate::objects::{list_of, with, written};
use command::Member;
use duty::{BaseId, CrewId};
use roster::Roster;
use serde_json::Value;
use std::alloc::Global;
use stored_json::{Scalar, object_of};
use time117::Zone;
use values::MemoryFault;

/// Writes the bases with their zones, and the members of the crew, each in byte order of the ids. The one error is out of
/// memory (91).
#[tactic(auto, using(crate::proofs::Plain::members_plain))]
pub fn members_json(alloc: Global, roster: &Roster) -> Result<String, MemoryFault>
    ensures { IfOk result (λ text. string_bytes text ≡ json_text (spec.members_json roster.now)) }
{
    written(alloc, members_value(alloc, roster)?)
}

fn members_value(alloc: Global, roster: &Roster) -> Result<Value, MemoryFault>
    ensures { IfOk result (λ value. view value ≡ spec.members_json roster.now) }
{
    let bases = bases_of(alloc, roster)?;
    let members = crew_of(alloc, roster)?;
    let object = list_of(alloc, "bases", bases)?;
    with(alloc, object, "members", Value::Array(members))
}

/// Makes an object of each base.
pub(crate) fn bases_of(alloc: Global, roster: &Roster) -> Result<Vec<Value>, MemoryFault>
    ensures { IfOk result (λ rows. map view rows.items ≡ spec.bases_json roster.now) }
{
    let mut rows = Vec::new(alloc);
    let bases = roster.bases.all(alloc)?;
    for (id, zone) in bases.iter() {
        rows.push(base(alloc, id, zone)?)?;
    }
    Ok(rows)
}

fn base<'a>(alloc: Global, id: &'a BaseId, zone: &'a Zone) -> Result<Value, MemoryFault>
    ensures { IfOk result (λ value. view value ≡ spec.base_json (id.now, zone.now)) }
{
    let members = [
        ("base", Scalar::Text(id.as_str())),
        ("zone", Scalar::Text(zone.text())),
    ];
    object_of(alloc, &members)
}

/// Makes an object of each member.
fn crew_of(alloc: Global, roster: &Roster) -> Result<Vec<Value>, MemoryFault>
    ensures { IfOk result (λ rows. map view rows.items ≡ spec.crew_json roster.now) }
{
    let mut rows = Vec::new(alloc);
    for (id, member) in roster.crew.iter() {
        rows.push(crew_member(alloc, id, member)?)?;
    }
    Ok(rows)
}

fn crew_member<'a>(alloc: Global, id: &'a CrewId, member: &'a Member) -> Result<Value, MemoryFault>
    ensures { IfOk result (λ value. view value ≡ spec.member_json (id.now, member.now)) }
{
    let members = [
        ("base", Scalar::Text(member.base.as_str())),
        ("crew", Scalar::Text(id.as_str())),
        ("name", Scalar::Text(member.name.as_str())),
        ("seat", Scalar::Seat(member.seat)),
    ];
    object_of(alloc, &members)
}
