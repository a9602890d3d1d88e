//! The board of some days as JSON. The definition is `board_json` (`specs/BoardJson.antt`).
//! Worked texts: `tests/report_json.py`. Wrong bodies: `must-fail-more/`.
ghost use Rattle.std.specs.Prelude.{◌≡◌, IfOk, map, string_bytes};
ghost use Rattle.std.specs.FinMap as fin;
ghost use Rattle.serde_json.specs.View.{view};
ghost use Rattle.report.specs.Board.{open_in};
ghost use Rattle.report_json.specs.BoardJson as spec;
ghost use Rattle.report_json.specs.Objects.{json_text};
ghost use Rattle.report_json.specs.PairingsJson.{listed_pairing_json};

use crate::board_duties::duties_in;
use crate::exceeded::exceeded_by;
use crate::members::bases_of;
use crate::objects::{list_of, with, written};
use crate::pairings::pairing;
use command::Member;
use duty::CrewId;
use report::is_open_in;
use request::Days;
use roster::Roster;
use serde_json::Value;
use std::alloc::Global;
use stored_json::{Scalar, object_of};
use values::MemoryFault;

/// Writes the board of some days: the bases with their zones, all members, each with the duties that have a minute in these
/// days and the sections that each of those exceeds, and the pairings with a free seat of which a period does, each in byte
/// order of the ids. The one error is out of memory (91).
#[tactic(auto, using(crate::proofs::PlainBoard::board_plain))]
pub fn board_json(alloc: Global, roster: &Roster, days: Days) -> Result<String, MemoryFault>
    ensures { IfOk result
        (λ text. string_bytes text ≡ json_text (spec.board_json roster.now days)) }
{
    written(alloc, board_value(alloc, roster, days)?)
}

fn board_value(alloc: Global, roster: &Roster, days: Days) -> Result<Value, MemoryFault>
    ensures { IfOk result (λ value. view value ≡ spec.board_json roster.now days) }
{
    let bases = bases_of(alloc, roster)?;
    let object = list_of(alloc, "bases", bases)?;
    let members = members_of(alloc, roster, days)?;
    let object = with(alloc, object, "members", Value::Array(members))?;
    let open = open_of(alloc, roster, days)?;
    with(alloc, object, "open", Value::Array(open))
}

/// Makes an object of each member.
fn members_of(alloc: Global, roster: &Roster, days: Days) -> Result<Vec<Value>, MemoryFault>
    ensures { IfOk result (λ rows. map view rows.items
        ≡ map (spec.board_member_json days roster.now) (fin.entries roster.now.crew)) }
{
    let mut rows = Vec::new(alloc);
    for (id, member) in roster.crew.iter() {
        rows.push(member_value(alloc, roster, days, id, member)?)?;
    }
    Ok(rows)
}

fn member_value<'a>(
    alloc: Global,
    roster: &'a Roster,
    days: Days,
    who: &'a CrewId,
    member: &'a Member,
) -> Result<Value, MemoryFault>
    ensures { IfOk result (λ value.
        view value ≡ spec.board_member_json days roster.now (who.now, member.now)) }
{
    let members = [
        ("base", Scalar::Text(member.base.as_str())),
        ("crew", Scalar::Text(who.as_str())),
        ("name", Scalar::Text(member.name.as_str())),
        ("seat", Scalar::Seat(member.seat)),
    ];
    let object = object_of(alloc, &members)?;
    let exceeded = exceeded_by(alloc, roster, who)?;
    let duties = duties_in(alloc, roster, days, who, &exceeded)?;
    with(alloc, object, "duties", Value::Array(duties))
}

/// Makes an object of each pairing with a free seat of which a period meets the days.
fn open_of(alloc: Global, roster: &Roster, days: Days) -> Result<Vec<Value>, MemoryFault>
    ensures { IfOk result
        (λ rows. map view rows.items ≡ map listed_pairing_json (open_in days roster.now)) }
{
    let mut rows = Vec::new(alloc);
    for (id, entry) in roster.pairings.iter() {
        if is_open_in(alloc, days, entry)? {
            rows.push(pairing(alloc, id, entry)?)?;
        }
    }
    Ok(rows)
}
