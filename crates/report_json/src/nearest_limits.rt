//! How near a member's duties are to each limit, as JSON. The definition is `IsLimitsJson` (`specs/LimitsJson.antt`).
//! Worked texts: `tests/report_json.py`. Wrong bodies: `must-fail-more/`.
ghost use Rattle.std.specs.Prelude.{◌≡◌, ◌↔◌, ◌⊎◌, [], ◌∷◌, IsSome, Err, None, IfErr, IfOk, codes, map, string_bytes};
ghost use Rattle.std.specs.FinMap as fin;
ghost use Rattle.std.specs.Option.{option_copied};
ghost use Rattle.command.specs.Texts.{seat_text};
ghost use Rattle.serde_json.specs.Data.{string};
ghost use Rattle.serde_json.specs.View.{view};
ghost use Rattle.stored_json.specs.Values.{object_of};
ghost use Rattle.limits_report.specs.NearestLimits.{judged_duties};
ghost use Rattle.report_json.specs.LimitsJson as spec;
ghost use Rattle.report_json.specs.Objects.{json_text, text_or_null};

use crate::objects::{length_or_null, text_or_null, with, written};
use command::Member;
use duty::{CrewId, PairingId};
use limits_report::{FirstMinute, NearestLimit, nearest_limits};
use report::{ReportFault, instant};
use roster::Roster;
use serde_json::Value;
use std::alloc::Global;
use stored_json::{Scalar, object_of};
use values::{MemoryFault, Text};

/// Writes how near a member's duties are to each of the eight limits, in the order of the sections, without a pairing or
/// with the periods of one, as `limits_text` of `limits_report` does. Refused is a member who isn't there (2), then a
/// pairing that isn't there (4), and out of memory (91).
pub fn limits_json(
    alloc: Global,
    roster: &Roster,
    who: &CrewId,
    pairing: Option<&PairingId>,
) -> Result<String, ReportFault>
    ensures text { IfOk result (λ text.
        spec.IsLimitsJson roster.now who.now (option_copied pairing.entry) (string_bytes text)) }
    ensures absent { (result ≡ Err ReportFault.NoSuchCrew)
        ↔ (fin.get roster.now.crew who.now ≡ None) }
    ensures no_pairing { (result ≡ Err ReportFault.NoSuchPairing)
        ↔ (IsSome (fin.get roster.now.crew who.now)
        × (judged_duties roster.now who.now (option_copied pairing.entry) ≡ None)) }
    ensures refused { IfErr result (λ fault. (fault ≡ ReportFault.NoSuchCrew)
        ⊎ ((fault ≡ ReportFault.NoSuchPairing) ⊎ (fault ≡ ReportFault.Memory))) }
{
    let Some(member) = roster.crew.get(who) else {
        return Err(ReportFault::NoSuchCrew);
    };
    match nearest_limits(alloc, roster, who, pairing) {
        Ok(limits) => Ok(text_of(alloc, who, member, pairing, &limits)?),
        Err(fault) => Err(fault),
    }
}

fn text_of(
    alloc: Global,
    who: &CrewId,
    member: &Member,
    pairing: Option<&PairingId>,
    limits: &[NearestLimit],
) -> Result<String, MemoryFault>
    ensures { IfOk result (λ text. string_bytes text ≡ json_text
        (spec.limits_of_json who.now member.now (option_copied pairing.entry) limits.now)) }
{
    written(alloc, value_of(alloc, who, member, pairing, limits)?)
}

fn value_of(
    alloc: Global,
    who: &CrewId,
    member: &Member,
    pairing: Option<&PairingId>,
    limits: &[NearestLimit],
) -> Result<Value, MemoryFault>
    ensures { IfOk result (λ value. view value
        ≡ spec.limits_of_json who.now member.now (option_copied pairing.entry) limits.now) }
{
    let object = member_value(alloc, who, member)?;
    let pairing = pairing_or_null(alloc, pairing)?;
    let object = with(alloc, object, "pairing", pairing)?;
    let limits = rows_of(alloc, limits)?;
    with(alloc, object, "limits", Value::Array(limits))
}

/// Makes an object of the member.
fn member_value<'a>(
    alloc: Global,
    who: &'a CrewId,
    member: &'a Member,
) -> Result<Value, MemoryFault>
    ensures { IfOk result (λ value. view value ≡ object_of ((codes "crew", string who.now)
        ∷ (codes "name", string member.now.name)
        ∷ (codes "seat", string (seat_text member.now.seat)) ∷ [])) }
{
    let members = [
        ("crew", Scalar::Text(who.as_str())),
        ("name", Scalar::Text(member.name.as_str())),
        ("seat", Scalar::Seat(member.seat)),
    ];
    object_of(alloc, &members)
}

/// Makes a value of the pairing's id, null without one.
fn pairing_or_null(alloc: Global, pairing: Option<&PairingId>) -> Result<Value, MemoryFault>
    ensures { IfOk result (λ value. view value ≡ text_or_null (option_copied pairing.entry)) }
{
    match pairing {
        Some(id) => text_or_null(alloc, Some(id.as_str())),
        None => Ok(Value::Null),
    }
}

/// Makes an object of each limit.
fn rows_of(alloc: Global, limits: &[NearestLimit]) -> Result<Vec<Value>, MemoryFault>
    ensures { IfOk result (λ rows. map view rows.items ≡ map spec.limit_json limits.now) }
{
    let mut rows = Vec::new(alloc);
    for limit in limits {
        rows.push(row(alloc, limit)?)?;
    }
    Ok(rows)
}

fn row(alloc: Global, limit: &NearestLimit) -> Result<Value, MemoryFault>
    ensures { IfOk result (λ value. view value ≡ spec.limit_json limit.now) }
{
    let object = object_of(alloc, &[("section", Scalar::Section(limit.section))])?;
    let object = with(alloc, object, "exceeds", Value::Bool(limit.exceeds))?;
    let object = with(alloc, object, "minutes", minutes(limit.minutes))?;
    let object = with(alloc, object, "limit", length_or_null(limit.limit))?;
    let duty = duty_name(alloc, &limit.duty)?;
    let object = with(alloc, object, "duty", duty)?;
    let from = first_minute(alloc, limit.from)?;
    with(alloc, object, "from", from)
}

/// Makes a value of the minutes that a limit counts, null without any. A number of JSON can't hold 2^64, which no duty
/// reaches.
fn minutes(minutes: Option<u128>) -> Value
    ensures { view result ≡ spec.minutes_json minutes }
{
    match minutes {
        Some(minutes) => whole(minutes),
        None => Value::Null,
    }
}

fn whole(minutes: u128) -> Value
    ensures { view result ≡ spec.whole_json minutes }
{
    if minutes < 0x1_0000_0000_0000_0000 {
        Value::from(minutes as u64)
    } else {
        Value::Null
    }
}

/// Makes a value of the name of a duty, null without one.
fn duty_name(alloc: Global, name: &Option<Text>) -> Result<Value, MemoryFault>
    ensures { IfOk result (λ value. view value ≡ text_or_null name.now) }
{
    match name {
        Some(name) => text_or_null(alloc, Some(name.as_str())),
        None => Ok(Value::Null),
    }
}

/// Makes a value of the first minute of the window that is nearest, null without one.
fn first_minute(alloc: Global, from: Option<FirstMinute>) -> Result<Value, MemoryFault>
    ensures { IfOk result (λ value. view value ≡ spec.from_json from) }
{
    match from {
        Some(minute) => instant_or_null(alloc, minute),
        None => Ok(Value::Null),
    }
}

/// Makes a value of the first minute of a window, null where it is before 2000-01-01T00:00Z.
fn instant_or_null(alloc: Global, minute: FirstMinute) -> Result<Value, MemoryFault>
    ensures { IfOk result (λ value. view value ≡ spec.first_minute_json minute) }
{
    match minute {
        FirstMinute::At(minute) => Ok(Value::String(instant(alloc, minute)?)),
        FirstMinute::Before2000 => Ok(Value::Null),
    }
}
