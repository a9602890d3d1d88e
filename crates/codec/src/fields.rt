//! Reading the fields of a record of a schedule. The definitions are in `specs/Records.antt`.
//! Schedules with a fault each: `tests/texts.py`. Wrong bodies: `must-fail-more/`.
ghost use Rattle.std.specs.Prelude.{◌≡◌, ◌⊎◌, true, false, Some, None, IfSome, IfOk, IfErr};
ghost use Rattle.std.specs.Str.{is_utf8};
ghost use Rattle.csv.specs.Records.{fields_of, field_at};
ghost use Rattle.codec.specs.Records as spec;
ghost use Rattle.stored_json.specs.declared.part.Unread.TheVariants.{Memory};

use crate::scheduled::{ScheduledSegment, SegmentPlace};
use csv::ByteRecord;
use duty::{Id, Segment, Shaped};
use std::alloc::Global;
use std::str;
use stored_json::Unread;
use time117::Minute;
use values::Text;

/// The number of a record's fields.
const FIELDS: usize = 9;

/// Returns whether a record is the header.
pub fn is_header(row: &ByteRecord) -> bool
    ensures { result ≡ spec.is_header (fields_of row.now) }
{
    row.len() == FIELDS
        && is_at(row, 0, "pairing")
        && is_at(row, 1, "period")
        && is_at(row, 2, "report")
        && is_at(row, 3, "release")
        && is_at(row, 4, "flight")
        && is_at(row, 5, "from")
        && is_at(row, 6, "out")
        && is_at(row, 7, "to")
        && is_at(row, 8, "in")
}

/// Returns whether the field at a place, counted from 0, is this one.
fn is_at(row: &ByteRecord, place: usize, name: &str) -> bool
    ensures { result ≡ spec.is_at place name.now (fields_of row.now) }
{
    match row.get(place) {
        Some(field) => field == name.as_bytes(),
        None => false,
    }
}

/// Reads what a record says.
pub fn read_record(alloc: Global, row: &ByteRecord) -> Result<ScheduledSegment, Unread>
    ensures read { IfOk result (λ segment. spec.read_record (fields_of row.now) ≡ Some segment) }
    ensures refused { IfErr result
        (λ unread. (unread ≡ Memory) ⊎ (spec.read_record (fields_of row.now) ≡ None)) }
{
    if row.len() != FIELDS {
        return Err(Unread::Refused);
    }
    let place = read_place(alloc, row)?;
    let segment = read_segment(alloc, row)?;
    Ok(ScheduledSegment { place, segment })
}

/// Reads where the segment of a record stands.
fn read_place(alloc: Global, row: &ByteRecord) -> Result<SegmentPlace, Unread>
    ensures read { IfOk result (λ place. spec.read_place (fields_of row.now) ≡ Some place) }
    ensures refused { IfErr result
        (λ unread. (unread ≡ Memory) ⊎ (spec.read_place (fields_of row.now) ≡ None)) }
{
    let period = period_at(row, 1)?;
    let report = time_at(row, 2)?;
    let release = time_at(row, 3)?;
    Ok(SegmentPlace {
        pairing: id_at(alloc, row, 0)?,
        period,
        report,
        release,
    })
}

/// Reads the segment of a record.
fn read_segment(alloc: Global, row: &ByteRecord) -> Result<Segment, Unread>
    ensures read { IfOk result
        (λ segment. spec.read_segment_fields (fields_of row.now) ≡ Some segment) }
    ensures refused { IfErr result
        (λ unread. (unread ≡ Memory) ⊎ (spec.read_segment_fields (fields_of row.now) ≡ None)) }
{
    let block_out = time_at(row, 6)?;
    let block_in = time_at(row, 8)?;
    Ok(Segment {
        flight: id_at(alloc, row, 4)?,
        from: id_at(alloc, row, 5)?,
        block_out,
        to: id_at(alloc, row, 7)?,
        block_in,
    })
}

/// Returns the text of the field at a place, counted from 0.
#[tactic(auto, using(crate::proofs::Text::is_text, crate::proofs::Text::is_no_text))]
fn field(row: &ByteRecord, place: usize) -> Result<&str, Unread>
    ensures found { IfOk result
        (λ text. (field_at (fields_of row.now) place ≡ Some text.now) × (is_utf8 text.now ≡ true)) }
    ensures missing { IfErr result
        (λ _. IfSome (field_at (fields_of row.now) place) (λ field. is_utf8 field ≡ false)) }
{
    let field = row.get(place).ok_or(Unread::Refused)?;
    match str::from_utf8(field) {
        Ok(text) => Ok(text),
        Err(_) => Err(Unread::Refused),
    }
}

/// Reads the id, flight or airport in the field at a place.
fn id_at<T: Shaped>(alloc: Global, row: &ByteRecord, place: usize) -> Result<Id<T>, Unread>
    ensures read { IfOk result
        (λ id. spec.read_field_at place (spec.read_text T.has_shape) (fields_of row.now)
        ≡ Some id) }
    ensures refused { IfErr result (λ unread. (unread ≡ Memory)
        ⊎ (spec.read_field_at place (spec.read_text T.has_shape) (fields_of row.now) ≡ None)) }
{
    read_id(alloc, field(row, place)?)
}

/// Reads the instant in the field at a place.
fn time_at(row: &ByteRecord, place: usize) -> Result<Minute, Unread>
    ensures read { IfOk result
        (λ minute. spec.read_field_at place spec.read_time_field (fields_of row.now)
        ≡ Some minute) }
    ensures refused { IfErr result
        (λ _. spec.read_field_at place spec.read_time_field (fields_of row.now) ≡ None) }
{
    read_time(field(row, place)?)
}

/// Reads the number of a period in the field at a place.
fn period_at(row: &ByteRecord, place: usize) -> Result<usize, Unread>
    ensures read { IfOk result
        (λ period. spec.read_field_at place spec.read_period_field (fields_of row.now)
        ≡ Some period) }
    ensures refused { IfErr result
        (λ _. spec.read_field_at place spec.read_period_field (fields_of row.now) ≡ None) }
{
    read_period(field(row, place)?)
}

/// Reads an id, a flight or an airport.
fn read_id<T: Shaped>(alloc: Global, text: &str) -> Result<Id<T>, Unread>
    ensures read { IfOk result (λ id. spec.read_text T.has_shape text.now ≡ Some id) }
    ensures refused { IfErr result
        (λ unread. (unread ≡ Memory) ⊎ (spec.read_text T.has_shape text.now ≡ None)) }
{
    let id = Id::new(Text::new(String::from_str(alloc, text)?));
    if !id.has_shape() {
        return Err(Unread::Refused);
    }
    Ok(id)
}

fn read_time(text: &str) -> Result<Minute, Unread>
    ensures read { IfOk result (λ minute. spec.read_time_field text.now ≡ Some minute) }
    ensures refused { IfErr result (λ _. spec.read_time_field text.now ≡ None) }
{
    Minute::read(text.as_bytes()).or(Err(Unread::Refused))
}

/// Reads the number of a period.
fn read_period(text: &str) -> Result<usize, Unread>
    ensures read { IfOk result (λ period. spec.read_period_field text.now ≡ Some period) }
    ensures refused { IfErr result (λ _. spec.read_period_field text.now ≡ None) }
{
    match text {
        "1" => Ok(1),
        "2" => Ok(2),
        "3" => Ok(3),
        "4" => Ok(4),
        "5" => Ok(5),
        "6" => Ok(6),
        "7" => Ok(7),
        "8" => Ok(8),
        "9" => Ok(9),
        "10" => Ok(10),
        _ => Err(Unread::Refused),
    }
}
