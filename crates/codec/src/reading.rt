//! Reading a schedule: the text, its records, their segments, and the pairings. What is read is `IsSchedule`, and what
//! is at fault `IsAtFault` (`specs/Schedule.antt`).
//! Schedules with a fault each: `tests/texts.py`. Wrong bodies: `must-fail/` and `must-fail-more/`.
ghost use Rattle.std.specs.Prelude.{◌≡◌, ◌⊎◌, ◌∷◌, ℕ, List, true, Some, map, IfOk, IfErr};
ghost use Rattle.csv.specs.Reading.{AreRecords, default_config, strip_bom};
ghost use Rattle.csv.specs.Records.{fields_of};
ghost use Rattle.csv.specs.declared.parser.State.TheVariants.{StartRecord};
ghost use Rattle.codec.specs.Records as spec;
ghost use Rattle.codec.specs.Schedule.{IsAtFault, IsSchedule, IsScheduleText, IsUnreadRecord};
ghost use Rattle.codec.specs.declared.fault.ScheduleFault.TheVariants.{Memory, Record};

use crate::MOST_BYTES;
use crate::fault::ScheduleFault;
use crate::fields::{is_header, read_record};
use crate::grouping::{group_segments, make_pairings};
use crate::scheduled::ScheduledSegment;
use csv::{ByteRecord, ReaderBuilder};
use duty::Pairing;
use std::alloc::Global;
use values::MemoryFault;

/// Drops a byte order mark at the start of the text.
#[tactic(auto, using(crate::proofs::Marks::strip_marked, crate::proofs::Marks::strip_short, crate::proofs::Marks::strip_unmarked))]
fn without_mark(text: &[u8]) -> &[u8]
    ensures { result.now ≡ strip_bom text.now }
{
    if text.len() >= 3 && text[0] == 0xEF && text[1] == 0xBB && text[2] == 0xBF {
        &text[3..]
    } else {
        text
    }
}

/// Returns the text that has the records. One byte order mark may stand before it.
#[tactic(auto, using(crate::proofs::Marks::strip_as_long))]
fn strip_mark(text: &[u8]) -> Result<&[u8], ScheduleFault>
    ensures text { IfOk result (λ rest. (rest.now ≡ strip_bom text.now) × IsScheduleText text.now) }
    ensures refused { IfErr result
        (λ fault. (n : ℕ) × (fault ≡ Record n) × IsUnreadRecord text.now n) }
{
    if text.len() > MOST_BYTES {
        return Err(ScheduleFault::Record(0));
    }
    let rest = without_mark(text);
    if without_mark(rest).len() != rest.len() {
        return Err(ScheduleFault::Record(1));
    }
    Ok(rest)
}

/// Reads the records of a text, one byte order mark at its start aside.
fn records(alloc: Global, text: &[u8]) -> Result<Vec<ByteRecord>, MemoryFault>
    ensures { IfOk result (λ records.
        AreRecords default_config StartRecord (strip_bom text.now) (map fields_of records.items)) }
{
    let reader = ReaderBuilder::new()
        .has_headers(false)
        .flexible(true)
        .from_reader(alloc, text);
    let mut records = Vec::new(alloc);
    for row in reader.into_byte_records() {
        let Ok(row) = row else {
            return Err(MemoryFault);
        };
        records.push(row)?;
    }
    Ok(records)
}

/// Reads the segments of a schedule's records, the first of which is the header.
fn segments_of(
    alloc: Global,
    records: &[ByteRecord],
) -> Result<Vec<ScheduledSegment>, ScheduleFault>
    ensures read { IfOk result (λ segments. (names : List (List ℕ)) × (rows : List (List (List ℕ)))
        × (map fields_of records.now ≡ names ∷ rows) × (spec.is_header names ≡ true)
        × (map spec.read_record rows ≡ map Some segments.items)) }
    ensures refused { IfErr result (λ fault. (fault ≡ Memory) ⊎ ((n : ℕ) × (fault ≡ Record n)
        × (spec.first_unread (map fields_of records.now) ≡ Some n))) }
{
    let Some((first, rest)) = records.split_first() else {
        return Err(ScheduleFault::Record(1));
    };
    if !is_header(first) {
        return Err(ScheduleFault::Record(1));
    }
    read_all(alloc, rest)
}

/// Reads what the records after the header say.
fn read_all(alloc: Global, rows: &[ByteRecord]) -> Result<Vec<ScheduledSegment>, ScheduleFault>
    ensures read { IfOk result
        (λ segments. map spec.read_record (map fields_of rows.now) ≡ map Some segments.items) }
    ensures refused { IfErr result (λ fault. (fault ≡ Memory) ⊎ ((n : ℕ) × (fault ≡ Record n)
        × (spec.first_unread_after (map fields_of rows.now) ≡ Some n))) }
{
    let mut segments = Vec::new(alloc);
    for (index, row) in rows.iter().enumerate() {
        match read_record(alloc, row) {
            Ok(segment) => segments.push(segment)?,
            Err(unread) => return Err(ScheduleFault::of_record(index + 2, unread)),
        }
    }
    Ok(segments)
}

/// Reads the pairings of a schedule in CSV. Refused is the record at fault, counted from the header, which is record 1:
/// 0 for a text of more than 1,048,576 bytes; 1 for a second byte order mark, or a header that isn't there or isn't
/// this one; or the first that isn't read; then the first that may not stand where it does; then the first of a pairing
/// that is none.
pub fn schedule_of_csv(alloc: Global, text: &[u8]) -> Result<Vec<Pairing>, ScheduleFault>
    ensures read { IfOk result (λ pairings. IsSchedule text.now pairings.items) }
    ensures refused { IfErr result
        (λ fault. (fault ≡ Memory) ⊎ ((n : ℕ) × (fault ≡ Record n) × IsAtFault text.now n)) }
{
    let records = records(alloc, strip_mark(text)?)?;
    let segments = segments_of(alloc, &records)?;
    make_pairings(alloc, group_segments(alloc, segments)?)
}
