//! A pairing as a text, and who flies it. Its definition is `pairing_text` (`specs/PairingText.antt`).
//! Worked texts: `tests/reports.py`. Wrong bodies: `must-fail-more/`.
ghost use Rattle.std.specs.Prelude.{◌≡◌, ◌↔◌, ◌⊎◌, ◌++◌, Err, None, Some, IfOk, IfErr, codes, string_bytes};
ghost use Rattle.std.specs.FinMap as fin;
ghost use Rattle.report.specs.PairingText as spec;

use crate::fault::ReportFault;
use crate::instants::instant;
use crate::periods::{PeriodInForce, periods_of};
use duty::{CrewId, PairingId, Segment};
use roster::{PairingEntry, Roster};
use std::alloc::Global;
use values::MemoryFault;

/// Writes a pairing: who holds its seats, and its periods in turn, each with its segments. Times are those in force, as
/// UTC instants.
pub fn pairing_text(alloc: Global, roster: &Roster, id: &PairingId) -> Result<String, ReportFault>
    ensures text { IfOk result
        (λ text. spec.pairing_text roster.now id.now ≡ Some (string_bytes text)) }
    ensures absent { (result ≡ Err ReportFault.NoSuchPairing)
        ↔ (fin.get roster.now.pairings id.now ≡ None) }
    ensures refused { IfErr result
        (λ fault. (fault ≡ ReportFault.NoSuchPairing) ⊎ (fault ≡ ReportFault.Memory)) }
{
    let Some(entry) = roster.pairings.get(id) else {
        return Err(ReportFault::NoSuchPairing);
    };
    Ok(lines_of(alloc, id, entry)?)
}

/// Writes the lines of a pairing that is there.
fn lines_of(alloc: Global, id: &PairingId, entry: &PairingEntry) -> Result<String, MemoryFault>
    ensures { IfOk result (λ text. string_bytes text ≡ spec.pairing_lines id.now entry.now) }
{
    let mut text = format!(in alloc; "PAIRING {}\n", id.as_str())?;
    text.push_str(&seat_line(alloc, "captain", &entry.captain)?)?;
    text.push_str(&seat_line(alloc, "first officer", &entry.first_officer)?)?;
    text.push_str(&lines_of_periods(alloc, entry)?)?;
    Ok(text)
}

/// Writes who holds a seat; a free one has a dash.
fn seat_line(alloc: Global, seat: &str, holder: &Option<CrewId>) -> Result<String, MemoryFault>
    ensures { IfOk result (λ text. string_bytes text ≡ spec.seat_line seat.now holder.now) }
{
    let holder = match holder {
        Some(crew) => crew.as_str(),
        None => "-",
    };
    Ok(format!(in alloc; "{seat} {holder}\n")?)
}

/// Writes the lines of the periods in turn.
fn lines_of_periods(alloc: Global, entry: &PairingEntry) -> Result<String, MemoryFault>
    ensures { IfOk result (λ text. string_bytes text ≡ spec.lines_of_periods entry.now) }
{
    let mut text = String::new(alloc);
    let periods = periods_of(alloc, entry)?;
    for (index, period) in periods.iter().enumerate() {
        text.push_str(&period_lines(alloc, index + 1, period)?)?;
    }
    Ok(text)
}

/// Writes a period's line, and those of its segments.
fn period_lines(alloc: Global, number: usize, period: &PeriodInForce) -> Result<String, MemoryFault>
    ensures { IfOk result
        (λ text. string_bytes text ≡ spec.pairing_period_lines (number, period.now)) }
{
    let mut text = period_line(alloc, number, period)?;
    for (index, segment) in period.fdp.segments.as_slice().iter().enumerate() {
        text.push_str(&segment_line(alloc, number, index + 1, segment)?)?;
    }
    Ok(text)
}

fn period_line(alloc: Global, number: usize, period: &PeriodInForce) -> Result<String, MemoryFault>
    ensures { IfOk result (λ text. string_bytes text ≡ spec.pairing_period_line number period.now) }
{
    let report = instant(alloc, period.fdp.report)?;
    let release = instant(alloc, period.fdp.release)?;
    let mut text = format!(in alloc; "{number} {}", period.word())?;
    text.push_str(&format!(in alloc; " report {report} release {release}\n")?)?;
    Ok(text)
}

fn segment_line(
    alloc: Global,
    period: usize,
    number: usize,
    segment: &Segment,
) -> Result<String, MemoryFault>
    ensures { IfOk result
        (λ text. string_bytes text ≡ spec.segment_line period (number, segment.now)) }
{
    let block_out = instant(alloc, segment.block_out)?;
    let block_in = instant(alloc, segment.block_in)?;
    let mut text = format!(in alloc; "{period}.{number} {}", segment.flight.as_str())?;
    text.push_str(&format!(in alloc; " {} {block_out}", segment.from.as_str())?)?;
    text.push_str(&format!(in alloc; " {} {block_in}\n", segment.to.as_str())?)?;
    Ok(text)
}
