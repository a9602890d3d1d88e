//! The pairings as a text. Its definition is `IsPairingsText` (`specs/PairingsText.antt`).
//! Wrong bodies: `must-fail-more/`.
ghost use Rattle.std.specs.Prelude.{◌≡◌, ◌-◌, ◌++◌, IfOk, codes, length, slice_get, string_bytes};
ghost use Rattle.std.specs.Option.{option_map_or};
ghost use Rattle.time117.specs.Instant.{written};
ghost use Rattle.report.specs.PairingText.{holder_text};
ghost use Rattle.report.specs.PairingsText as spec;

use crate::instants::instant;
use crate::row::{PairingRow, in_order, text_of};
use duty::{CrewId, Fdp, PairingId};
use request::Listed;
use roster::{PairingEntry, Roster};
use std::alloc::Global;
use time117::Minute;
use values::{MemoryFault, Text, TryClone};

/// Returns whether a pairing is listed.
pub fn is_listed(which: Listed, entry: &PairingEntry) -> bool
    ensures { result ≡ spec.is_listed which entry.now }
{
    match which {
        Listed::All => true,
        Listed::Open => entry.captain.is_none() || entry.first_officer.is_none(),
    }
}

/// Writes the pairings: how many are listed, and a line each with the pairing's id, the report of its first period and the
/// release of its last one, `plan` or `flown`, and who holds its seats, in order of that report, then in byte order of the
/// ids. Times are those in force, as UTC instants. The one error is out of memory (91).
pub fn pairings_text(alloc: Global, roster: &Roster, which: Listed) -> Result<String, MemoryFault>
    ensures { IfOk result (λ text. spec.IsPairingsText roster.now which (string_bytes text)) }
{
    let rows = in_order(rows_of(alloc, roster, which)?)?;
    text_of(header(alloc, rows.len())?, &rows)
}

fn header(alloc: Global, count: usize) -> Result<String, MemoryFault>
    ensures { IfOk result (λ text. string_bytes text ≡ spec.pairings_header count) }
{
    Ok(format!(in alloc; "PAIRINGS {count}\n")?)
}

/// Makes a row of each pairing that is listed, in the order of the ids.
fn rows_of(alloc: Global, roster: &Roster, which: Listed) -> Result<Vec<PairingRow>, MemoryFault>
    ensures { IfOk result (λ rows. rows.items ≡ spec.listed_rows roster.now which) }
{
    let mut rows = Vec::new(alloc);
    for (id, entry) in roster.pairings.iter() {
        if is_listed(which, entry) {
            rows.push(row_of(alloc, id, entry)?)?;
        }
    }
    Ok(rows)
}

/// Makes a row of a pairing.
pub(crate) fn row_of(
    alloc: Global,
    id: &PairingId,
    entry: &PairingEntry,
) -> Result<PairingRow, MemoryFault>
    ensures { IfOk result (λ row. row ≡ spec.listed_row (id.now, entry.now)) }
{
    let (report, release) = span_of(&entry.periods_in_force(alloc)?);
    let times = span_text(alloc, report, release)?;
    let captain = holder_text(&entry.captain);
    let first_officer = holder_text(&entry.first_officer);
    let mut line = format!(in alloc; "{} {times} {}", id.as_str(), word(entry))?;
    line.push_str(&format!(in alloc; " {captain} {first_officer}\n")?)?;
    Ok(PairingRow {
        report,
        id: id.try_clone(alloc)?,
        line: Text::new(line),
    })
}

/// Returns the report of the first period and the release of the last one; minute 0 where there is no period.
fn span_of(periods: &[Fdp]) -> (Minute, Minute)
    ensures report { result.0 ≡ option_map_or (λ p. p.report) (slice_get periods.now 0) 0 }
    ensures release { result.1
        ≡ option_map_or (λ p. p.release) (slice_get periods.now (length periods.now - 1)) 0 }
{
    match (periods.first(), periods.last()) {
        (Some(first), Some(last)) => (first.report, last.release),
        _ => (Minute::FIRST, Minute::FIRST),
    }
}

/// Writes from when to when a pairing goes.
fn span_text(alloc: Global, report: Minute, release: Minute) -> Result<String, MemoryFault>
    ensures { IfOk result
        (λ text. string_bytes text ≡ written report ++ codes " " ++ written release) }
{
    let report = instant(alloc, report)?;
    let release = instant(alloc, release)?;
    Ok(format!(in alloc; "{report} {release}")?)
}

/// Returns `flown` where a period has an actual, else `plan`.
fn word(entry: &PairingEntry) -> &'static str
    ensures { result.now ≡ spec.flown_word entry.now }
{
    if entry.is_flown() { "flown" } else { "plan" }
}

/// Returns the id of who holds a seat; a free one has a dash.
fn holder_text(holder: &Option<CrewId>) -> &str
    ensures { result.now ≡ holder_text holder.now }
{
    match holder {
        Some(crew) => crew.as_str(),
        None => "-",
    }
}
