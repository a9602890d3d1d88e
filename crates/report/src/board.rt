//! The board of some days as a text. Its definition is `IsBoardText` (`specs/BoardText.antt`).
//! Worked texts: `tests/reports.py`. Wrong bodies: `must-fail-more/`.
ghost use Rattle.std.specs.Prelude.{◌≡◌, IfOk, string_bytes};
ghost use Rattle.request.specs.Days.{day_text};
ghost use Rattle.report.specs.BoardText as spec;

use crate::board_members::members_text;
use crate::in_days::is_open_in;
use crate::instants::instant;
use crate::pairings::row_of;
use crate::row::{PairingRow, in_order, text_of};
use request::Days;
use roster::Roster;
use std::alloc::Global;
use time117::Minute;
use values::MemoryFault;

/// Writes the board of some days: each member as in a roster, with the duties that have a minute in these days, and then
/// how many pairings with a free seat have a period that does, and a line each, as in the list of pairings. The one error
/// is out of memory (91).
pub fn board_text(alloc: Global, roster: &Roster, days: Days) -> Result<String, MemoryFault>
    ensures { IfOk result (λ text. spec.IsBoardText roster.now days (string_bytes text)) }
{
    let mut text = header(alloc, days)?;
    text.push_str(&members_text(alloc, roster, days)?)?;
    text.push_str(&open_text(alloc, roster, days)?)?;
    Ok(text)
}

fn header(alloc: Global, days: Days) -> Result<String, MemoryFault>
    ensures { IfOk result (λ text. string_bytes text ≡ spec.board_header days) }
{
    let first = day(alloc, days.first())?;
    let last = day(alloc, days.last())?;
    Ok(format!(in alloc; "BOARD {first} {last}\n")?)
}

/// Writes the day of a minute as `YYYY-MM-DD`.
fn day(alloc: Global, minute: Minute) -> Result<String, MemoryFault>
    ensures { IfOk result (λ text. string_bytes text ≡ day_text minute) }
{
    let mut text = instant(alloc, minute)?;
    text.truncate(10);
    Ok(text)
}

/// Writes the pairings with a free seat of which a period meets the days.
fn open_text(alloc: Global, roster: &Roster, days: Days) -> Result<String, MemoryFault>
    ensures { IfOk result (λ text. spec.IsOpenInDays roster.now days (string_bytes text)) }
{
    let rows = in_order(open_rows(alloc, roster, days)?)?;
    text_of(open_header(alloc, rows.len())?, &rows)
}

fn open_header(alloc: Global, count: usize) -> Result<String, MemoryFault>
    ensures { IfOk result (λ text. string_bytes text ≡ spec.open_header count) }
{
    Ok(format!(in alloc; "OPEN {count}\n")?)
}

/// Makes a row of each of these pairings, in the order of the ids.
fn open_rows(alloc: Global, roster: &Roster, days: Days) -> Result<Vec<PairingRow>, MemoryFault>
    ensures { IfOk result (λ rows. rows.items ≡ spec.open_rows days roster.now) }
{
    let mut rows = Vec::new(alloc);
    for (id, entry) in roster.pairings.iter() {
        if is_open_in(alloc, days, entry)? {
            rows.push(row_of(alloc, id, entry)?)?;
        }
    }
    Ok(rows)
}
