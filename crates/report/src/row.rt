//! The rows of the list of pairings, and their order.
//! Wrong bodies: `must-fail-more/`.
ghost use Rattle.std.specs.Prelude.{◌≡◌, ◌++◌, IfOk, string_bytes};
ghost use Rattle.std.specs.List.{flat_map};
ghost use Rattle.report.specs.PairingsText.{AreRowsInOrder};

use duty::PairingId;
use time117::Minute;
use values::{MemoryFault, Text};

/// A pairing as a row of the list. Rows are in the order of report and id.
#[derive(PartialEq, Eq, PartialOrd, Ord, Drop)]
pub struct PairingRow {
    /// The report of the pairing's first period.
    pub report: Minute,
    pub id: PairingId,
    pub line: Text,
}

/// Sorts the rows into their order.
pub fn in_order(rows: Vec<PairingRow>) -> Result<Vec<PairingRow>, MemoryFault>
    ensures { IfOk result (λ sorted. AreRowsInOrder rows.items sorted.items) }
{
    let mut rows = rows;
    rows.sort()?;
    Ok(rows)
}

/// Joins a first line and the lines of the rows.
pub fn text_of(first: String, rows: &[PairingRow]) -> Result<String, MemoryFault>
    ensures { IfOk result
        (λ text. string_bytes text ≡ string_bytes first ++ flat_map (λ row. row.line) rows.now) }
{
    let mut text = first;
    for row in rows {
        text.push_str(row.line.as_str())?;
    }
    Ok(text)
}
