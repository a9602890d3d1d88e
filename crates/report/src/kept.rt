//! What is kept under the number of a request, as a text. Its definition is `request_text` (`specs/RequestText.antt`).
//! Worked texts: `tests/reports.py`. Wrong bodies: `must-fail/` and `must-fail-more/`.
ghost use Rattle.std.specs.Prelude.{◌≡◌, IfOk, string_bytes};
ghost use Rattle.report.specs.RequestText as spec;

use request::RequestNumber;
use roster::{LoggedCommand, Roster};
use std::alloc::Global;
use stored_json::{canonical, reply_to_json};
use values::MemoryFault;

/// Writes what is kept under the number of a request: the number, and then two lines for each part in turn, the command as
/// the book keeps it and the reply to it. A number under which nothing is kept has no part. The one error is out of memory
/// (91).
pub fn request_text(
    alloc: Global,
    roster: &Roster,
    number: RequestNumber,
) -> Result<String, MemoryFault>
    ensures { IfOk result (λ text. string_bytes text ≡ spec.request_text roster.now number) }
{
    let mut text = header(alloc, number)?;
    for (key, kept) in roster.requests.iter() {
        if key.number() == number {
            text.push_str(&part_lines(alloc, key.part(), kept)?)?;
        }
    }
    Ok(text)
}

fn header(alloc: Global, number: RequestNumber) -> Result<String, MemoryFault>
    ensures { IfOk result (λ text. string_bytes text ≡ spec.request_header number) }
{
    Ok(format!(in alloc; "REQUEST {}\n", number.get())?)
}

/// Writes the two lines of a part.
fn part_lines(alloc: Global, part: u16, kept: &LoggedCommand) -> Result<String, MemoryFault>
    ensures { IfOk result (λ text. string_bytes text ≡ spec.part_lines part kept.now) }
{
    let mut text = part_line(alloc, part, &canonical(alloc, &kept.command)?)?;
    text.push_str(&part_line(alloc, part, &reply_to_json(alloc, &kept.reply)?)?)?;
    Ok(text)
}

fn part_line(alloc: Global, part: u16, line: &str) -> Result<String, MemoryFault>
    ensures { IfOk result (λ text. string_bytes text ≡ spec.part_line part line.now) }
{
    Ok(format!(in alloc; "{part} {line}\n")?)
}
