//! The members on the board of some days, as a text. Its definition is `IsMembersInDays` (`specs/BoardText.antt`).
//! Worked texts: `tests/reports.py`. Wrong bodies: `must-fail/` and `must-fail-more/`.
ghost use Rattle.std.specs.Prelude.{◌≡◌, IfOk, string_bytes};
ghost use Rattle.report.specs.BoardText as spec;

use crate::line::{Line, in_order, text_of};
use crate::member_lines::{header, lines_of};
use command::Member;
use duty::CrewId;
use request::Days;
use roster::Roster;
use std::alloc::Global;
use values::MemoryFault;

/// Writes each member in byte order of the ids, with the duties that meet the days.
pub(crate) fn members_text(
    alloc: Global,
    roster: &Roster,
    days: Days,
) -> Result<String, MemoryFault>
    ensures { IfOk result (λ text. spec.IsMembersInDays roster.now days (string_bytes text)) }
{
    let mut text = String::new(alloc);
    for (id, member) in roster.crew.iter() {
        text.push_str(&member_text(alloc, roster, days, id, member)?)?;
    }
    Ok(text)
}

fn member_text(
    alloc: Global,
    roster: &Roster,
    days: Days,
    who: &CrewId,
    member: &Member,
) -> Result<String, MemoryFault>
    ensures { IfOk result
        (λ text. spec.IsMemberInDays roster.now days (who.now, member.now) (string_bytes text)) }
{
    let lines = in_order(lines_in(alloc, roster, days, who)?)?;
    text_of(header(alloc, who, member)?, &lines)
}

/// Makes a line for each duty of the member that meets the days, in no order.
fn lines_in(
    alloc: Global,
    roster: &Roster,
    days: Days,
    who: &CrewId,
) -> Result<Vec<Line>, MemoryFault>
    ensures { IfOk result (λ lines. lines.items ≡ spec.lines_in days roster.now who.now) }
{
    let mut lines = lines_of(alloc, roster, who)?;
    lines.retain(|line| days.meets(line.begin, line.end));
    Ok(lines)
}
