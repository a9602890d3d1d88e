//! The members of the crew as a text. Its definition is `IsMembersText` (`specs/MembersText.antt`).
//! Wrong bodies: `must-fail-more/`.
ghost use Rattle.std.specs.Prelude.{◌≡◌, IfOk, string_bytes};
ghost use Rattle.report.specs.MembersText as spec;

use command::Member;
use duty::CrewId;
use roster::Roster;
use std::alloc::Global;
use values::MemoryFault;

/// Writes the members of the crew: how many there are, and a line each with the member's id, seat, base and name, in byte
/// order of the ids. The one error is out of memory (91).
pub fn members_text(alloc: Global, roster: &Roster) -> Result<String, MemoryFault>
    ensures { IfOk result (λ text. spec.IsMembersText roster.now (string_bytes text)) }
{
    let mut text = header(alloc, roster.crew.len())?;
    for (id, member) in roster.crew.iter() {
        text.push_str(&line(alloc, id, member)?)?;
    }
    Ok(text)
}

fn header(alloc: Global, count: usize) -> Result<String, MemoryFault>
    ensures { IfOk result (λ text. string_bytes text ≡ spec.members_header count) }
{
    Ok(format!(in alloc; "MEMBERS {count}\n")?)
}

fn line(alloc: Global, id: &CrewId, member: &Member) -> Result<String, MemoryFault>
    ensures { IfOk result (λ text. string_bytes text ≡ spec.member_line (id.now, member.now)) }
{
    let mut text = format!(in alloc; "{} {}", id.as_str(), member.seat)?;
    text.push_str(&format!(in alloc; " {} {}\n", member.base.as_str(), member.name.as_str())?)?;
    Ok(text)
}
