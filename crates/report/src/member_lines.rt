//! A member's roster as a text. Its definition is `IsRosterText` (`specs/RosterText.antt`).
//! Worked texts: `tests/reports.py`. Wrong bodies: `must-fail-more/`.
ghost use Rattle.std.specs.Prelude.{◌≡◌, ◌≤◌, ◌↔◌, ◌⊎◌, ◌++◌, Err, None, IfOk, IfErr, OnOk, codes, length, string_bytes};
ghost use Rattle.std.specs.Fmt.{decimal};
ghost use Rattle.std.specs.FinMap as fin;
ghost use Rattle.time117.specs.Instant.{written};
ghost use Rattle.period_verdict.specs.Texts.{hours_text};
ghost use Rattle.report.specs.RosterText as spec;
ghost use Rattle.report.specs.Periods.{times_word};

use crate::fault::ReportFault;
use crate::instants::instant;
use crate::line::{Line, LinePlace, in_order, text_of};
use crate::periods::{PeriodInForce, periods_of};
use command::Member;
use duty::{CrewId, Ground, GroundId, OutsideId, PairingId, flight_minutes};
use period_verdict::Hours;
use roster::{OutsideEntry, PairingEntry, Roster};
use std::alloc::Global;
use time117::Minute;
use values::{MemoryFault, Text, TryClone};

/// Writes a member's roster: the member, the base where it isn't `HOME`, and then a line for each duty in force, in
/// order of begin, end, periods before ground duties before outside periods, id in byte order, and period. Times are
/// those in force, as UTC instants; lengths are hours and minutes.
pub fn roster_text(alloc: Global, roster: &Roster, who: &CrewId) -> Result<String, ReportFault>
    ensures text { IfOk result (λ text. spec.IsRosterText roster.now who.now (string_bytes text)) }
    ensures absent { (result ≡ Err ReportFault.NoSuchCrew)
        ↔ (fin.get roster.now.crew who.now ≡ None) }
    ensures refused { IfErr result
        (λ fault. (fault ≡ ReportFault.NoSuchCrew) ⊎ (fault ≡ ReportFault.Memory)) }
{
    let Some(member) = roster.crew.get(who) else {
        return Err(ReportFault::NoSuchCrew);
    };
    Ok(member_text(alloc, roster, who, member)?)
}

/// Writes the roster of a member who is there.
fn member_text(
    alloc: Global,
    roster: &Roster,
    who: &CrewId,
    member: &Member,
) -> Result<String, MemoryFault>
    ensures { IfOk result
        (λ text. spec.IsMemberText roster.now who.now member.now (string_bytes text)) }
{
    let lines = in_order(lines_of(alloc, roster, who)?)?;
    text_of(header(alloc, who, member)?, &lines)
}

/// Writes the first line: the member's id, seat and name; and a line with the member's base, where it isn't `HOME`.
pub(crate) fn header(alloc: Global, who: &CrewId, member: &Member) -> Result<String, MemoryFault>
    ensures { IfOk result (λ text. string_bytes text ≡ spec.roster_header who.now member.now) }
{
    let mut text = format!(in alloc; "ROSTER {} {}", who.as_str(), member.seat)?;
    text.push_str(&format!(in alloc; " {}\n", member.name.as_str())?)?;
    if !member.base.is_home() {
        text.push_str(&format!(in alloc; "base {}\n", member.base.as_str())?)?;
    }
    Ok(text)
}

/// Makes a line for each duty of the member, in no order.
pub(crate) fn lines_of(
    alloc: Global,
    roster: &Roster,
    who: &CrewId,
) -> Result<Vec<Line>, MemoryFault>
    ensures { IfOk result (λ lines. lines.items ≡ spec.lines_of roster.now who.now) }
{
    let mut lines = Vec::new(alloc);
    for (id, entry) in roster.pairings.iter() {
        if entry.holds(who) {
            add_periods(alloc, id, entry, &mut lines)?;
        }
    }
    add_grounds(alloc, roster, who, &mut lines)?;
    add_outsides(alloc, roster, who, &mut lines)?;
    Ok(lines)
}

/// Adds a line for each period of a pairing.
fn add_periods(
    alloc: Global,
    id: &PairingId,
    entry: &PairingEntry,
    lines: &mut Vec<Line>,
) -> Result<(), MemoryFault>
    ensures { OnOk result
        (lines.new.items ≡ lines.old.items ++ spec.roster_period_lines (id.now, entry.now)) }
{
    let periods = periods_of(alloc, entry)?;
    for (index, period) in periods.iter().enumerate() {
        lines.push(period_line(alloc, id, index + 1, period)?)?;
    }
    Ok(())
}

/// Adds a line for each ground duty of the member.
fn add_grounds(
    alloc: Global,
    roster: &Roster,
    who: &CrewId,
    lines: &mut Vec<Line>,
) -> Result<(), MemoryFault>
    ensures { OnOk result
        (lines.new.items ≡ lines.old.items ++ spec.ground_lines roster.now who.now) }
{
    for (id, duty) in roster.grounds.iter() {
        if duty.crew() == who {
            lines.push(ground_line(alloc, id, duty)?)?;
        }
    }
    Ok(())
}

/// Adds a line for each outside period of the member.
fn add_outsides(
    alloc: Global,
    roster: &Roster,
    who: &CrewId,
    lines: &mut Vec<Line>,
) -> Result<(), MemoryFault>
    ensures { OnOk result
        (lines.new.items ≡ lines.old.items ++ spec.outside_lines roster.now who.now) }
{
    for (id, outside) in roster.outsides.iter() {
        if outside.crew == *who {
            lines.push(outside_line(alloc, id, outside)?)?;
        }
    }
    Ok(())
}

fn period_line(
    alloc: Global,
    id: &PairingId,
    number: usize,
    period: &PeriodInForce,
) -> Result<Line, MemoryFault>
    requires { length period.now.fdp.segments ≤ 12 }
    ensures { IfOk result (λ line. line ≡ spec.roster_period_line id.now (number, period.now)) }
{
    let (begin, end) = (period.fdp.report, period.fdp.release);
    let mut text = span_text(alloc, begin, end)?;
    text.push_str(&format!(in alloc; " pairing {}/{number} {}", id.as_str(), period.word())?)?;
    text.push_str(&lengths_text(alloc, period.length(), period.flight_time())?)?;
    Ok(Line {
        begin,
        end,
        place: LinePlace::Period(id.try_clone(alloc)?, number),
        text: Text::new(text),
    })
}

/// Writes the length of a period and the flight time in it, in minutes.
fn lengths_text(alloc: Global, length: u32, flight: u32) -> Result<String, MemoryFault>
    ensures { IfOk result (λ text. string_bytes text ≡ spec.lengths_text length flight) }
{
    let length = Hours { minutes: length };
    let flight = Hours { minutes: flight };
    Ok(format!(in alloc; " fdp {length} flight {flight}\n")?)
}

fn ground_line(alloc: Global, id: &GroundId, duty: &Ground) -> Result<Line, MemoryFault>
    ensures { IfOk result (λ line. line ≡ spec.ground_line (id.now, duty.now)) }
{
    let (begin, end) = (duty.begin(), duty.end());
    let mut text = span_text(alloc, begin, end)?;
    text.push_str(&format!(in alloc; " ground {} {}\n", id.as_str(), duty.task().as_str())?)?;
    Ok(Line {
        begin,
        end,
        place: LinePlace::Ground(id.try_clone(alloc)?),
        text: Text::new(text),
    })
}

fn outside_line(alloc: Global, id: &OutsideId, outside: &OutsideEntry) -> Result<Line, MemoryFault>
    ensures { IfOk result (λ line. line ≡ spec.outside_line (id.now, outside.now)) }
{
    // The clause of this call says that an outside period has no fault, and so few segments.
    let _sound = outside.period.id();
    let times = outside.period.in_force(alloc)?;
    let (begin, end) = (times.report(), times.release());
    let mut text = span_text(alloc, begin, end)?;
    text.push_str(&format!(in alloc; " outside {}", id.as_str())?)?;
    text.push_str(&lengths_text(alloc, times.length(), flight_minutes(times.segments()))?)?;
    Ok(Line {
        begin,
        end,
        place: LinePlace::Outside(id.try_clone(alloc)?),
        text: Text::new(text),
    })
}

/// Writes when a duty begins and ends.
fn span_text(alloc: Global, begin: Minute, end: Minute) -> Result<String, MemoryFault>
    ensures { IfOk result (λ text. string_bytes text ≡ spec.span_text begin end) }
{
    let begin = instant(alloc, begin)?;
    let end = instant(alloc, end)?;
    Ok(format!(in alloc; "{begin} {end}")?)
}
