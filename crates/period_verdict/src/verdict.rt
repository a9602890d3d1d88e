//! The line of `rosterbook duty`. Its definition is `line_of` (`specs/Verdict.antt`).
//! Tables A and B by it: `tests/judgement.py`; its texts: `tests/texts.py`. Wrong bodies: `must-fail/` and `must-fail-more/`.
ghost use Rattle.std.specs.Prelude.{◌≡◌, ◌≤◌, ◌⊎◌, nat_lt, length, map, string_bytes, Ok, Err, IfOk, IfErr};
ghost use Rattle.period_verdict.specs.FlightDuty.{is_block_time_count as is_count};
ghost use Rattle.period_verdict.specs.Verdict as spec;
ghost use Rattle.period_verdict.specs.declared.fault.LineFault.TheVariants.{Memory, Time};

use crate::fault::LineFault;
use crate::flight_duty::read_fdp;
use crate::texts::{Clock, Hours};
use duty::{FdpInForce, flight_minutes};
use limits::{Section, table_a, table_b};
use std::alloc::Global;
use std::fmt;
use time117::{Minute, Zone};

/// Writes the line of `rosterbook duty`, and returns whether it says `within`: one flight duty period against Table A
/// (117.11(a)(1)) and Table B (117.13(a)). `zone` is a POSIX time zone rule, `report` an instant, and `times` are the
/// instants of block-out and block-in of each segment in turn.
///
/// A fault is the first of: a zone that is no rule, a report or a time that is no instant of 2000 to 2099, times of no
/// whole number of segments from 1 to 12, times out of order. Out of memory is reported wherever memory is refused.
pub fn duty_line(
    alloc: Global,
    zone: &str,
    report: &str,
    times: &[String],
) -> Result<(String, bool), LineFault>
    ensures line { IfOk result (λ line. spec.line_of zone.now report.now
        (map string_bytes times.now) ≡ Ok (string_bytes line.0, line.1)) }
    ensures refused { IfErr result (λ fault. (fault ≡ Memory)
        ⊎ (spec.line_of zone.now report.now (map string_bytes times.now) ≡ Err fault)) }
{
    let zone = Zone::read(alloc, zone)?;
    let report = Minute::read(report.as_bytes())?;
    let times = read_times(alloc, times)?;
    line_of_times(alloc, &zone, report, &times)
}

/// Reads the instants that the texts give.
fn read_times(alloc: Global, texts: &[String]) -> Result<Vec<Minute>, LineFault>
    ensures read { IfOk result
        (λ times. spec.read_instants (map string_bytes texts.now) ≡ Ok times.items) }
    ensures refused { IfErr result (λ fault. (fault ≡ Memory)
        ⊎ (spec.as_line_fault (spec.read_instants (map string_bytes texts.now)) ≡ Err fault)) }
{
    let mut times = Vec::new(alloc);
    for text in texts {
        times.push(Minute::read(text.as_bytes())?)?;
    }
    Ok(times)
}

/// Writes the line of a flight duty period whose texts were read.
fn line_of_times(
    alloc: Global,
    zone: &Zone,
    report: Minute,
    times: &[Minute],
) -> Result<(String, bool), LineFault>
    ensures line { IfOk result
        (λ line. spec.line_of_times zone.now report times.now ≡ Ok (string_bytes line.0, line.1)) }
    ensures refused { IfErr result
        (λ fault. (fault ≡ Memory) ⊎ (spec.line_of_times zone.now report times.now ≡ Err fault)) }
{
    if !is_block_time_count(times.len()) {
        return Err(LineFault::SegmentCount);
    }
    let fdp = read_fdp(alloc, report, times)?;
    if !fdp.is_in_order() {
        return Err(LineFault::BadTimes);
    }
    let start = zone.minute_of_day(fdp.planned_report)?;
    let verdict = TableVerdict::of(start, &fdp.in_force(alloc, zone)?);
    Ok((
        format!(in alloc; "{verdict}")?,
        verdict.outcome().is_within(),
    ))
}

/// Returns whether this many times are block-out and block-in of 1 to 12 segments.
fn is_block_time_count(times: usize) -> bool
    ensures { result ≡ is_count times }
{
    times % 2 == 0 && (1..=24).contains(&times)
}

/// How one flight duty period stands against Tables A and B.
#[derive(Clone, Copy)]
struct TableVerdict {
    /// The local minute of the day of the report.
    start: u16,
    segments: usize,
    length: Against,
    flight: Against,
}

/// A length of time beside the one that a table gives, in minutes.
#[derive(Clone, Copy)]
struct Against {
    minutes: u32,
    limit: u32,
}

/// Which of the two tables are exceeded.
#[derive(Clone, Copy)]
struct TablesExceeded {
    is_over_flight_time: bool,
    is_over_length: bool,
}

impl TableVerdict {
    /// Judges a period of 1 to 12 segments by the minute of the day of its report.
    fn of(start: u16, fdp: &FdpInForce) -> TableVerdict
        requires { length fdp.now.segments ≤ 12 }
        ensures { result ≡ spec.verdict start fdp.now }
    {
        let segments = fdp.segments();
        TableVerdict {
            start,
            segments: segments.len(),
            length: Against {
                minutes: fdp.length(),
                limit: table_b(start, segments.len()),
            },
            flight: Against {
                minutes: flight_minutes(segments),
                limit: table_a(start),
            },
        }
    }

    fn outcome(&self) -> TablesExceeded
        ensures { result ≡ spec.outcome self.now }
    {
        TablesExceeded {
            is_over_flight_time: self.flight.limit < self.flight.minutes,
            is_over_length: self.length.limit < self.length.minutes,
        }
    }
}

impl TablesExceeded {
    fn is_within(&self) -> bool
        ensures { result ≡ spec.exceeds_no_table self.now }
    {
        !self.is_over_flight_time && !self.is_over_length
    }
}

impl fmt::Display for TableVerdict {
    ghost use Rattle.std.specs.Prelude.{Some};
    ghost use Rattle.period_verdict.specs.Verdict.{verdict_text};

    ghost output = { λ verdict. Some (verdict_text verdict) };

    #[tactic(auto, unfolding(crate::specs::Verdict::verdict_text))]
    fn fmt<W: fmt::Write>(&self, f: &mut fmt::Formatter<W>) -> fmt::Result {
        let start = Clock { minute: self.start };
        write!(f, "report {start} segments {}", self.segments)?;
        write!(
            f,
            " fdp {} flight {}{}",
            self.length,
            self.flight,
            self.outcome()
        )
    }
}

impl fmt::Display for Against {
    ghost use Rattle.std.specs.Prelude.{Some};
    ghost use Rattle.period_verdict.specs.Verdict.{against_text};

    ghost output = { λ against. Some (against_text against) };

    #[tactic(auto, unfolding(crate::specs::Verdict::against_text))]
    fn fmt<W: fmt::Write>(&self, f: &mut fmt::Formatter<W>) -> fmt::Result {
        let minutes = Hours {
            minutes: self.minutes,
        };
        let limit = Hours {
            minutes: self.limit,
        };
        write!(f, "{minutes} of {limit}")
    }
}

impl fmt::Display for TablesExceeded {
    ghost use Rattle.std.specs.Prelude.{Some};
    ghost use Rattle.period_verdict.specs.Verdict.{outcome_text};

    ghost output = { λ outcome. Some (outcome_text outcome) };

    #[tactic(auto, unfolding(crate::specs::Verdict::outcome_text))]
    fn fmt<W: fmt::Write>(&self, f: &mut fmt::Formatter<W>) -> fmt::Result {
        let (flight_time, length) = (Section::FlightTime, Section::FlightDutyPeriod);
        match (self.is_over_flight_time, self.is_over_length) {
            (false, false) => write!(f, " within"),
            (true, false) => write!(f, " exceeds {flight_time}"),
            (false, true) => write!(f, " exceeds {length}"),
            (true, true) => write!(f, " exceeds {flight_time} {length}"),
        }
    }
}
