//! The line of each limit.
//! Wrong bodies: `must-fail-more/`.
ghost use Rattle.std.specs.Prelude.{◌≡◌, ◌++◌, IfOk, string_bytes};
ghost use Rattle.std.specs.List.{flat_map};
ghost use Rattle.limits_report.specs.LimitsText as spec;

use crate::hours::WideHours;
use crate::nearest::{FirstMinute, NearestLimit};
use report::instant;
use std::alloc::Global;
use values::{MemoryFault, Text};

/// Writes a line for each limit in turn, behind the first line.
pub(crate) fn lines(
    alloc: Global,
    first: String,
    limits: &[NearestLimit],
) -> Result<String, MemoryFault>
    ensures { IfOk result (λ text.
        string_bytes text ≡ string_bytes first ++ flat_map spec.limit_line limits.now) }
{
    let mut text = first;
    for limit in limits {
        text.push_str(&line(alloc, limit)?)?;
    }
    Ok(text)
}

fn line(alloc: Global, limit: &NearestLimit) -> Result<String, MemoryFault>
    ensures { IfOk result (λ text. string_bytes text ≡ spec.limit_line limit.now) }
{
    let minutes = minutes_text(alloc, limit.limit, limit.minutes)?;
    let duty = duty_name_text(alloc, &limit.duty)?;
    let from = from_text(alloc, limit.from)?;
    let word = word(limit.exceeds);
    let mut text = format!(in alloc; "{} {minutes}", limit.section)?;
    text.push_str(&format!(in alloc; "{duty}{from}")?)?;
    text.push_str(&format!(in alloc; " {word}\n")?)?;
    Ok(text)
}

/// Writes this many minutes of those that a limit sets, as `8:30 of 9:00`.
fn of_limit(alloc: Global, minutes: u128, limit: u32) -> Result<String, MemoryFault>
    ensures { IfOk result (λ text. string_bytes text ≡ spec.of_limit minutes limit) }
{
    let minutes = WideHours { minutes };
    let limit = WideHours {
        minutes: limit as u128,
    };
    Ok(format!(in alloc; "{minutes} of {limit}")?)
}

/// Writes a dash for the minutes that aren't counted, and what the limit sets.
fn no_minutes(alloc: Global, limit: u32) -> Result<String, MemoryFault>
    ensures { IfOk result (λ text. string_bytes text ≡ spec.no_minutes_text limit) }
{
    let limit = WideHours {
        minutes: limit as u128,
    };
    Ok(format!(in alloc; "- of {limit}")?)
}

/// Writes the minutes that are counted of those that the limit sets; a dash for what isn't there.
fn minutes_text(
    alloc: Global,
    limit: Option<u32>,
    minutes: Option<u128>,
) -> Result<String, MemoryFault>
    ensures { IfOk result (λ text. string_bytes text ≡ spec.minutes_text limit minutes) }
{
    let Some(limit) = limit else {
        return Ok(String::from_str(alloc, "-")?);
    };
    match minutes {
        Some(minutes) => of_limit(alloc, minutes, limit),
        None => no_minutes(alloc, limit),
    }
}

/// Writes the name of the period that is nearest, behind a blank, if one is.
fn duty_name_text(alloc: Global, duty: &Option<Text>) -> Result<String, MemoryFault>
    ensures { IfOk result (λ text. string_bytes text ≡ spec.duty_name_text duty.now) }
{
    match duty {
        Some(name) => Ok(format!(in alloc; " {}", name.as_str())?),
        None => Ok(String::new(alloc)),
    }
}

/// Writes the first minute of a window as an instant, or that it is before the first one.
fn first_minute_text(alloc: Global, minute: FirstMinute) -> Result<String, MemoryFault>
    ensures { IfOk result (λ text. string_bytes text ≡ spec.first_minute_text minute) }
{
    match minute {
        FirstMinute::At(minute) => instant(alloc, minute),
        FirstMinute::Before2000 => Ok(String::from_str(alloc, "before 2000-01-01T00:00Z")?),
    }
}

/// Writes from when on the window that is nearest goes, if one is.
fn from_text(alloc: Global, from: Option<FirstMinute>) -> Result<String, MemoryFault>
    ensures { IfOk result (λ text. string_bytes text ≡ spec.from_text from) }
{
    let Some(minute) = from else {
        return Ok(String::new(alloc));
    };
    let minute = first_minute_text(alloc, minute)?;
    Ok(format!(in alloc; " from {minute}")?)
}

/// Returns `exceeds` or `within`.
fn word(exceeds: bool) -> &'static str
    ensures { result.now ≡ spec.exceeds_word exceeds }
{
    if exceeds { "exceeds" } else { "within" }
}
