//! What is nearest to each limit of a member's duties, as values. The definition is `AreNearestLimits`
//! (`specs/NearestLimits.antt`).
//! Wrong bodies: `must-fail-more/`.
ghost use Rattle.std.specs.Prelude.{◌≡◌, ◌≤◌, ◌<ℤ◌, ◌↔◌, ◌⊎◌, Err, None, IfErr, IfNone, IfOk, IfSome, length, map, pos};
ghost use Rattle.std.specs.Option.{option_copied};
ghost use Rattle.duty.specs.Minutes.{minutes_in};
ghost use Rattle.limits.specs.Judgement.{all_sections};
ghost use Rattle.nearness.specs.Nearness.{IsNearness};
ghost use Rattle.limits_report.specs.Listing.{AreNearestOf, HasFrom, names_of, times_of};
ghost use Rattle.limits_report.specs.NearestLimits as spec;

use crate::named_duties::{NamedDuty, add_pairing, duties_of, history_of};
use duty::{CrewId, History, Kind, PairingId};
use limits::Section;
use nearness::{FullestWindow, MeasuredPeriod, Nearness, nearest_of_new};
use report::ReportFault;
use roster::{PairingEntry, Roster};
use std::alloc::Global;
use time117::Minute;
use values::{MemoryFault, Text};

/// The sections in their order.
const SECTIONS: [Section; 8] = [
    Section::FlightTime,
    Section::FlightDutyPeriod,
    Section::FlightTime672Hours,
    Section::FlightTime365Days,
    Section::FlightDutyPeriods168Hours,
    Section::FlightDutyPeriods672Hours,
    Section::ThirtyHourRest,
    Section::TenHourRest,
];

/// The first minute of a window.
#[derive(Clone, Copy)]
pub enum FirstMinute {
    /// A minute of the years 2000 to 2099.
    At(Minute),
    /// One before 2000-01-01T00:00Z.
    Before2000,
}

/// What is nearest to the limit of a section.
#[derive(Drop)]
pub struct NearestLimit {
    pub section: Section,
    /// The minutes that the limit counts; none where no flight duty period is measured.
    pub minutes: Option<u128>,
    /// The minutes that the regulation sets; none where no flight duty period enters the table that sets them.
    pub limit: Option<u32>,
    /// The name of the flight duty period that is nearest, as `B101/2` or `outside X1`; none for a window.
    pub duty: Option<Text>,
    /// The first minute of the window that is nearest; none for a flight duty period, and where there is no window.
    pub from: Option<FirstMinute>,
    pub exceeds: bool,
}

/// Finds what is nearest to each of the eight limits, in the order of the sections. Without a pairing all of a member's
/// duties are judged; with a pairing its periods, beside the member's other duties, as if the member held it. Who isn't a
/// member has no duties. Refused is a pairing that isn't there (4), and out of memory (91).
pub fn nearest_limits(
    alloc: Global,
    roster: &Roster,
    who: &CrewId,
    with: Option<&PairingId>,
) -> Result<Vec<NearestLimit>, ReportFault>
    ensures limits { IfOk result (λ limits.
        spec.AreNearestLimits roster.now who.now (option_copied with.entry) limits.items) }
    ensures no_pairing { (result ≡ Err ReportFault.NoSuchPairing)
        ↔ (spec.judged_duties roster.now who.now (option_copied with.entry) ≡ None) }
    ensures refused { IfErr result
        (λ fault. (fault ≡ ReportFault.NoSuchPairing) ⊎ (fault ≡ ReportFault.Memory)) }
{
    match with {
        None => Ok(nearest_as_they_are(alloc, roster, who)?),
        Some(id) => match roster.pairings.get(id) {
            Some(entry) => Ok(nearest_as_if_held(alloc, roster, who, id, entry)?),
            None => Err(ReportFault::NoSuchPairing),
        },
    }
}

/// Judges all of a member's duties.
fn nearest_as_they_are(
    alloc: Global,
    roster: &Roster,
    who: &CrewId,
) -> Result<Vec<NearestLimit>, MemoryFault>
    ensures { IfOk result
        (λ limits. spec.AreNearest (spec.as_they_are roster.now who.now) limits.items) }
{
    let duties = duties_of(alloc, roster, who, None)?;
    nearest_of(alloc, &duties, 0)
}

/// Judges the periods of a pairing, beside the member's duties but for these.
fn nearest_as_if_held(
    alloc: Global,
    roster: &Roster,
    who: &CrewId,
    id: &PairingId,
    entry: &PairingEntry,
) -> Result<Vec<NearestLimit>, MemoryFault>
    ensures { IfOk result (λ limits. spec.AreNearest
        (spec.as_if_held roster.now who.now id.now entry.now) limits.items) }
{
    let mut duties = duties_of(alloc, roster, who, Some(id))?;
    let others = duties.len();
    add_pairing(alloc, roster.zone_of(who), id, entry, &mut duties)?;
    nearest_of(alloc, &duties, others)
}

/// Judges the duties of a list from `others` on.
fn nearest_of(
    alloc: Global,
    duties: &[NamedDuty],
    others: usize,
) -> Result<Vec<NearestLimit>, MemoryFault>
    requires { others ≤ length duties.now }
    ensures { IfOk result (λ limits. AreNearestOf duties.now others limits.items) }
{
    let all = history_of(alloc, duties)?;
    let new = history_of(alloc, &duties[others..])?;
    let judged = JudgedDuties {
        duties,
        new: &new,
        others,
        nearness: nearest_of_new(&all, &new, others),
    };
    judged.limits(alloc)
}

/// What is nearest to each limit, of the duties that are judged.
#[derive(Drop)]
struct JudgedDuties<'a> {
    /// All of the member's duties, the new ones last.
    duties: &'a [NamedDuty],
    new: &'a History,
    others: usize,
    nearness: Nearness,
}

impl JudgedDuties<'_> {
    /// Lists what is nearest to each limit in turn.
    fn limits(&self, alloc: Global) -> Result<Vec<NearestLimit>, MemoryFault>
        requires { IsNearness (times_of self.now.duties.now) self.now.new.now
            self.now.others self.now.nearness }
        ensures { IfOk result (λ limits. limits.items ≡ map
            (spec.nearest_limit (names_of self.now.duties.now) self.now.nearness) all_sections) }
    {
        let mut limits = Vec::new(alloc);
        for section in SECTIONS {
            limits.push(self.limit(alloc, section)?)?;
        }
        Ok(limits)
    }

    /// Says what is nearest to the section's limit.
    fn limit(&self, alloc: Global, section: Section) -> Result<NearestLimit, MemoryFault>
        requires { IsNearness (times_of self.now.duties.now) self.now.new.now
            self.now.others self.now.nearness }
        ensures { IfOk result (λ limit. limit ≡ spec.nearest_limit
            (names_of self.now.duties.now) self.now.nearness section) }
    {
        let (duties, new, nearest) = (self.duties, self.new, self.nearness);
        let exceeds = nearest.exceeds(section);
        match section {
            Section::FlightTime => {
                period(alloc, duties, section, exceeds, None, nearest.flight_time)
            }
            Section::FlightDutyPeriod => period(
                alloc,
                duties,
                section,
                exceeds,
                None,
                nearest.flight_duty_period,
            ),
            Section::FlightTime672Hours => Ok(window(
                new,
                Kind::Flight,
                section,
                exceeds,
                6_000,
                nearest.flight_time_672_hours,
            )),
            Section::FlightTime365Days => Ok(window(
                new,
                Kind::Flight,
                section,
                exceeds,
                60_000,
                nearest.flight_time_365_days,
            )),
            Section::FlightDutyPeriods168Hours => Ok(window(
                new,
                Kind::FlightDuty,
                section,
                exceeds,
                3_600,
                nearest.flight_duty_periods_168_hours,
            )),
            Section::FlightDutyPeriods672Hours => Ok(window(
                new,
                Kind::FlightDuty,
                section,
                exceeds,
                11_400,
                nearest.flight_duty_periods_672_hours,
            )),
            Section::ThirtyHourRest => period(
                alloc,
                duties,
                section,
                exceeds,
                Some(1_800),
                nearest.thirty_hour_rest,
            ),
            Section::TenHourRest => period(
                alloc,
                duties,
                section,
                exceeds,
                Some(600),
                nearest.ten_hour_rest,
            ),
        }
    }
}

/// Copies the name of the duty at an index; past the last one the name is empty.
fn name_at(alloc: Global, duties: &[NamedDuty], index: usize) -> Result<Text, MemoryFault>
    ensures { IfOk result (λ name. name ≡ spec.name_at (names_of duties.now) index) }
{
    let name = match duties.get(index) {
        Some(named) => named.name.as_str(),
        None => "",
    };
    Ok(Text::new(String::from_str(alloc, name)?))
}

/// Says what is nearest to a limit on flight duty periods. `limit` is what it sets for each of them, if it does.
fn period(
    alloc: Global,
    duties: &[NamedDuty],
    section: Section,
    exceeds: bool,
    limit: Option<u32>,
    nearest: Option<MeasuredPeriod>,
) -> Result<NearestLimit, MemoryFault>
    ensures { IfOk result (λ found.
        found ≡ spec.nearest_period (names_of duties.now) section exceeds limit nearest) }
{
    match nearest {
        Some(period) => Ok(NearestLimit {
            section,
            minutes: Some(period.minutes),
            limit: Some(period.limit),
            duty: Some(name_at(alloc, duties, period.index)?),
            from: None,
            exceeds,
        }),
        None => Ok(NearestLimit {
            section,
            minutes: None,
            limit,
            duty: None,
            from: None,
            exceeds,
        }),
    }
}

/// Returns the first minute of a window from which on new duties have a minute, if it is not before 2000-01-01T00:00Z.
fn minute_at(new: &History, kind: Kind, start: i64) -> Option<Minute>
    requires { HasFrom (minutes_in kind new.now) start }
    ensures some { IfSome result (λ minute. start ≡ pos minute) }
    ensures none { IfNone result (start <ℤ pos 0) }
{
    // The clauses of these calls say that a window doesn't begin after the last minute of the duties.
    let last = new.intervals(kind).hull()?.to;
    let _in_range = last.number();
    if start < 0 {
        return None;
    }
    Minute::from_number(start as u32)
}

fn first_minute(new: &History, kind: Kind, start: i64) -> FirstMinute
    requires { HasFrom (minutes_in kind new.now) start }
    ensures { result ≡ spec.first_minute start }
{
    match minute_at(new, kind, start) {
        Some(minute) => FirstMinute::At(minute),
        None => FirstMinute::Before2000,
    }
}

/// Says what is nearest to a limit on windows of minutes of that kind.
fn window(
    new: &History,
    kind: Kind,
    section: Section,
    exceeds: bool,
    limit: u32,
    nearest: Option<FullestWindow>,
) -> NearestLimit
    requires { IfSome nearest (λ window. HasFrom (minutes_in kind new.now) window.start) }
    ensures { result ≡ spec.nearest_window section exceeds limit nearest }
{
    match nearest {
        Some(window) => NearestLimit {
            section,
            minutes: Some(window.minutes as u128),
            limit: Some(limit),
            duty: None,
            from: Some(first_minute(new, kind, window.start)),
            exceeds,
        },
        None => NearestLimit {
            section,
            minutes: Some(0),
            limit: Some(limit),
            duty: None,
            from: None,
            exceeds,
        },
    }
}
