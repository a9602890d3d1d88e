//! Instants: whole minutes of UTC in the years 2000 to 2099, and their written form `YYYY-MM-DDThh:mmZ`.
//! Texts at each edge of the form and of the calendar: `tests/texts.py`. Wrong bodies: `must-fail/` and `must-fail-more/`.
ghost use Rattle.std.specs.Prelude.{◌≡◌, ◌↔◌, pos, ◌+◌, ◌/◌, ◌<◌, ◌++◌, length, slice_index, unsigned_abs};
ghost use Rattle.std.specs.Prelude.{IsSome, IfSome, IfOk, OnOk, OnErr};
ghost use Rattle.std.specs.Char.{IsAsciiDigit};
ghost use Rattle.jiff.specs.Words.{IsBetween, IsYmd};
ghost use Rattle.time117.specs.Instant as spec;

use jiff::ToSpan;
use jiff::civil::{Date, date};
use std::marker::Model;
use values::{LawfulEq, MemoryFault};

/// Why a text is no instant of this crate.
#[derive(Clone, Copy, Debug, PartialEq, Eq)]
pub enum TimeFault {
    /// Not of the shape `YYYY-MM-DDThh:mmZ` or `YYYY-MM-DDThh:mm:00Z`.
    Malformed,
    /// A month, a day of the month, an hour or a minute that doesn't exist.
    NoSuchTime,
    /// A year before 2000 or after 2099.
    OutOfRange,
}

/// A whole minute of UTC, as the number of minutes since 2000-01-01T00:00Z.
/// The last one is 2099-12-31T23:59Z, minute 52,595,999.
#[derive(Clone, Copy, Debug, PartialEq, Eq, PartialOrd, Ord)]
pub struct Minute {
    number: u32,
}

impl Model for Minute {
    ghost use Rattle.std.specs.Prelude.{ℕ, ◌<◌};

    ghost Value = { ℕ };

    ghost view = { λ m. m.number };

    ghost invariant = { λ m. m.number < 52_596_000 };

    ghost inverse = { λ n. record { number = n } };
}

impl LawfulEq for Minute {
    ghost use Rattle.std.proofs.lemmas.Bool.Decides.{Decides-eqb};

    ghost exact = { Decides-eqb };
}

impl Minute {
    /// 2000-01-01T00:00Z.
    pub const FIRST: Minute = Minute { number: 0 };

    /// Reads `YYYY-MM-DDThh:mmZ` or `YYYY-MM-DDThh:mm:00Z`. Faults are looked for in the order of
    /// [`TimeFault`].
    #[tactic(auto, unfolding(crate::specs::Instant::read_instant))]
    pub fn read(text: &[u8]) -> Result<Minute, TimeFault>
        ensures value { result ≡ spec.read_instant text.now }
        ensures first_form { IfOk result (λ m. length text.now ≡ 17 → text.now ≡ spec.written m) }
    {
        if !is_written(text) {
            return Err(TimeFault::Malformed);
        }
        let year = 100 * pair_at(text, 0) as u16 + pair_at(text, 2) as u16;
        Minute::of_parts(
            year,
            pair_at(text, 5),
            pair_at(text, 8),
            pair_at(text, 11),
            pair_at(text, 14),
        )
    }

    /// Returns the minute with this number, if it is one from 0 to 52,595,999.
    pub fn from_number(number: u32) -> Option<Minute>
        ensures valid { IsSome result ↔ (number < 52_596_000) }
        ensures value { IfSome result (λ m. m ≡ number) }
    {
        if number < 52_596_000 {
            Some(Minute { number })
        } else {
            None
        }
    }

    /// Counts the minutes since 2000-01-01T00:00Z.
    pub fn number(self) -> u32
        ensures value { result ≡ self }
        ensures in_range { result < 52_596_000 }
    {
        self.number
    }

    /// Counts the days since 2000-01-01, in UTC.
    pub fn day(self) -> u32
        ensures value { result ≡ self / 1_440 }
        ensures in_range { result < 36_525 }
    {
        self.number / 1_440
    }

    /// Appends `YYYY-MM-DDThh:mmZ`, 17 bytes.
    pub fn write(&self, text: &mut Vec<u8>) -> Result<(), MemoryFault>
        ensures ok { OnOk result (text.new.items ≡ text.old.items ++ spec.written self.now) }
        ensures err { OnErr result (text.new.items ≡ text.old.items) }
        ensures length { length (spec.written self.now) ≡ 17 }
        ensures read_back { spec.read_instant (spec.written self.now) ≡ Ok self.now }
    {
        text.extend_from_slice(&self.to_ascii())?;
        Ok(())
    }

    /// Writes the minute in its first form.
    #[tactic(auto, unfolding(crate::specs::Instant::written))]
    fn to_ascii(self) -> [u8; 17]
        ensures text { result ≡ spec.written self }
        ensures length { length (spec.written self) ≡ 17 }
        ensures read_back { spec.read_instant (spec.written self) ≡ Ok self }
    {
        let date = date_of(self.day());
        let [y0, y1] = two_digits((date.year() / 100) as u8);
        let [y2, y3] = two_digits((date.year() % 100) as u8);
        let [m0, m1] = two_digits(date.month() as u8);
        let [d0, d1] = two_digits(date.day() as u8);
        let [h0, h1] = two_digits((self.number % 1_440 / 60) as u8);
        let [n0, n1] = two_digits((self.number % 60) as u8);
        [
            y0, y1, y2, y3, b'-', m0, m1, b'-', d0, d1, b'T', h0, h1, b':', n0, n1, b'Z',
        ]
    }

    /// Makes the minute that these parts of a text name.
    fn of_parts(year: u16, month: u8, day: u8, hour: u8, minute: u8) -> Result<Minute, TimeFault>
        requires year { year < 10_000 }
        requires month { month < 100 }
        requires day { day < 100 }
        ensures { result ≡ spec.instant year month day hour minute }
    {
        let Ok(date) = Date::new(year as i16, month as i8, day as i8) else {
            return Err(TimeFault::NoSuchTime);
        };
        if hour >= 24 || minute >= 60 {
            return Err(TimeFault::NoSuchTime);
        }
        if !(2000..=2099).contains(&year) {
            return Err(TimeFault::OutOfRange);
        }
        Ok(Minute {
            number: 1_440 * day_number(date) + 60 * hour as u32 + minute as u32,
        })
    }
}

/// Returns the date of a day since 2000-01-01.
fn date_of(day: u32) -> Date
    requires { day < 36_525 }
    ensures { IsYmd
        (pos (spec.date_of day).year) (pos (spec.date_of day).month) (pos (spec.date_of day).day)
        result }
{
    date(2000, 1, 1).checked_add((day as i64).days()).unwrap()
}

fn two_digits(number: u8) -> [u8; 2]
    requires { number < 100 }
    ensures { result ≡ spec.two_digits number }
{
    [b'0' + number / 10, b'0' + number % 10]
}

/// Counts the days from 2000-01-01 to a date of the years 2000 to 2099.
fn day_number(day: Date) -> u32
    requires { IsBetween (pos 2_000) (pos 2_099) day.year }
    ensures value { result ≡ spec.day_number (unsigned_abs day.year) day.month day.day }
    ensures in_range { result < 36_525 }
{
    let hours = date(2000, 1, 1).duration_until(day).as_hours();
    hours as u32 / 24
}

/// Returns whether the text has one of the two written forms.
fn is_written(text: &[u8]) -> bool
    ensures { result ≡ spec.is_written text.now }
{
    has_form(b"dddd-dd-ddTdd:ddZ", text) || has_form(b"dddd-dd-ddTdd:dd:00Z", text)
}

/// Returns whether each byte of the text fits the form's letter at its place, where `d` is any
/// digit.
fn has_form(form: &[u8], text: &[u8]) -> bool
    ensures { result ≡ spec.has_form form.now text.now }
{
    form.len() == text.len()
        && form
            .iter()
            .zip(text)
            .all(|(letter, byte)| fits(*letter, *byte))
}

fn fits(letter: u8, byte: u8) -> bool
    ensures { result ≡ spec.fits letter byte }
{
    if letter == b'd' {
        byte.is_ascii_digit()
    } else {
        letter == byte
    }
}

/// Reads the number that the two digits from a place on write.
fn pair_at(text: &[u8], place: usize) -> u8
    requires within { place + 1 < length text.now }
    requires first { IsAsciiDigit (slice_index text.now place) }
    requires second { IsAsciiDigit (slice_index text.now (place + 1)) }
    ensures value { result ≡ spec.pair_at text.now place }
    ensures two { result < 100 }
{
    10 * (text[place] - b'0') + (text[place + 1] - b'0')
}
