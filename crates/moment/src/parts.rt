// A date and a time, parts of which may be void.
// One function for all parts, as `voidable` of the definitions, was tried: the search gave up in `clock_of` and `of_fields`.
ghost use Rattle.std.specs.Prelude.{◌≡◌};
ghost use Rattle.moment.specs.Voidable.{years_of, year_told, month_day, weekday_of, clock_time, clock_of, date_in, date_of, time_in, time_of};

use crate::flags::Voids;
use clock::calendar::Date;

// A date, each part None where it is void.
#[derive(Clone, Copy, PartialEq, Eq, Debug)]
pub struct DatePart {
    // The years after 1900.
    pub years: Option<u8>,
    // The month and the day.
    pub day: Option<(u8, u8)>,
}

// A weekday and a time, each None where it is void.
#[derive(Clone, Copy, PartialEq, Eq, Debug)]
pub struct TimePart {
    pub weekday: Option<u8>,
    // The hour, the minute and the second.
    pub clock: Option<(u8, u8, u8)>,
}

// The years after 1900 of the year's field.
fn years_of(void: bool, year: i64) -> Option<Option<u8>>
    ensures { result ≡ years_of void year }
{
    match (void, year) {
        (true, 0) => Some(None),
        // The pattern bounds it: `try_from` would have an error that can't come.
        (false, 1900..=2155) => Some(Some((year - 1900) as u8)),
        _ => None,
    }
}

// The year, where it is told.
pub fn year_told(years: Option<u8>) -> Option<u16>
    ensures { result ≡ year_told years }
{
    years.map(|years| 1900 + u16::from(years))
}

// The month and the day, where there is such a date.
fn month_day(years: Option<u8>, month: u8, day: u8) -> Option<(u8, u8)>
    ensures { result ≡ month_day years month day }
{
    let date = Date::new(day, month, year_told(years))?;
    Some((date.month(), date.day()))
}

// A time from 00:00:00 to 24:00:00.
fn clock_time(hour: u8, minute: u8, second: u8) -> Option<(u8, u8, u8)>
    ensures { result ≡ clock_time hour minute second }
{
    match (hour, minute, second) {
        (0..=23, 0..=59, 0..=59) | (24, 0, 0) => Some((hour, minute, second)),
        _ => None,
    }
}

// The weekday of its field.
fn weekday_of(void: bool, weekday: i64) -> Option<Option<u8>>
    ensures { result ≡ weekday_of void weekday }
{
    match (void, weekday) {
        (true, 0) => Some(None),
        // The pattern bounds it: `try_from` would have an error that can't come.
        (false, 0..=7) => Some(Some(weekday as u8)),
        _ => None,
    }
}

// The time of its fields.
fn clock_of(void: bool, fields: &[i64]) -> Option<Option<(u8, u8, u8)>>
    ensures { result ≡ clock_of void fields.now }
{
    let [hour, minute, second] = fields else {
        return None;
    };
    let hour = u8::try_from(*hour).ok()?;
    let minute = u8::try_from(*minute).ok()?;
    let second = u8::try_from(*second).ok()?;
    match (void, hour, minute, second) {
        (false, _, _, _) => Some(Some(clock_time(hour, minute, second)?)),
        (true, 0, 0, 0) => Some(None),
        _ => None,
    }
}

impl DatePart {
    // The date in octets of a payload.
    pub fn in_octets(voids: Voids, years: u8, month: u8, day: u8) -> Option<DatePart>
        ensures { result ≡ date_in voids years month day }
    {
        let years = (!voids.year).then_some(years);
        let day = match (voids.date, month, day) {
            (false, _, _) => Some(month_day(years, month, day)?),
            (true, 0..=15, 0..=31) => None,
            _ => return None,
        };
        Some(DatePart { years, day })
    }

    // The date of the first three fields of a reading.
    pub fn of_fields(voids: Voids, fields: &[i64]) -> Option<DatePart>
        ensures { result ≡ date_of voids fields.now }
    {
        let [year, month, day] = fields else {
            return None;
        };
        let years = years_of(voids.year, *year)?;
        let month = u8::try_from(*month).ok()?;
        let day = u8::try_from(*day).ok()?;
        let day = match (voids.date, month, day) {
            (false, _, _) => Some(month_day(years, month, day)?),
            (true, 0, 0) => None,
            _ => return None,
        };
        Some(DatePart { years, day })
    }
}

impl TimePart {
    // The weekday and the time in octets of a payload.
    pub fn in_octets(voids: Voids, first: u8, minute: u8, second: u8) -> Option<TimePart>
        ensures { result ≡ time_in voids first minute second }
    {
        let weekday = (!voids.weekday).then_some(first / 32);
        let clock = match (voids.time, minute, second) {
            (false, _, _) => Some(clock_time(first % 32, minute, second)?),
            (true, 0..=63, 0..=63) => None,
            _ => return None,
        };
        Some(TimePart { weekday, clock })
    }

    // The weekday and the time of the next four fields of a reading.
    pub fn of_fields(voids: Voids, fields: &[i64]) -> Option<TimePart>
        ensures { result ≡ time_of voids fields.now }
    {
        let [weekday, ..] = fields else {
            return None;
        };
        Some(TimePart {
            weekday: weekday_of(voids.weekday, *weekday)?,
            clock: clock_of(voids.time, &fields[1..])?,
        })
    }
}
