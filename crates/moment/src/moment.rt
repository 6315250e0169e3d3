// What a date and time tells.
ghost use Rattle.std.specs.Prelude.{◌≡◌};
ghost use Rattle.moment.specs.DateTime.{moment_in, moment_of, moment_fields, moment_octets};

use crate::flags::{Flags, Status};
use crate::parts::{DatePart, TimePart, year_told};

// A date, a time, and what the flags tell besides what is void.
#[derive(Clone, Copy, PartialEq, Eq, Debug)]
pub struct Moment {
    date: DatePart,
    time: TimePart,
    status: Status,
}

impl Moment {
    // The moment in a payload.
    pub fn in_octets(payload: &[u8]) -> Option<Moment>
        ensures { result ≡ moment_in payload.now }
    {
        let [years, month, day, first, minute, second, octet, quality] = payload else {
            return None;
        };
        let flags = Flags::in_octets(*octet, *quality)?;
        let date = DatePart::in_octets(flags.voids, *years, *month, *day)?;
        let time = TimePart::in_octets(flags.voids, *first, *minute, *second)?;
        Some(Moment {
            date,
            time,
            status: flags.status,
        })
    }

    // The moment of a reading.
    pub fn of_fields(reading: &[i64]) -> Option<Moment>
        ensures { result ≡ moment_of reading.now }
    {
        if reading.len() != 16 {
            return None;
        }
        let flags = Flags::of_fields(&reading[7..])?;
        let date = DatePart::of_fields(flags.voids, &reading[0..3])?;
        let time = TimePart::of_fields(flags.voids, &reading[3..7])?;
        Some(Moment {
            date,
            time,
            status: flags.status,
        })
    }

    // Its reading, where what is void is 0.
    pub fn fields(&self) -> [i64; 16]
        ensures { result ≡ moment_fields self.now }
    {
        let DatePart { years, day } = self.date;
        let TimePart { weekday, clock } = self.time;
        let (month_number, day_number) = day.unwrap_or((0, 0));
        let (hour, minute, second) = clock.unwrap_or((0, 0, 0));
        [
            i64::from(year_told(years).unwrap_or(0)),
            i64::from(month_number),
            i64::from(day_number),
            i64::from(weekday.unwrap_or(0)),
            i64::from(hour),
            i64::from(minute),
            i64::from(second),
            i64::from(self.status.fault),
            i64::from(self.status.workday.unwrap_or(false)),
            i64::from(self.status.workday.is_none()),
            i64::from(years.is_none()),
            i64::from(day.is_none()),
            i64::from(weekday.is_none()),
            i64::from(clock.is_none()),
            i64::from(self.status.summer),
            i64::from(self.status.synchronized),
        ]
    }

    // Its proper payload, where what is void is 0.
    pub fn octets(&self) -> [u8; 8]
        ensures { result ≡ moment_octets self.now }
    {
        let DatePart { years, day } = self.date;
        let TimePart { weekday, clock } = self.time;
        let (month_number, day_number) = day.unwrap_or((0, 0));
        let (hour, minute, second) = clock.unwrap_or((0, 0, 0));
        [
            years.unwrap_or(0),
            month_number,
            day_number,
            32 * (weekday.unwrap_or(0) % 8) + hour % 32,
            minute,
            second,
            128 * u8::from(self.status.fault)
                + 64 * u8::from(self.status.workday.unwrap_or(false))
                + 32 * u8::from(self.status.workday.is_none())
                + 16 * u8::from(years.is_none())
                + 8 * u8::from(day.is_none())
                + 4 * u8::from(weekday.is_none())
                + 2 * u8::from(clock.is_none())
                + u8::from(self.status.summer),
            128 * u8::from(self.status.synchronized),
        ]
    }
}
