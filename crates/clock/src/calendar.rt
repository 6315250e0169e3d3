// Dates.
ghost use Rattle.std.specs.Prelude.{◌≡◌, true};
ghost use Rattle.std.specs.Option.{option_map};
ghost use Rattle.datapoint.specs.Shapes.{natural};
ghost use Rattle.clock.specs.Calendar.{on_calendar, calendar_date, DayMonthYear};

// A day of a month, of a year that may not be told.
#[derive(Clone, Copy, PartialEq, Eq, Debug)]
pub struct Date {
    day: u8,
    month: u8,
    year: Option<u16>,
    ghost valid: { on_calendar day month year ≡ true },
}

impl Date {
    // The date, where there is such a date.
    pub fn new(day: u8, month: u8, year: Option<u16>) -> Option<Date>
        ensures { option_map {U = DayMonthYear} (λ date. (date.day, date.month, date.year)) result ≡ calendar_date day month year }
    {
        match (day, month) {
            (1..=31, 1..=12) => Some(Date { day, month, year }),
            _ => None,
        }
    }

    // The date of fields of a reading, where there is such a date.
    pub fn of_fields(day: i64, month: i64, year: Option<u16>) -> Option<Date>
        ensures { option_map {U = DayMonthYear} (λ date. (date.day, date.month, date.year)) result ≡ natural (λ d. natural (λ m. calendar_date d m year) month) day }
    {
        let day = u8::try_from(day).ok()?;
        let month = u8::try_from(month).ok()?;
        Date::new(day, month, year)
    }

    pub fn day(&self) -> u8
        ensures { result ≡ self.now.day }
    {
        self.day
    }

    pub fn month(&self) -> u8
        ensures { result ≡ self.now.month }
    {
        self.month
    }

    pub fn year(&self) -> Option<u16>
        ensures { result ≡ self.now.year }
    {
        self.year
    }
}
