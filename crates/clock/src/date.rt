// A date of the years 1990 to 2089.
ghost use Rattle.std.specs.Prelude.{◌≡◌};
ghost use Rattle.clock.specs.Date.{date_only, year_of};
ghost use Rattle.clock.specs.DateLaws;

use crate::calendar::Date;
use datapoint::datapoint_type::{Counts, DatapointType};
use datapoint::front::deliver;
use datapoint::refusal::Refusal;

#[derive(Clone, Copy, PartialEq, Eq, Debug)]
pub struct DateOnly;

// The year of its last two digits.
fn year_of(digits: u8) -> u16
    ensures { result ≡ year_of digits }
{
    match digits {
        90.. => 1900 + u16::from(digits),
        _ => 2000 + u16::from(digits),
    }
}

impl DatapointType for DateOnly {
    ghost meaning = { λ _. date_only };

    ghost lawful = { λ s. DateLaws.lawful };

    fn counts(&self) -> Counts {
        Counts {
            octets: 3,
            fields: 3,
        }
    }

    fn read(&self, payload: &[u8], out: &mut [i64]) -> Result<usize, Refusal> {
        match payload {
            [day, month, digits @ 0..=99] => {
                let year = year_of(*digits);
                let date = Date::new(*day, *month, Some(year)).ok_or(Refusal::IllegalPayload)?;
                deliver(
                    &[
                        i64::from(date.day()),
                        i64::from(date.month()),
                        i64::from(year),
                    ],
                    out,
                )
            }
            [_, _, _] => Err(Refusal::IllegalPayload),
            _ => Err(Refusal::WrongLength { due: 3 }),
        }
    }

    fn write(&self, reading: &[i64], out: &mut [u8]) -> Result<usize, Refusal> {
        let [day, month, year] = reading else {
            return Err(Refusal::WrongLength { due: 3 });
        };
        let Ok(year @ 1990..=2089) = u16::try_from(*year) else {
            return Err(Refusal::IllegalReading);
        };
        let date = Date::of_fields(*day, *month, Some(year)).ok_or(Refusal::IllegalReading)?;
        // Two digits: `try_from` would have an error that can't come.
        deliver(&[date.day(), date.month(), (year % 100) as u8], out)
    }
}
