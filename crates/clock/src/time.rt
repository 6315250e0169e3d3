// A weekday with a time of day.
ghost use Rattle.clock.specs.Time.{time_of_day};
ghost use Rattle.clock.specs.TimeLaws;

use datapoint::datapoint_type::{Counts, DatapointType};
use datapoint::front::deliver;
use datapoint::refusal::Refusal;

#[derive(Clone, Copy, PartialEq, Eq, Debug)]
pub struct TimeOfDay;

impl DatapointType for TimeOfDay {
    ghost meaning = { λ _. time_of_day };

    ghost lawful = { λ s. TimeLaws.lawful };

    fn counts(&self) -> Counts {
        Counts {
            octets: 3,
            fields: 4,
        }
    }

    fn read(&self, payload: &[u8], out: &mut [i64]) -> Result<usize, Refusal> {
        match payload {
            [first, minute @ 0..=59, second @ 0..=59] if *first % 32 <= 23 => deliver(
                &[
                    i64::from(*first / 32),
                    i64::from(*first % 32),
                    i64::from(*minute),
                    i64::from(*second),
                ],
                out,
            ),
            [_, _, _] => Err(Refusal::IllegalPayload),
            _ => Err(Refusal::WrongLength { due: 3 }),
        }
    }

    fn write(&self, reading: &[i64], out: &mut [u8]) -> Result<usize, Refusal> {
        match reading {
            [
                weekday @ 0..=7,
                hour @ 0..=23,
                minute @ 0..=59,
                second @ 0..=59,
            ] => {
                // The pattern bounds the fields: `try_from` would have an error that can't come.
                deliver(
                    &[
                        32 * (*weekday as u8) + *hour as u8,
                        *minute as u8,
                        *second as u8,
                    ],
                    out,
                )
            }
            [_, _, _, _] => Err(Refusal::IllegalReading),
            _ => Err(Refusal::WrongLength { due: 4 }),
        }
    }
}
