// A date and time.
ghost use Rattle.moment.specs.DateTime.{date_time};
ghost use Rattle.moment.specs.DateTimeLaws;

use crate::moment::Moment;
use datapoint::datapoint_type::{Counts, DatapointType};
use datapoint::front::deliver;
use datapoint::refusal::Refusal;

#[derive(Clone, Copy, PartialEq, Eq, Debug)]
pub struct DateAndTime;

impl DatapointType for DateAndTime {
    ghost meaning = { λ _. date_time };

    ghost lawful = { λ s. DateTimeLaws.lawful };

    fn counts(&self) -> Counts {
        Counts {
            octets: 8,
            fields: 16,
        }
    }

    // Read and write are a few lines over other parts each: one function for both would take those as parameters.
    fn read(&self, payload: &[u8], out: &mut [i64]) -> Result<usize, Refusal> {
        if payload.len() != 8 {
            return Err(Refusal::WrongLength { due: 8 });
        }
        let moment = Moment::in_octets(payload).ok_or(Refusal::IllegalPayload)?;
        deliver(&moment.fields(), out)
    }

    fn write(&self, reading: &[i64], out: &mut [u8]) -> Result<usize, Refusal> {
        if reading.len() != 16 {
            return Err(Refusal::WrongLength { due: 16 });
        }
        let moment = Moment::of_fields(reading).ok_or(Refusal::IllegalReading)?;
        deliver(&moment.octets(), out)
    }
}
