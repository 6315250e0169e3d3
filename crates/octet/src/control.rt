// A control bit with a value bit. Without control the value reads 0.
ghost use Rattle.octet.specs.Control.{controlled};
ghost use Rattle.octet.specs.Laws.{controlled_lawful};

use datapoint::datapoint_type::{Counts, DatapointType};
use datapoint::front::deliver;
use datapoint::refusal::Refusal;

#[derive(Clone, Copy, PartialEq, Eq, Debug)]
pub struct Controlled;

impl DatapointType for Controlled {
    ghost meaning = { λ _. controlled };

    ghost lawful = { λ s. controlled_lawful };

    fn counts(&self) -> Counts {
        Counts {
            octets: 1,
            fields: 2,
        }
    }

    fn read(&self, payload: &[u8], out: &mut [i64]) -> Result<usize, Refusal> {
        match payload {
            [0..=1] => deliver(&[0, 0], out),
            [2] => deliver(&[1, 0], out),
            [3] => deliver(&[1, 1], out),
            [_] => Err(Refusal::IllegalPayload),
            _ => Err(Refusal::WrongLength { due: 1 }),
        }
    }

    fn write(&self, reading: &[i64], out: &mut [u8]) -> Result<usize, Refusal> {
        match reading {
            [0, 0] => deliver(&[0], out),
            [1, 0] => deliver(&[2], out),
            [1, 1] => deliver(&[3], out),
            [_, _] => Err(Refusal::IllegalReading),
            _ => Err(Refusal::WrongLength { due: 2 }),
        }
    }
}
