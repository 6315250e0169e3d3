// One octet from 0 to a highest value: the one-bit types, characters, scenes, modes and status octets.
ghost use Rattle.std.specs.Prelude.{◌<◌};
ghost use Rattle.octet.specs.Range.{up_to};
ghost use Rattle.octet.specs.Laws.{up_to_lawful};

use datapoint::datapoint_type::{Counts, DatapointType};
use datapoint::front::deliver;
use datapoint::refusal::Refusal;

#[derive(Clone, Copy, PartialEq, Eq, Debug)]
pub struct UpTo {
    pub highest: u8,
    ghost octet: { highest < 256 },
}

impl DatapointType for UpTo {
    ghost meaning = { λ s. up_to s.highest };

    ghost lawful = { λ s. up_to_lawful s.highest s.octet };

    fn counts(&self) -> Counts {
        Counts {
            octets: 1,
            fields: 1,
        }
    }

    fn read(&self, payload: &[u8], out: &mut [i64]) -> Result<usize, Refusal> {
        match payload {
            [value] if *value <= self.highest => deliver(&[i64::from(*value)], out),
            [_] => Err(Refusal::IllegalPayload),
            _ => Err(Refusal::WrongLength { due: 1 }),
        }
    }

    fn write(&self, reading: &[i64], out: &mut [u8]) -> Result<usize, Refusal> {
        match reading {
            // The pattern bounds the fields: `try_from` would have an error that can't come.
            [value @ 0..] if *value <= i64::from(self.highest) => deliver(&[*value as u8], out),
            [_] => Err(Refusal::IllegalReading),
            _ => Err(Refusal::WrongLength { due: 1 }),
        }
    }
}
