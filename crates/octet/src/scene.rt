// A scene number, 0 to 63, with one flag bit.
ghost use Rattle.std.specs.Prelude.{◌+◌, ◌<◌, ◌≡◌};
ghost use Rattle.octet.specs.Scene.{flagged, weight};
ghost use Rattle.octet.specs.Laws.{flagged_lawful};

use datapoint::datapoint_type::{Counts, DatapointType};
use datapoint::front::deliver;
use datapoint::refusal::Refusal;

// Which bit is the flag, with what it adds to the octet.
#[derive(Clone, Copy, PartialEq, Eq, Debug)]
pub enum Flag {
    Bit6 = 64,
    Bit7 = 128,
}

impl Flag {
    // What the flag's bit adds to the octet.
    fn weight(self) -> u8
        ensures { result ≡ weight self }
    {
        self as u8
    }
}

#[derive(Clone, Copy, PartialEq, Eq, Debug)]
pub struct FlaggedScene {
    pub flag: Flag,
}

impl DatapointType for FlaggedScene {
    ghost meaning = { λ s. flagged s.flag };

    ghost lawful = { λ s. flagged_lawful s.flag };

    fn counts(&self) -> Counts {
        Counts {
            octets: 1,
            fields: 2,
        }
    }

    fn read(&self, payload: &[u8], out: &mut [i64]) -> Result<usize, Refusal> {
        let weight = self.flag.weight();
        match payload {
            [octet] if *octet / weight <= 1 && *octet % weight < 64 => {
                deliver(
                    &[i64::from(*octet / weight), i64::from(*octet % weight)],
                    out,
                )
            }
            [_] => Err(Refusal::IllegalPayload),
            _ => Err(Refusal::WrongLength { due: 1 }),
        }
    }

    fn write(&self, reading: &[i64], out: &mut [u8]) -> Result<usize, Refusal> {
        let weight = self.flag.weight();
        match reading {
            // The pattern bounds the fields: `try_from` would have an error that can't come.
            [0, scene @ 0..=63] => deliver(&[*scene as u8], out),
            [1, scene @ 0..=63] => deliver(&[weight + (*scene as u8)], out),
            [_, _] => Err(Refusal::IllegalReading),
            _ => Err(Refusal::WrongLength { due: 2 }),
        }
    }
}
