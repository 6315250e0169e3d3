// A direction with a step code. Code 0 is a break, and its direction reads 0.
ghost use Rattle.octet.specs.Step.{stepped};
ghost use Rattle.octet.specs.Laws.{stepped_lawful};

use datapoint::datapoint_type::{Counts, DatapointType};
use datapoint::front::deliver;
use datapoint::refusal::Refusal;

#[derive(Clone, Copy, PartialEq, Eq, Debug)]
pub struct Stepped;

impl DatapointType for Stepped {
    ghost meaning = { λ _. stepped };

    ghost lawful = { λ s. stepped_lawful };

    fn counts(&self) -> Counts {
        Counts {
            octets: 1,
            fields: 2,
        }
    }

    fn read(&self, payload: &[u8], out: &mut [i64]) -> Result<usize, Refusal> {
        match payload {
            [octet @ 0..=15] if *octet % 8 == 0 => deliver(&[0, 0], out),
            [octet @ 0..=15] => deliver(&[i64::from(*octet / 8), i64::from(*octet % 8)], out),
            [_] => Err(Refusal::IllegalPayload),
            _ => Err(Refusal::WrongLength { due: 1 }),
        }
    }

    fn write(&self, reading: &[i64], out: &mut [u8]) -> Result<usize, Refusal> {
        match reading {
            // The pattern bounds the fields: `try_from` would have an error that can't come.
            [0, code @ 0..=7] => deliver(&[*code as u8], out),
            [1, code @ 1..=7] => deliver(&[(8 + *code) as u8], out),
            [_, _] => Err(Refusal::IllegalReading),
            _ => Err(Refusal::WrongLength { due: 2 }),
        }
    }
}
