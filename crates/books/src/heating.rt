// The heating book (KNX Standard, Datapoint Types, 02.02.01).
ghost use Rattle.std.specs.Prelude.{◌≡◌};
ghost use Rattle.octet.specs.Range.{up_to};
ghost use Rattle.books.specs.Heating.{heating, with_status};
ghost use Rattle.books.specs.Standard.{meaning_of};
ghost use Rattle.books.specs.Laws.{heating_lawful};

use crate::standard::{StandardType, up_to};
use book::book::Book;
use book::catalogue::Catalogue;
use book::found::{counts_in, read_in, write_in};
use book::number::TypeNumber;
use datapoint::datapoint_type::Counts;
use datapoint::refusal::Refusal;
use joined::join::Joined;
use octet::range::UpTo;

#[derive(Clone, Copy, PartialEq, Eq, Debug)]
pub struct HeatingBook;

impl Book for HeatingBook {
    ghost types = { λ _. heating };

    ghost lawful = { λ s. heating_lawful };

    fn counts(&self, number: TypeNumber) -> Result<Counts, Refusal> {
        counts_in(self.type_of(number))
    }

    fn read(&self, number: TypeNumber, payload: &[u8], out: &mut [i64]) -> Result<usize, Refusal> {
        read_in(self.type_of(number), payload, out)
    }

    fn write(&self, number: TypeNumber, reading: &[i64], out: &mut [u8]) -> Result<usize, Refusal> {
        write_in(self.type_of(number), reading, out)
    }
}

impl Catalogue for HeatingBook {
    type Type = StandardType;

    fn type_of(&self, number: TypeNumber) -> Option<StandardType> {
        let found = match (number.main, number.sub) {
            (20, 100) => up_to(3),
            (20, 102..=103) => up_to(4),
            (20, 104) => up_to(2),
            (200, 100) => with_status(1),
            (201, sub @ 100..=102) if sub != 101 => with_status(4),
            _ => return None,
        };
        Some(found)
    }
}

// An octet up to the highest, joined with a status octet.
fn with_status(highest: u8) -> StandardType
    ensures { meaning_of result ≡ with_status (up_to highest) }
{
    StandardType::WithStatus(Joined {
        first: UpTo { highest },
        second: UpTo { highest: 31 },
    })
}
