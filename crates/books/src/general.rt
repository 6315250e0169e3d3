// The general book (KNX Standard, Datapoint Types, 02.02.01).
ghost use Rattle.books.specs.General.{general};
ghost use Rattle.books.specs.Laws.{general_lawful};

use crate::standard::{StandardType, up_to};
use book::book::Book;
use book::catalogue::Catalogue;
use book::found::{counts_in, read_in, write_in};
use book::number::TypeNumber;
use clock::date::DateOnly;
use clock::time::TimeOfDay;
use datapoint::datapoint_type::Counts;
use datapoint::refusal::Refusal;
use float::two_octets::Float;
use joined::join::Joined;
use moment::date_time::DateAndTime;
use octet::control::Controlled;
use octet::scene::{Flag, FlaggedScene};
use octet::step::Stepped;
use text::text::Text;
use whole::whole::Whole;

// Red, green and blue, 232.600.
const COLOUR: Joined<Whole, Joined<Whole, Whole>> = Joined {
    first: Whole::U8,
    second: Joined {
        first: Whole::U8,
        second: Whole::U8,
    },
};

#[derive(Clone, Copy, PartialEq, Eq, Debug)]
pub struct GeneralBook;

impl Book for GeneralBook {
    ghost types = { λ _. general };

    ghost lawful = { λ s. general_lawful };

    fn counts(&self, number: TypeNumber) -> Result<Counts, Refusal> {
        counts_in(self.type_of(number))
    }

    fn read(&self, number: TypeNumber, payload: &[u8], out: &mut [i64]) -> Result<usize, Refusal> {
        read_in(self.type_of(number), payload, out)
    }

    fn write(&self, number: TypeNumber, reading: &[i64], out: &mut [u8]) -> Result<usize, Refusal> {
        write_in(self.type_of(number), reading, out)
    }
}

impl Catalogue for GeneralBook {
    type Type = StandardType;

    fn type_of(&self, number: TypeNumber) -> Option<StandardType> {
        let found = match (number.main, number.sub) {
            (1, 1..=19) => up_to(1),
            (2, 1..=12) => StandardType::Controlled(Controlled),
            (3, 7..=8) => StandardType::Stepped(Stepped),
            (4, 1) => up_to(127),
            (4, 2) => up_to(255),
            (5, sub @ 1..=4) if sub != 2 => StandardType::Whole(Whole::U8),
            (5, 10) => StandardType::Whole(Whole::U8),
            (6, 1 | 10) => StandardType::Whole(Whole::I8),
            (7, 1) => StandardType::Whole(Whole::U16),
            (8, 1) => StandardType::Whole(Whole::I16),
            (9, 1) => StandardType::Float(Float::TEMPERATURE),
            (9, 2) => StandardType::Float(Float::DIFFERENCE),
            (9, 4..=7) => StandardType::Float(Float::no_less_than(0)),
            (10, 1) => StandardType::TimeOfDay(TimeOfDay),
            (11, 1) => StandardType::DateOnly(DateOnly),
            (12, 1) => StandardType::Whole(Whole::U32),
            (13, 1) => StandardType::Whole(Whole::I32),
            (16, 0) => StandardType::Text(Text::ASCII),
            (16, 1) => StandardType::Text(Text::LATIN_1),
            (17, 1) => up_to(63),
            (18, 1) => StandardType::FlaggedScene(FlaggedScene { flag: Flag::Bit7 }),
            (19, 1) => StandardType::DateAndTime(DateAndTime),
            (23, 2) => up_to(2),
            (23, 1..=3) => up_to(3),
            (26, 1) => StandardType::FlaggedScene(FlaggedScene { flag: Flag::Bit6 }),
            (232, 600) => StandardType::Colour(COLOUR),
            _ => return None,
        };
        Some(found)
    }
}
