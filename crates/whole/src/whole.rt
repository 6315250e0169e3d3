// A whole number in one, two or four octets, the high octet first, unsigned or in two's complement.
ghost use Rattle.std.specs.Prelude.{◌≡◌, ◌^◌, ◌≤◌, length, pos};
ghost use Rattle.whole.specs.Whole.{count, number_in, negative_from, value_of, number_of, whole};
ghost use Rattle.whole.specs.Octets.{whole_lawful};

use datapoint::datapoint_type::{Counts, DatapointType};
use datapoint::front::deliver;
use datapoint::refusal::Refusal;

// How many octets the number has.
#[derive(Clone, Copy, PartialEq, Eq, Debug)]
pub enum Width {
    One = 1,
    Two = 2,
    Four = 4,
}

impl Width {
    fn octets(self) -> usize
        ensures { result ≡ count self }
    {
        self as usize
    }
}

// Whether the upper half of the numbers stands for negative values.
#[derive(Clone, Copy, PartialEq, Eq, Debug)]
pub enum Sign {
    Unsigned,
    TwosComplement,
}

#[derive(Clone, Copy, PartialEq, Eq, Debug)]
pub struct Whole {
    pub width: Width,
    pub sign: Sign,
}

impl Whole {
    // 5.010
    pub const U8: Whole = Whole {
        width: Width::One,
        sign: Sign::Unsigned,
    };

    // 6.010
    pub const I8: Whole = Whole {
        width: Width::One,
        sign: Sign::TwosComplement,
    };

    // 7.001
    pub const U16: Whole = Whole {
        width: Width::Two,
        sign: Sign::Unsigned,
    };

    // 8.001
    pub const I16: Whole = Whole {
        width: Width::Two,
        sign: Sign::TwosComplement,
    };

    // 12.001
    pub const U32: Whole = Whole {
        width: Width::Four,
        sign: Sign::Unsigned,
    };

    // 13.001
    pub const I32: Whole = Whole {
        width: Width::Four,
        sign: Sign::TwosComplement,
    };

    // How many numbers the octets can write.
    fn span(self) -> i64
        ensures { result ≡ pos (256 ^ count self.width) }
    {
        256_i64.pow(self.width as u32)
    }

    // The numbers from this one on stand for negative values.
    fn negative_from(self) -> i64
        ensures { result ≡ pos (negative_from self.sign (count self.width)) }
    {
        match self.sign {
            Sign::Unsigned => self.span(),
            Sign::TwosComplement => self.span() / 2,
        }
    }

    // The value that a number of the octets stands for.
    fn value(self, number: u32) -> i64
        ensures { result ≡ value_of (count self.width) (negative_from self.sign (count self.width)) number }
    {
        let number = i64::from(number);
        if number < self.negative_from() {
            number
        } else {
            number - self.span()
        }
    }

    // The number that stands for a value, if the value is in range.
    fn number(self, value: i64) -> Option<u32>
        ensures { result ≡ number_of (count self.width) (negative_from self.sign (count self.width)) value }
    {
        let span = self.span();
        let from = self.negative_from();
        match value {
            // The guards bound it: `try_from` would have an error that can't come.
            0.. if value < from => Some(value as u32),
            ..0 if value >= from - span => Some((value + span) as u32),
            _ => None,
        }
    }
}

// The number that the octets write, the high octet first.
#[tactic(auto, using(crate::proofs::Word::number_in_word))]
fn number_in(octets: &[u8]) -> u32
    requires { length octets.now ≤ 4 }
    ensures { result ≡ number_in octets.now }
{
    let mut word = [0; 4];
    word[4 - octets.len()..].copy_from_slice(octets);
    u32::from_be_bytes(word)
}

impl DatapointType for Whole {
    ghost meaning = { λ s. whole s.width s.sign };

    ghost lawful = { λ s. whole_lawful s.width s.sign };

    fn counts(&self) -> Counts {
        Counts {
            octets: self.width.octets(),
            fields: 1,
        }
    }

    fn read(&self, payload: &[u8], out: &mut [i64]) -> Result<usize, Refusal> {
        let due = self.width.octets();
        if payload.len() != due {
            return Err(Refusal::WrongLength { due });
        }
        deliver(&[self.value(number_in(payload))], out)
    }

    fn write(&self, reading: &[i64], out: &mut [u8]) -> Result<usize, Refusal> {
        let [value] = reading else {
            return Err(Refusal::WrongLength { due: 1 });
        };
        let number = self.number(*value).ok_or(Refusal::IllegalReading)?;
        let word = number.to_be_bytes();
        deliver(&word[4 - self.width.octets()..], out)
    }
}
