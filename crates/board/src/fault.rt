// Why a text does not load.
ghost use Rattle.std.specs.Prelude.{◌≡◌};
ghost use Rattle.board.specs.declared.fault.Cause.TheVariants.{WrongLength};
ghost use Rattle.board.specs.Faults.{cause_number, cause_of};

use datapoint::refusal::Refusal;
use listing::line::TooMany;

// What is wrong with a line, with the number under which it is listed.
#[derive(Clone, Copy, PartialEq, Eq, Debug)]
pub enum Cause {
    // The point is not 1 to 48.
    NoSuchPoint = 1,
    // The point is not above that of the line before.
    NotAbove = 2,
    // The book has no type of that number.
    UnknownType = 4,
    // A reading has another number of fields than its type.
    WrongLength = 8,
    // A reading is not legal in its type.
    IllegalReading = 10,
    // The line breaks the form.
    BrokenLine = 12,
}

impl Cause {
    // The number under which the cause is listed.
    pub fn number(self) -> u8
        ensures { result ≡ cause_number self }
    {
        self as u8
    }
}

// Why a line is faulty, when its point, its type or a reading of it is refused.
impl From<Refusal> for Cause {
    ghost from_gives = { λ refusal cause. cause ≡ cause_of refusal };

    fn from(refusal: Refusal) -> Cause {
        match refusal {
            Refusal::NoSuchPoint => Cause::NoSuchPoint,
            Refusal::WrongLength { .. } => Cause::WrongLength,
            Refusal::IllegalReading => Cause::IllegalReading,
            Refusal::BrokenLine => Cause::BrokenLine,
            _ => Cause::UnknownType,
        }
    }
}

// No type has so many fields.
impl From<TooMany> for Cause {
    ghost from_gives = { λ _ cause. cause ≡ WrongLength };

    fn from(_too_many: TooMany) -> Cause {
        Cause::WrongLength
    }
}

// The first faulty line, counted from 1, and its cause.
#[derive(Clone, Copy, PartialEq, Eq, Debug)]
pub struct Fault {
    pub line: usize,
    pub cause: Cause,
}
